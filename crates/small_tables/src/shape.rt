// A shape: the entries of a table without their names and places, the root among them.
ghost use Rattle.std.specs.Prelude.{◌≡◌, ◌+◌, ◌-◌, ◌*◌, ◌<◌, ◌≤◌, length, slice_index_or};
ghost use Rattle.endian.specs.Bytes.{put};
ghost use Rattle.tree.specs.Table.{parent_of, node_bytes};
ghost use Rattle.table_writing.specs.Inner.Record.{bytes_of_record};
ghost use Rattle.small_tables.specs.Shapes.{tree_of, node_of, parents_next};
ghost use Rattle.small_tables.specs.Inner.Ends.{next_in};
ghost use Rattle.small_tables.specs.declared.shape.Entry.TheVariants.{File};
ghost use Rattle.small_tables.specs.Tables.{table_of};

use table_writing::{Kind, Record};

/// An entry of a shape.
#[derive(Clone, Copy, PartialEq, Eq, Debug)]
pub enum Entry {
    /// A file.
    File,
    /// A directory.
    Directory {
        /// The number of the entry after all those in it.
        next: u32,
    },
}

impl Entry {
    // The entry after all those in it, 0 of a file.
    fn next(self) -> u32
        ensures { result ≡ next_in self }
    {
        match self {
            Entry::File => 0,
            Entry::Directory { next } => next,
        }
    }
}

// The directory that entry k is nested in.
fn parent(shape: &[Entry], k: usize) -> usize
    requires { k ≤ length shape.now }
    ensures { result ≡ parent_of (tree_of shape.now) k }
{
    // Kept: a range of numbers: an entry is known by its number, its place in the slice.
    for p in (0..k).rev() {
        if k < shape[p].next() as usize {
            return p;
        }
    }
    0
}

/// The most that the next of a directory with number k may be.
pub fn largest_next(shape: &[Entry], k: usize) -> u32
    requires some { 0 < length shape.now }
    requires within { k ≤ length shape.now }
    ensures { result ≡ parents_next (tree_of shape.now) k }
{
    shape[parent(shape, k)].next()
}

// The record of entry k.
fn record(shape: &[Entry], k: usize) -> Record
    requires within { k < length shape.now }
    requires few { length shape.now ≤ 8 }
    ensures bytes { let entry = node_of k (slice_index_or shape.now k File) in
        bytes_of_record result ≡ node_bytes (parent_of (tree_of shape.now) k) (2 * (k - 1)) entry }
    ensures name { result.name ≡ 2 * (k - 1) }
{
    let name = 2 * k.saturating_sub(1) as u32;
    match shape[k] {
        Entry::File => Record {
            kind: Kind::File,
            name,
            place: 0,
            next: 0,
        },
        Entry::Directory { next } => Record {
            kind: Kind::Directory,
            name,
            place: parent(shape, k) as u32,
            next,
        },
    }
}

/// How many bytes the table of a shape of so many entries has.
pub fn table_size(count: usize) -> usize
    requires some { 0 < count }
    requires few { count ≤ 8 }
    ensures { result ≡ 14 * count - 2 }
{
    14 * count - 2
}

/// Writes its table, the names behind the records.
pub fn write_table(shape: &[Entry], table: &mut [u8])
    requires few { length shape.now ≤ 8 }
    requires some { 0 < length shape.now }
    requires room { length (table_of shape.now) ≤ length table.old }
    ensures { table.new ≡ put table.old 0 (table_of shape.now) }
{
    let count = shape.len();
    // Kept: ranges of numbers, as above.
    for k in 0..count {
        record(shape, k).write(table, k);
    }
    for letter in 0..count - 1 {
        let text = 12 * count + 2 * letter;
        endian::write_u8(table, text, b'a' + letter as u8);
        endian::write_u8(table, text + 1, 0);
    }
}
