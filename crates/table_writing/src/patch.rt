// A written table changed in place: the place of a file, and one entry put in. For that: the texts make room
// for the new name, then the records behind it move up.
ghost use Rattle.std.specs.Prelude.{◌≡◌, ◌++◌, ◌+◌, ◌*◌, ◌≤◌, length};
ghost use Rattle.endian.specs.Bytes.{put, be32_bytes};
ghost use Rattle.tree.specs.Table.{size_or_next};
ghost use Rattle.tree.specs.Inner.Patch.{records, record_before};
ghost use Rattle.table_writing.specs.Inner.Inserting.{EachIsRaisable, NamesGrow, IsInsertable};
ghost use Rattle.table_writing.specs.Inner.Inserting.{new_texts, start_in};
ghost use Rattle.table_writing.specs.Inner.Patching.{behind_of, CanTake, records_with, table_with};

use crate::kind::Kind;
use crate::raising;
use crate::raising::{NewEntry, Shift};
use table::fields;

// The entries behind the new one: all move at once, then each is raised where it stands.
fn patch_behind(table: &mut [u8], count: usize, shift: Shift)
    requires within { 12 * count + 12 ≤ length table.old }
    requires number { shift.number ≤ count }
    requires raisable { EachIsRaisable table.old count }
    requires names { NamesGrow table.old count shift.text }
    ensures { let first = shift.number + 1 in
        table.new ≡ put table.old (12 * first) (behind_of table.old shift count) }
{
    let first = shift.number + 1;
    endian::copy_within(
        table,
        12 * shift.number,
        12 * first,
        12 * (count - shift.number),
    );
    // Kept: a range of numbers: a record is known by its number, and is 12 of the table's bytes.
    for k in (first..count + 1).rev() {
        shift.raise(table, k);
    }
}

// The entries up to directory p.
fn patch_up_to(table: &mut [u8], p: usize)
    requires within { 12 * (p + 1) ≤ length table.old }
    requires raisable { EachIsRaisable table.old (p + 1) }
    ensures { table.new ≡ put table.old 0 (records (record_before table.old p) 0 (p + 1)) }
{
    // Kept: a range of numbers, as above.
    for k in (0..p + 1).rev() {
        raising::patch_before(table, k, p);
    }
}

// All records of the new table. Those behind the new one move before it is written over the first of them;
// those between its directory and it stay.
fn patch_records(table: &mut [u8], count: usize, entry: &NewEntry<'_>)
    requires { CanTake table.old count entry.now }
    ensures { table.new ≡ put table.old 0 (records_with table.old count entry.now) }
{
    let shift = Shift {
        number: entry.number,
        text: entry.name.len() + 1,
    };
    patch_behind(table, count, shift);
    entry.write(table);
    patch_up_to(table, entry.parent);
}

// The texts of `count` entries, from 12 bytes further on, with the new name where `start` bytes of them are
// passed.
fn insert_text(table: &mut [u8], size: usize, count: usize, start: usize, name: &[u8])
    requires start { 12 * count + start ≤ size }
    requires room { size + 12 + length name.now + 1 ≤ length table.old }
    ensures { let texts = new_texts table.old size count start name.now in
        table.new ≡ put table.old (12 * count + 12) texts }
{
    let text = 12 * count + start;
    let n = name.len();
    endian::copy_within(table, text, text + 12 + n + 1, size - text);
    endian::copy(name, 0, table, text + 12, n);
    endian::write_u8(table, text + 12 + n, 0);
    endian::copy_within(table, 12 * count, 12 * count + 12, start);
}

// Where the new text starts among the texts: where that of entry q did, or behind all of them.
fn new_start(table: &[u8], size: usize, count: usize, q: usize) -> usize
    requires number { q ≤ count }
    requires records { 12 * count ≤ size }
    requires within { size ≤ length table.now }
    ensures { result ≡ start_in table.now size count q }
{
    if q < count {
        fields::name_offset(table, q) as usize
    } else {
        size - 12 * count
    }
}

/// Puts an empty directory or an empty file in as the last child of directory p of the table that stands in
/// the first `size` bytes, and returns its number. The new table has 12 + name.len() + 1 bytes more.
// Kept: the directory, the kind and the name are no struct: `NewEntry` has the number and the start too,
// which are read here.
pub fn insert(table: &mut [u8], size: usize, p: usize, kind: Kind, name: &[u8]) -> usize
    requires { IsInsertable table.old size p (length name.now) }
    ensures value { result ≡ size_or_next table.old p }
    ensures table_after { table.new ≡ put table.old 0 (table_with table.old size p kind name.now) }
{
    let count = endian::read_u32(table, 8) as usize;
    let number = fields::size_or_next(table, p) as usize;
    let start = new_start(table, size, count, number);
    insert_text(table, size, count, start, name);
    let entry = NewEntry {
        kind,
        name,
        parent: p,
        number,
        start,
    };
    patch_records(table, count, &entry);
    number
}

/// Sets the offset and the size of file k of a written table.
pub fn set_place(table: &mut [u8], k: usize, offset: u32, size: u32)
    requires { 12 * k + 12 ≤ length table.old }
    ensures { table.new ≡ put table.old (12 * k + 4) (be32_bytes offset ++ be32_bytes size) }
{
    fields::set_offset_or_parent(table, k, offset);
    fields::set_size_or_next(table, k, size);
}
