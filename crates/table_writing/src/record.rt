// One entry of the table written: its record of four fields, and its name.
ghost use Rattle.std.specs.Prelude.{◌≡◌, ℕ, ◌+◌, ◌-◌, ◌*◌, ◌≤◌, ◌<◌, ◌^◌, length};
ghost use Rattle.endian.specs.Bytes.{put};
ghost use Rattle.tree.specs.Table.{kind, count, node_at, node_bytes};
ghost use Rattle.table_writing.specs.Inner.Valid.{name_size};
ghost use Rattle.table_writing.specs.Inner.Flat.{record_bytes, text_place, record_at, put_text};
ghost use Rattle.table_writing.specs.Inner.Record.{bytes_of_record};

use crate::kind::Kind;
use crate::source::Source;
use table::fields;

/// The four fields of an entry.
#[derive(Clone, Copy, PartialEq, Eq, Debug)]
pub struct Record {
    pub kind: Kind,
    /// Where its name starts among the texts.
    pub name: u32,
    /// Where a file's bytes start, or the directory that a directory is in.
    pub place: u32,
    /// How many bytes a file has, or the entry after all those in a directory.
    pub next: u32,
}

// What stands in the third field: a file's offset, or the parent that a directory is nested in.
// Kept: the table, k and the parent are handed on three times; a struct of them would be made anew for each
// entry.
fn place_of(table: &[u8], k: usize, parent: u32) -> u32
    requires { 12 * k + 12 ≤ length table.now }
    ensures { result ≡ text_place table.now parent k }
{
    match Kind::from_number(table[12 * k]) {
        Some(Kind::File) => fields::offset_or_parent(table, k),
        _ => parent,
    }
}

impl Record {
    /// Entry k of a table, which is in directory `parent`, and whose name starts at `name` among the texts.
    pub fn of(table: &[u8], k: usize, parent: u32, name: u32) -> Record
        requires within { 12 * k + 12 ≤ length table.now }
        requires known { kind table.now k ≤ 1 }
        ensures bytes { (n : ℕ) → bytes_of_record result
            ≡ node_bytes parent name (node_at table.now n k) }
        ensures name { result.name ≡ name }
    {
        Record {
            kind: Kind::of(table, k),
            name,
            place: place_of(table, k, parent),
            next: fields::size_or_next(table, k),
        }
    }

    /// Writes it as entry k.
    pub fn write(self, out: &mut [u8], k: usize)
        requires within { 12 * k + 12 ≤ length out.old }
        requires small { self.name < 2 ^ 24 }
        ensures { out.new ≡ put out.old (12 * k) (bytes_of_record self) }
    {
        write_fields(out, k, self.kind.number(), self.name, self.place, self.next);
    }
}

/// Writes the four fields of entry k.
// Kept: the kind is a number, since it may be any byte here; `Record` has one of the two kinds.
pub fn write_fields(out: &mut [u8], k: usize, kind: u8, name: u32, place: u32, next: u32)
    requires within { 12 * k + 12 ≤ length out.old }
    requires small { name < 2 ^ 24 }
    ensures { out.new ≡ put out.old (12 * k) (record_bytes kind name place next) }
{
    let at = 12 * k;
    endian::write_u8(out, at, kind);
    endian::write_u24(out, at + 1, name);
    endian::write_u32(out, at + 4, place);
    endian::write_u32(out, at + 8, next);
}

/// Writes the record of entry k, which is in directory `parent` of a table of `count` entries, and whose name
/// is to stand at `text`.
pub fn write_record(table: &[u8], out: &mut [u8], count: usize, k: usize, parent: u32, text: usize)
    requires within { 12 * k + 12 ≤ length table.now }
    requires known { kind table.now k ≤ 1 }
    requires room { 12 * k + 12 ≤ length out.old }
    requires past { 12 * count ≤ text }
    requires small { text < 2 ^ 24 }
    ensures { out.new ≡ record_at table.now count parent k text out.old }
{
    let name = (text - 12 * count) as u32;
    Record::of(table, k, parent, name).write(out, k);
}

/// Writes the name of entry k at `text`, and returns the place after it.
pub fn write_name(source: &Source<'_>, out: &mut [u8], k: usize, text: usize) -> usize
    requires further { 0 < k }
    requires within { k < count source.now }
    requires room { text + name_size source.now (count source.now) k + 1 ≤ length out.old }
    ensures value { result ≡ text + name_size source.now (count source.now) k + 1 }
    ensures out_after { out.new ≡ put_text source.now (count source.now) k text out.old }
{
    let name = source.name(k);
    let n = name.len();
    endian::copy(name, 0, out, text, n);
    endian::write_u8(out, text + n, 0);
    text + n + 1
}
