// The file table written anew, with no name shared. Two writers call each other: one writes an entry with all
// that is in it, the other a directory's entries. What they write is what `write_flat` writes, entry by
// entry, and that is `encode` of the table's entries.
ghost use Rattle.std.specs.Prelude.{◌≡◌, ◌+◌, ◌≤◌, ◌<◌, ◌^◌, length};
ghost use Rattle.endian.specs.Bytes.{put};
ghost use Rattle.tree.specs.Table.{kind, size_or_next, count, nodes_of, parent_of, encode};
ghost use Rattle.table_writing.specs.Inner.Valid.{IsValid};
ghost use Rattle.table_writing.specs.Inner.Flat.{after_in, root_at};
ghost use Rattle.table_writing.specs.Inner.Writing.{text_after, out_after, HasRoom};

use crate::kind::Kind;
use crate::record::Record;
use crate::source::Source;
use crate::{record, size};

// The lent bytes, where the table goes, and the place among them where the next name goes.
// Kept: the table is handed on, and no field: with the `Source` as a field, `write_table` knew only the
// length of the lent bytes in the end, and its proof did not close.
// Kept: `HasRoom` in three contracts: each is about other entries: one, one with all in it, all in a
// directory.
#[derive(Drop)]
struct Writer<'o> {
    out: &'o mut [u8],
    text: usize,
}

impl<'o> Writer<'o> {
    fn new(out: &'o mut [u8], text: usize) -> Writer<'o>
        ensures out { result.out.now ≡ out.old }
        ensures text { result.text ≡ text }
        ensures same_reference { result.out.ghost_name ≡ out.entry.ghost_name }
    {
        Writer { out, text }
    }

    // Writes the record and the name of entry k, and nothing that is in it.
    fn write_one(&mut self, source: &Source<'_>, k: usize, parent: u32)
        requires further { 0 < k }
        requires within { k < count source.now }
        requires parent { parent ≡ parent_of (nodes_of source.now) k }
        requires room { HasRoom self.old source.now k (k + 1) }
        ensures text { self.new.text ≡ text_after self.old source.now k (k + 1) }
        ensures out { self.new.out.now ≡ out_after self.old source.now k (k + 1) }
        ensures length { length self.new.out.now ≡ length self.old.out.now }
        ensures same_reference { self.new.out.ghost_name ≡ self.old.out.ghost_name }
    {
        // Locals: what stands behind `self` would be read again after each write.
        let text = self.text;
        let out = &mut *self.out;
        record::write_record(source.bytes(), out, source.count(), k, parent, text);
        self.text = record::write_name(source, out, k, text);
    }

    // Writes entry k, and if it is a directory all that is in it, and returns the entry after it in its
    // directory. Its kind is read once: only a directory's is looked at again, for the entry after it.
    #[cycle(write_directory_write_entry)]
    fn write_entry(&mut self, source: &Source<'_>, k: usize, parent: u32) -> usize
        requires further { 0 < k }
        requires within { k < count source.now }
        requires parent { parent ≡ parent_of (nodes_of source.now) k }
        requires room { HasRoom self.old source.now k (after_in source.now k) }
        ensures next { result ≡ after_in source.now k }
        ensures text { self.new.text ≡ text_after self.old source.now k (after_in source.now k) }
        ensures out { self.new.out.now ≡ out_after self.old source.now k (after_in source.now k) }
        ensures length { length self.new.out.now ≡ length self.old.out.now }
        ensures same_reference { self.new.out.ghost_name ≡ self.old.out.ghost_name }
    {
        let kind = source.kind(k);
        self.write_one(source, k, parent);
        match kind {
            Kind::File => k + 1,
            Kind::Directory => {
                self.write_directory(source, k);
                size::after(source.bytes(), k)
            }
        }
    }

    // Writes all that is in directory k.
    #[cycle(write_directory_write_entry)]
    fn write_directory(&mut self, source: &Source<'_>, k: usize)
        requires within { k < count source.now }
        requires directory { kind source.now k ≡ 1 }
        requires room { HasRoom self.old source.now (k + 1) (size_or_next source.now k) }
        ensures text { let stop = size_or_next source.now k in
            self.new.text ≡ text_after self.old source.now (k + 1) stop }
        ensures out { let stop = size_or_next source.now k in
            self.new.out.now ≡ out_after self.old source.now (k + 1) stop }
        ensures length { length self.new.out.now ≡ length self.old.out.now }
        ensures same_reference { self.new.out.ghost_name ≡ self.old.out.ghost_name }
    {
        let stop = source.next(k) as usize;
        // One of its own, which no write can change: so it is not read again after each.
        let source = source.reborrow();
        let mut c = k + 1;
        // Kept: `write_entry` returns the next child; an iterator, a type of its own, would look it up again.
        while c < stop {
            c = self.write_entry(&source, c, k as u32);
        }
    }
}

// Writes the root's record: a directory with no name, with parent 0, that reaches to the end of the table.
fn write_root(out: &mut [u8], count: usize)
    requires room { 12 ≤ length out.old }
    requires few { count ≤ 16384 }
    ensures { out.new ≡ root_at count out.old }
{
    let root = Record {
        kind: Kind::Directory,
        name: 0,
        place: 0,
        next: count as u32,
    };
    root.write(out, 0);
}

/// Writes the whole table, and returns its size in bytes.
pub fn write_table(table: &[u8], out: &mut [u8]) -> usize
    requires valid { IsValid table.now (count table.now) }
    requires room { length (encode (nodes_of table.now)) ≤ length out.old }
    requires small { length (encode (nodes_of table.now)) ≤ 2 ^ 24 }
    ensures value { result ≡ length (encode (nodes_of table.now)) }
    ensures out_after { out.new ≡ put out.old 0 (encode (nodes_of table.now)) }
{
    let source = Source::new(table);
    let count = source.count();
    write_root(out, count);
    let mut writer = Writer::new(out, 12 * count);
    writer.write_directory(&source, 0);
    writer.text
}
