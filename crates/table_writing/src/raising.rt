// One record of a written table changed in place, for an entry that is put in: before it, behind it, and its
// own.
ghost use Rattle.std.specs.Prelude.{◌≡◌, ◌+◌, ◌*◌, ◌≤◌, ◌<◌, ◌^◌, length};
ghost use Rattle.endian.specs.Bytes.{put};
ghost use Rattle.tree.specs.Table.{name_offset};
ghost use Rattle.tree.specs.Insert.{number_after_insert};
ghost use Rattle.tree.specs.Inner.Patch.{record_before, record_after};
ghost use Rattle.table_writing.specs.Inner.Record.{bytes_of_record};
ghost use Rattle.table_writing.specs.Inner.Inserting.{IsRaisable};
ghost use Rattle.table_writing.specs.Inner.Entering.{new_bytes};

use crate::kind::Kind;
use crate::record::Record;
use table::fields;

/// How what stands behind a new entry moves.
#[derive(Clone, Copy, PartialEq, Eq, Debug)]
pub struct Shift {
    /// The number of the new entry: those from it on get the next number.
    pub number: usize,
    /// The bytes of its text, with the zero byte: the texts behind it move up by so many.
    pub text: usize,
}

impl Shift {
    // The parent of a directory that moves behind the new entry: one more, if the parent moves too.
    fn parent(self, parent: u32) -> u32
        requires { parent + 1 < 2 ^ 32 }
        ensures { result ≡ number_after_insert self.number parent }
    {
        if self.number <= parent as usize {
            parent + 1
        } else {
            parent
        }
    }

    /// Entry k, which has moved behind the new one: the name offset grows by the new text, and a directory
    /// ends one later, and its parent may have moved too. Each field is read and written back as one word,
    /// and the first holds the kind above the name offset.
    pub fn raise(self, table: &mut [u8], k: usize)
        requires within { 12 * k + 12 ≤ length table.old }
        requires raisable { IsRaisable table.old k }
        requires names { name_offset table.old k + self.text < 2 ^ 24 }
        ensures { let after = record_after table.old self.number self.text k in
            table.new ≡ put table.old (12 * k) after }
    {
        let first = endian::read_u32(table, 12 * k) + self.text as u32;
        endian::write_u32(table, 12 * k, first);
        if 0x1000000 <= first {
            let place = fields::offset_or_parent(table, k);
            fields::set_offset_or_parent(table, k, self.parent(place));
            let next = fields::size_or_next(table, k);
            fields::set_size_or_next(table, k, next + 1);
        }
    }
}

/// Entry k, which stays before the new one: directory p and those around it end one later, and nothing else
/// changes.
pub fn patch_before(table: &mut [u8], k: usize, p: usize)
    requires before { k ≤ p }
    requires within { 12 * k + 12 ≤ length table.old }
    requires raisable { IsRaisable table.old k }
    ensures { table.new ≡ put table.old (12 * k) (record_before table.old p k) }
{
    if Kind::of(table, k).is_directory() {
        let next = fields::size_or_next(table, k);
        if p < next as usize {
            fields::set_size_or_next(table, k, next + 1);
        }
    }
}

/// An empty directory or an empty file that is put in.
#[derive(Clone, Copy, PartialEq, Eq, Debug)]
pub struct NewEntry<'n> {
    pub kind: Kind,
    pub name: &'n [u8],
    /// The directory that it is in.
    pub parent: usize,
    /// The number that it gets.
    pub number: usize,
    /// Where its name starts among the texts.
    pub start: usize,
}

impl<'n> NewEntry<'n> {
    // Its record.
    fn fields(&self) -> Record
        requires behind { self.now.parent < self.now.number }
        requires few { self.now.number ≤ 16384 }
        requires small { self.now.start < 2 ^ 24 }
        ensures bytes { bytes_of_record result ≡ new_bytes self.now }
        ensures name { result.name ≡ self.now.start }
    {
        match self.kind {
            Kind::File => Record {
                kind: Kind::File,
                name: self.start as u32,
                place: 0,
                next: 0,
            },
            Kind::Directory => Record {
                kind: Kind::Directory,
                name: self.start as u32,
                place: self.parent as u32,
                next: self.number as u32 + 1,
            },
        }
    }

    /// Writes its record.
    pub fn write(&self, table: &mut [u8])
        requires within { 12 * self.now.number + 12 ≤ length table.old }
        requires behind { self.now.parent < self.now.number }
        requires few { self.now.number ≤ 16384 }
        requires small { self.now.start < 2 ^ 24 }
        ensures { table.new ≡ put table.old (12 * self.now.number) (new_bytes self.now) }
    {
        self.fields().write(table, self.number);
    }
}
