// An accepted file table as a type. Contracts see its bytes.
ghost use Rattle.std.specs.Prelude.{◌≡◌, ◌+◌, ◌≤◌, ◌<◌, ◌^◌, length, ◌==◌, slice_index_or};
ghost use Rattle.tree.specs.Table as table_of;
ghost use Rattle.tree.specs.Table.{empty_root, nodes_of, name_of, parent_of, name_place, size_or_next};
ghost use Rattle.tree.specs.Lookup.{is_directory, next_of, entry_of, entry_found};
ghost use Rattle.table.specs.Inner.Reading.{Opens};
ghost use Rattle.table.specs.Inner.Texts.{text_at};
ghost use Rattle.table.specs.Inner.Fields.{offset_of, size_or_next_of};
ghost use Rattle.table.specs.Inner.Held.{IsTable};

use crate::{acceptance, fields, name};
use refusal::Refusal;
use std::marker::Model;
use tree::{DirectoryEntry, Entry, FileEntry, Found};

/// A file table that the checks accepted, so that its entries stand in it and nest, and each name ends in it.
// Kept: no derived equality, which would ask for an `inverse`: the view is the bytes, and forgets where they
// lie.
#[derive(Drop)]
pub struct Table<'a> {
    pub(crate) bytes: &'a [u8],
}

impl<'a> Model for Table<'a> {
    ghost use Rattle.std.specs.Prelude.{ℕ, List};
    ghost use Rattle.table.specs.Inner.Held.{IsTable};

    ghost Value = { List ℕ };

    ghost view = { λ t. t.bytes.now };

    ghost invariant = { λ t. IsTable t.bytes.now };
}

impl<'a> Table<'a> {
    /// A table that the checks accepted.
    pub fn new(bytes: &'a [u8]) -> Self
        requires { Opens bytes.now }
        ensures { result ≡ bytes.now }
    {
        Table { bytes }
    }

    /// Its bytes, the names with them.
    pub fn bytes(&self) -> &'a [u8]
        ensures bytes { result.now ≡ self.now }
        ensures opens { Opens self.now }
        ensures held { IsTable self.now }
    {
        self.bytes
    }

    /// How many entries it has, the root among them.
    pub fn len(&self) -> usize
        ensures len { result ≡ table_of.count self.now }
        ensures some { 0 < result }
        ensures few { result ≤ 16384 }
        ensures held { IsTable self.now }
    {
        acceptance::count(self.bytes)
    }

    /// Whether entry `k` is a directory. An accepted table has the kinds 0 and 1 only.
    pub fn is_directory(&self, k: usize) -> bool
        requires { k < table_of.count self.now }
        ensures { result ≡ is_directory (slice_index_or (nodes_of self.now) k empty_root) }
    {
        let table = self.bytes;
        table[12 * k] != 0
    }

    /// A file's offset; 0 for a directory.
    pub fn offset(&self, k: usize) -> u32
        requires { k < table_of.count self.now }
        ensures { result ≡ offset_of (slice_index_or (nodes_of self.now) k empty_root) }
    {
        let table = self.bytes;
        if table[12 * k] != 0 {
            return 0;
        }
        fields::offset_or_parent(table, k)
    }

    /// The last field of an entry: a file's size, a directory's next.
    pub fn last(&self, k: usize) -> u32
        requires { k < table_of.count self.now }
        ensures stored { result ≡ size_or_next self.now k }
        ensures last { result ≡ size_or_next_of (slice_index_or (nodes_of self.now) k empty_root) }
        ensures held { IsTable self.now }
    {
        fields::size_or_next(self.bytes, k)
    }

    /// A directory's next, the number of the entry after its last one; 0 for a file.
    pub fn next(&self, k: usize) -> usize
        requires { k < table_of.count self.now }
        ensures { result ≡ next_of (slice_index_or (nodes_of self.now) k empty_root) }
    {
        let table = self.bytes;
        if table[12 * k] == 0 {
            return 0;
        }
        self.last(k) as usize
    }

    /// Where the name of entry `k`, which is not the root, stands in the table.
    pub fn name_place(&self, k: usize) -> usize
        requires not_root { 0 < k }
        requires within { k < table_of.count self.now }
        ensures place { result ≡ name_place self.now k }
        ensures inside { result < 2 ^ 25 }
        ensures ended { result + length (text_at self.now result) < length self.now }
        ensures short { length (text_at self.now result) ≤ 2 ^ 20 }
    {
        let table = self.bytes;
        12 * self.len() + fields::name_offset(table, k) as usize
    }

    /// The name of entry `k`; the root has none.
    pub fn name(&self, k: usize) -> &'a [u8]
        requires { k < table_of.count self.now }
        ensures { result.now ≡ name_of (slice_index_or (nodes_of self.now) k empty_root) }
    {
        let table = self.bytes;
        if k == 0 {
            return &[];
        }
        let place = self.name_place(k);
        &table[place..place + name::text_length(table, place)]
    }

    /// The directory that entry `k` is nested in: the last one before it whose next is past it. The stored
    /// parent is not read.
    pub fn parent(&self, k: usize) -> usize
        requires { k < table_of.count self.now }
        ensures parent { result ≡ parent_of (nodes_of self.now) k }
        ensures before { result ≤ k }
    {
        (0..k).rfind(|&i| k < self.next(i)).unwrap_or(0)
    }

    // Entry `k`, a file with offset and size or a directory with parent and next.
    fn entry_at(&self, k: usize) -> Entry
        requires { k < table_of.count self.now }
        ensures { result ≡ entry_of (nodes_of self.now) k }
    {
        let table = self.bytes;
        let last = self.last(k);
        if table[12 * k] == 0 {
            Entry::File(FileEntry {
                offset: self.offset(k),
                size: last,
            })
        } else {
            Entry::Directory(DirectoryEntry {
                parent: self.parent(k) as u32,
                next: last,
            })
        }
    }

    /// Entry `k`; past the count `NoSuchEntry`.
    pub fn entry(&self, k: u32) -> Found
        ensures { result ≡ entry_found (nodes_of self.now) k }
    {
        let place = k as usize;
        if self.len() <= place {
            return Found::Refused(Refusal::NoSuchEntry);
        }
        Found::At(k, self.entry_at(place))
    }
}
