// A table that is written from its last entry to its first, where it is known where each directory ends.
// Its directories store the parent 0.
ghost use Rattle.std.specs.Prelude.{◌≡◌, ◌+◌, ◌-◌, ◌<◌, ◌≤◌, [], ◌∷◌, ◌++◌};
ghost use Rattle.std.specs.Prelude.{ℕ, suc, length, take, drop, slice_index};
ghost use Rattle.endian.specs.Bytes.{put};
ghost use Rattle.tree.specs.Table.{file, directory};
ghost use Rattle.wish_list.specs.Paths.{names_of};
ghost use Rattle.new_table.specs.Inner.Steps.{slashes};
ghost use Rattle.new_table.specs.Inner.Drafts.{entry_put, entries_put, path_entries, HasRoom};

use crate::path;
use table_writing::{Kind, Record};
use tree::FileEntry;

/// The first entry that is written: its number, and where its name starts.
// Kept: no derived equality, since nothing compares two (N).
#[derive(Clone, Copy)]
pub struct Place {
    pub entry: usize,
    pub text: usize,
}

/// Lets the directories that are `from` to `to` deep end before entry `next`; `ends` is by their depth.
pub fn close(ends: &mut [u32], from: usize, to: usize, next: u32)
    requires { to < length ends.old }
    ensures closed { (j : ℕ) → from ≤ j → j ≤ to → slice_index ends.new j ≡ next }
    ensures kept { (j : ℕ) → j < from → slice_index ends.new j ≡ slice_index ends.old j }
{
    // Kept: a range of numbers, which may be empty: a part of `ends` may not start behind its end (N).
    for n in from..to + 1 {
        ends[n] = next;
    }
}

impl Place {
    // Writes the name of an entry before it, with its zero byte, and returns the place of that entry.
    fn write_name(self, bytes: &mut [u8], name: &[u8]) -> Place
        requires entry { 0 < self.entry }
        requires text { length name.now + 1 ≤ self.text }
        requires within { self.text ≤ length bytes.old }
        ensures entry { result.entry + 1 ≡ self.entry }
        ensures text { result.text + (length name.now + 1) ≡ self.text }
        ensures bytes { bytes.new ≡ put bytes.old result.text (name.now ++ (0 ∷ [])) }
    {
        let text = self.text - (name.len() + 1);
        endian::copy(name, 0, bytes, text, name.len());
        endian::write_u8(bytes, text + name.len(), 0);
        Place {
            entry: self.entry - 1,
            text,
        }
    }

    // Writes a file before it; the names start at `texts`.
    fn write_file(self, bytes: &mut [u8], texts: usize, name: &[u8], entry: FileEntry) -> Place
        requires { HasRoom bytes.old texts self.entry self.text 1 (length name.now + 1) }
        ensures entry { result.entry + 1 ≡ self.entry }
        ensures text { result.text + (length name.now + 1) ≡ self.text }
        ensures bytes { let x = file name.now entry.offset entry.size in
            bytes.new ≡ entry_put texts result.entry result.text x bytes.old }
    {
        let place = self.write_name(bytes, name);
        let record = Record {
            kind: Kind::File,
            name: (place.text - texts) as u32,
            place: entry.offset,
            next: entry.size,
        };
        record.write(bytes, place.entry);
        place
    }

    // Writes a directory before it that ends before entry `next`.
    fn write_directory(self, bytes: &mut [u8], texts: usize, name: &[u8], next: u32) -> Place
        requires { HasRoom bytes.old texts self.entry self.text 1 (length name.now + 1) }
        ensures entry { result.entry + 1 ≡ self.entry }
        ensures text { result.text + (length name.now + 1) ≡ self.text }
        ensures bytes { let x = directory name.now next in
            bytes.new ≡ entry_put texts result.entry result.text x bytes.old }
    {
        let place = self.write_name(bytes, name);
        let record = Record {
            kind: Kind::Directory,
            name: (place.text - texts) as u32,
            place: 0,
            next,
        };
        record.write(bytes, place.entry);
        place
    }

    /// Writes the entries of a path before it, the file first, but for the directories in its first
    /// `shared` bytes. A directory that is n deep ends before entry `ends[n]`.
    pub fn write_path(
        self,
        bytes: &mut [u8],
        texts: usize,
        path: &[u8],
        shared: usize,
        entry: FileEntry,
        ends: &[u32],
    ) -> Place
        requires shared { shared ≤ length path.now }
        requires ends { slashes path.now < length ends.now }
        requires room { let own = drop shared path.now in
            HasRoom bytes.old texts self.entry self.text (suc (slashes own)) (suc (length own)) }
        ensures entry { result.entry + suc (slashes (drop shared path.now)) ≡ self.entry }
        ensures text { result.text + suc (length path.now - shared) ≡ self.text }
        ensures bytes { let n = slashes (take shared path.now) in
            let names = names_of (drop shared path.now) in
            let xs = path_entries ends.now n names entry.offset entry.size in
            bytes.new ≡ entries_put texts result.entry result.text xs bytes.old }
    {
        let mut n = path::slashes(path);
        let mut start = path::part_start(path, b'/', shared, path.len());
        let mut place = self.write_file(bytes, texts, &path[start..], entry);
        // Kept: over places: each name is written at a place of its own, before the one behind it (N).
        while shared < start {
            let end = start - 1;
            start = path::part_start(path, b'/', shared, end);
            place = place.write_directory(bytes, texts, &path[start..end], ends[n]);
            n -= 1;
        }
        place
    }
}
