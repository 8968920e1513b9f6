// What the calls on a file table answer with. The table itself, as a list of entries, is in specs/.
#![tactic(auto)]

use refusal::Refusal;

/// A table with more entries than this is refused, with 9.
pub const ENTRIES_LIMIT: usize = 16384;

/// A table with more bytes of texts than this is refused, with 9.
pub const TEXTS_LIMIT: usize = 1048576;

/// A directory that is nested deeper than this is refused, with 9; the root is 0 deep.
pub const DEPTH_LIMIT: usize = 64;

/// A path of more bytes than this is refused, with 9.
pub const PATH_LIMIT: usize = 1024;

/// A file: where its bytes start on the disc, and how many they are.
#[derive(Clone, Copy, PartialEq, Eq, Debug)]
pub struct FileEntry {
    pub offset: u32,
    pub size: u32,
}

/// A directory: the one that it is nested in, and the number of the entry after its last one.
#[derive(Clone, Copy, PartialEq, Eq, Debug)]
pub struct DirectoryEntry {
    pub parent: u32,
    pub next: u32,
}

/// What an entry of a table is.
#[derive(Clone, Copy, PartialEq, Eq, Debug)]
pub enum Entry {
    File(FileEntry),
    Directory(DirectoryEntry),
}

/// The answer of a call that looks for an entry: its number and the entry.
// Kept: one enum with the entry in it, and not a `Result` of a pair (RULES, Forms).
#[derive(Clone, Copy, PartialEq, Eq, Debug)]
pub enum Found {
    At(u32, Entry),
    Refused(Refusal),
}
