// An edit of one image, drafted before anything is written.

use crate::plan::Copying;

/// Bytes for a place in the image.
#[derive(Clone, Copy, Debug, PartialEq, Eq)]
pub struct Bytes<'a> {
    pub at: usize,
    pub bytes: &'a [u8],
}

/// A place in the image.
#[derive(Clone, Copy, Debug, PartialEq, Eq)]
pub struct Span {
    pub at: usize,
    pub len: usize,
}

/// What an edit copies and writes, and the record that goes with it. Where there are no bytes,
/// nothing is done.
#[derive(Clone, Copy, Debug, PartialEq, Eq)]
pub struct Draft<'a> {
    /// The image's length, the number of its file, and its first 0x440 bytes.
    pub image_len: usize,
    pub number: u64,
    pub header: &'a [u8],
    /// Copied within the image, before anything is written.
    pub copy: Copying,
    /// Where the clip goes; its bytes are read from its file.
    pub clip: Span,
    pub table: Bytes<'a>,
    /// Zeroed behind the table.
    pub tail: Span,
    /// A word of the header.
    pub word: Bytes<'a>,
    /// Zeroed at the end.
    pub lost: Span,
    /// Whether a record goes with the edit, and its text.
    pub has_record: bool,
    pub record_text: &'a [u8],
    /// What whoever finishes the edit should know of it; no call here reads it.
    pub note: &'a [u8],
}
