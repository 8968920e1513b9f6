// What is asked for.

use edit::Edit;
use record_text::Listed;

/// An edit of the library, or a fill, whose clip is read from its file.
#[derive(Clone, Copy, Debug, PartialEq, Eq)]
pub enum Request<'a> {
    Edit(Edit<'a>),
    Fill { file: u32 },
}

/// A request with all that goes with it besides the files and the memory.
#[derive(Clone, Copy)]
pub struct Order<'a> {
    pub request: Request<'a>,
    pub team: u32,
    /// Whether a record is kept in a file, and the teams that its text names.
    pub keeps_record: bool,
    pub teams: &'a [Listed<'a>],
    /// What whoever finishes the edit should know of it.
    pub note: &'a [u8],
    /// The number of the image's file.
    pub number: u64,
}
