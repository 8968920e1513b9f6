// What a journal says: a copy within the image, and steps.

/// Bytes that are copied within the image, before anything else is written.
#[derive(Clone, Copy, Debug, PartialEq, Eq)]
pub struct Copying {
    pub from: usize,
    pub to: usize,
    pub len: usize,
}

/// `len` bytes that are written at `at`: those from `from` on in the journal, or zeros where that is 0.
#[derive(Clone, Copy, Debug, PartialEq, Eq)]
pub struct Step {
    pub at: usize,
    pub len: usize,
    pub from: usize,
}
