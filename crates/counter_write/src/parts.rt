// The files of an edit, each with its length.
ghost use Rattle.std.specs.Prelude.{◌≡◌};

use std::fs::File;

#[derive(Drop)]
pub struct Image {
    pub file: File,
    pub len: usize,
}

/// One that is not there stands for one byte, closed.
#[derive(Drop)]
pub struct Journal {
    pub file: Option<File>,
    pub len: usize,
    pub path: String,
}

impl Journal {
    /// With what is there, if anything is.
    pub fn of(path: String, there: Option<(File, usize)>) -> Journal {
        match there {
            None => Journal {
                file: None,
                len: 1,
                path,
            },
            Some((file, len)) => Journal {
                file: Some(file),
                len,
                path,
            },
        }
    }
}

/// A part of a file, or none.
#[derive(Drop)]
pub struct Clip {
    pub file: Option<File>,
    pub start: u64,
    pub len: usize,
}

impl Clip {
    pub fn none() -> Clip
        ensures { result.len ≡ 0 }
    {
        Clip {
            file: None,
            start: 0,
            len: 0,
        }
    }
}
