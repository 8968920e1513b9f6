// What a line asks for, with its bytes kept.
ghost use Rattle.std.specs.Prelude.{◌≡◌, ℕ, List, []};
ghost use Rattle.journaled.specs.Edited.{edit_asked};
ghost use Rattle.journaled.specs.Inner.Clip.{ClipIs};
ghost use Rattle.conversation.specs.Lines.{edit_wanted};

use edit::{Edit, Kind, NewEntry};
use journaled::Request;
use record_text::Listed;
use totals::Totals;

/// A request.
#[derive(Debug, Drop)]
pub enum Asked {
    /// The front's part of the note of the next edits.
    Note(Vec<u8>),
    /// The path of the record that goes with the next edits, if one does. No team is named from here on.
    Record(Option<String>),
    /// One more team that the record's text names.
    Listed(Named),
    /// The record's numbers.
    Totals(Totals),
    /// Where the clip of the next fill lies: a part of the file of that path.
    Clip { start: u64, len: u64, path: String },
    /// An edit of that team.
    Edit { team: u32, what: What },
    /// Another maximum of the file table.
    Maximum(u32),
    /// What was decided is to be made.
    Go,
    /// What was decided is not to be made.
    Stop,
}

/// A team that the record's text names: its number, and its name.
#[derive(Debug, Drop)]
pub struct Named {
    pub number: u32,
    pub name: Vec<u8>,
}

impl Named {
    /// The same, with the name lent.
    pub fn listed(&self) -> Listed<'_>
        ensures number { result.number ≡ self.now.number }
        ensures name { result.name.now ≡ self.now.name.items }
    {
        Listed {
            number: self.number,
            name: self.name.as_slice(),
        }
    }
}

/// What an edit does.
#[derive(Debug, Drop)]
pub enum What {
    Rewrite,
    Move {
        file: u32,
        offset: u32,
    },
    Resize {
        file: u32,
        size: u32,
    },
    /// Afterwards the file is the clip.
    Fill {
        file: u32,
    },
    Insert {
        kind: Kind,
        parent: u32,
        name: Vec<u8>,
    },
    /// Each directory of the path that is missing, from the root on.
    MakeDirectories {
        path: Vec<u8>,
    },
}

impl What {
    /// The request for the library, with name or path lent.
    pub fn request(&self) -> Request<'_>
        ensures edit { (clip : List ℕ) → edit_asked result clip ≡ edit_wanted self.now clip }
        ensures no_clip { ClipIs result [] }
    {
        match self {
            What::Fill { file } => Request::Fill { file: *file },
            What::Rewrite => Request::Edit(Edit::Rewrite),
            What::Move { file, offset } => Request::Edit(Edit::Move {
                file: *file,
                offset: *offset,
            }),
            What::Resize { file, size } => Request::Edit(Edit::Resize {
                file: *file,
                size: *size,
            }),
            What::Insert { kind, parent, name } => Request::Edit(Edit::Insert(NewEntry {
                kind: *kind,
                parent: *parent,
                name: name.as_slice(),
            })),
            What::MakeDirectories { path } => Request::Edit(Edit::MakeDirectories {
                start: 0,
                path: path.as_slice(),
            }),
        }
    }
}
