// The edits of a file's place or size, which three calls can make too.
ghost use Rattle.std.specs.Prelude.{◌≡◌, []};
ghost use Rattle.edit.specs.Inner.Decides.{clip_of};
ghost use Rattle.ledger.specs.Runs.{IsPassable};
ghost use Rattle.edit.specs.Asked.{edit_of, place_edit_of, IsPlaceEdit};

use crate::pipeline::Edit;

/// An edit of a file's place or size. Files go by their entry numbers; offsets and sizes are in bytes.
#[derive(Clone, Copy, Debug, PartialEq, Eq)]
pub enum PlaceEdit {
    /// The file goes to another offset.
    Move { file: u32, offset: u32 },
    /// The file gets another size, and another place where it cannot grow where it is.
    Resize { file: u32, size: u32 },
}

impl PlaceEdit {
    /// The same edit, as one call makes it.
    pub fn whole(self) -> Edit<'static>
        ensures same { edit_of result ≡ place_edit_of self }
        ensures place_edit { IsPlaceEdit (place_edit_of self) }
        ensures no_clip { clip_of result ≡ [] }
    {
        match self {
            PlaceEdit::Move { file, offset } => Edit::Move { file, offset },
            PlaceEdit::Resize { file, size } => Edit::Resize { file, size },
        }
    }

    // Its numbers have 32 bits: known whatever becomes of it.
    pub(crate) fn passable(self)
        ensures passable { IsPassable (place_edit_of self) }
        ensures place_edit { IsPlaceEdit (place_edit_of self) }
    {
        let _ = self;
    }
}
