// What was said so far, and goes with the next edits.
ghost use Rattle.std.specs.Prelude.{◌<◌, ◌^◌, length, IfOk};

use conversation::Named;
use record_text::Listed;
use std::alloc::{AllocError, Global};
use std::io::{self, ErrorKind};
use totals::{TEAMS, Totals, new_teams};

/// No note is longer.
pub const MOST_NOTE: usize = 1 << 20;

#[derive(Drop)]
pub struct Session {
    /// The number of the image's file.
    pub number: u64,
    pub note: Vec<u8>,
    /// The path of the record; no bytes where none is kept.
    pub record: Vec<u8>,
    pub named: Vec<Named>,
    pub totals: Totals,
}

impl Session {
    pub fn new(alloc: Global, number: u64) -> Session {
        Session {
            number,
            note: Vec::new(alloc),
            record: Vec::new(alloc),
            named: Vec::new(alloc),
            totals: Totals {
                used: 0,
                largest: 0,
                teams: new_teams(&[0; TEAMS], &[0; TEAMS]),
            },
        }
    }

    /// The note of an edit: how long the record's path is, the path, and the front's own part.
    pub fn whole_note(&self, alloc: Global) -> io::Result<Vec<u8>>
        ensures { IfOk result (λ note. length note.items < 2 ^ 32) }
    {
        if self.record.len().saturating_add(self.note.len()) > MOST_NOTE - 4 {
            return Err(ErrorKind::InvalidInput.into());
        }
        let mut note = Vec::new(alloc);
        note.extend_from_slice(&(self.record.len() as u32).to_be_bytes())?;
        note.extend_from_slice(&self.record)?;
        note.extend_from_slice(&self.note)?;
        Ok(note)
    }

    pub fn teams(&self, alloc: Global) -> Result<Vec<Listed<'_>>, AllocError> {
        self.named.iter().map(|named| named.listed()).collect(alloc)
    }
}
