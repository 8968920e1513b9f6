// An edit through the journal.
ghost use Rattle.std.specs.Prelude.{◌≡◌, ◌≤◌, ◌<◌, true, false, length, take};
ghost use Rattle.std.specs.Prelude.{Ok, Err, OnOk, IfOk, IfErr};
ghost use Rattle.journal.specs.Disk.{Known, LeavesOnly, HasCause};
ghost use Rattle.journal.specs.Journal.{kept_of, IsSettled, IsBefore, IsBeforeOrAfter, Tells};
ghost use Rattle.journal.specs.Draft.{DraftFits, kept_after};
ghost use Rattle.journal.specs.declared.recovery.Found.TheVariants.{Finished};

use crate::draft::Draft;
use crate::files::{Fault, Files};
use crate::noting::note;
use crate::recovery::{Found, commit};

/// An edit that a fault stopped. Where it was not begun, image and record are as they were; else
/// recovery finishes it, or leaves all as it was.
#[derive(Debug, Drop)]
pub struct Stopped {
    pub begun: bool,
    pub fault: Fault,
}

// A fault, and whether the edit was begun.
fn as_stopped<T>(done: Result<T, Fault>, begun: bool) -> Result<T, Stopped>
    ensures ok { IfOk result (λ value. done ≡ Ok value) }
    ensures err { IfErr result
        (λ stopped. (stopped.begun ≡ begun) × (done ≡ Err stopped.fault)) }
{
    done.map_err(|fault| Stopped { begun, fault })
}

/// Makes the edit. At `Ok` it is on the disk, with its record, and the journal is closed. A crash
/// at any moment, and any `Err`, leaves files of which `resume` makes image and record as they
/// were, or as they are after the edit: every byte; where recovery has something to finish, the
/// note is in the journal. `desk` is bytes that are lent for pieces.
pub fn edit<F: Files>(files: &mut F, draft: &Draft<'_>, desk: &mut [u8]) -> Result<Found, Stopped>
    requires room { 4096 ≤ length desk.old }
    requires some { 0 < length (F.state files.old).seen.journal }
    requires fits { DraftFits draft.now (length (F.state files.old).seen.image)
        (length (F.state files.old).clip) }
    requires settled { Known F.known (IsSettled (F.state files.old)) }
    requires owner { Known F.known
        (draft.now.header.now ≡ take 0x440 (F.state files.old).seen.image) }
    ensures found { IfOk result (λ found. Known F.known (found ≡ Finished)) }
    ensures done { OnOk result (Known F.known (kept_of (F.state files.new).seen
        ≡ kept_after draft.now (F.state files.old).clip (kept_of (F.state files.old).seen))) }
    ensures settled { OnOk result (Known F.known (IsSettled (F.state files.new))) }
    ensures some { OnOk result (0 < length (F.state files.new).seen.journal) }
    ensures any_moment { Known F.known (LeavesOnly (F.state files.old) (F.state files.new)
        (IsBeforeOrAfter draft.now.number (kept_of (F.state files.old).seen)
        (kept_after draft.now (F.state files.old).clip (kept_of (F.state files.old).seen)))) }
    ensures tells { Known F.known (LeavesOnly (F.state files.old) (F.state files.new)
        (Tells draft.now.note.now)) }
    ensures not_begun { IfErr result (λ stopped. stopped.begun ≡ false →
        Known F.known (LeavesOnly (F.state files.old) (F.state files.new)
        (IsBefore draft.now.number (kept_of (F.state files.old).seen)))) }
    ensures cause { HasCause F.known (F.state files.old) (F.state files.new) result }
{
    as_stopped(note(files, draft, desk), false)?;
    as_stopped(commit(files, draft.number, desk), true)
}
