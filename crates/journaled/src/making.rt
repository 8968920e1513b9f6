// What is drafted, shown to whoever watches, and made through the journal.
ghost use Rattle.std.specs.Prelude.{◌≡◌, ◌≤◌, ◌<◌, Bool, true, false, length, take, OnOk, IfOk, IfErr};
ghost use Rattle.journal.specs.Disk.{Known, LeavesOnly, HasCause};
ghost use Rattle.journal.specs.Draft.{DraftFits, kept_after};
ghost use Rattle.journal.specs.Journal.{kept_of, IsSettled, IsBefore, IsBeforeOrAfter};
ghost use Rattle.journal.specs.declared.files.On.TheVariants.{Journal};
ghost use Rattle.journaled.specs.Edited.{IsAgreed};
ghost use Rattle.journaled.specs.Inner.Drafted.{IsMade};

use crate::drafting::is_idle;
use journal::{Draft, Fault, Files, Found, On, Stopped};
use refusal::Refusal;
use std::io;
use totals::Totals;

/// What became of an edit.
#[derive(Clone, Copy, Debug, PartialEq, Eq)]
pub enum Answer {
    /// It is on the disk; the number of its entry, 0 where there is none.
    Done(u32),
    /// It is refused, and nothing was touched.
    Refused(Refusal),
    /// Whoever watches did not want it, and nothing was touched.
    Declined,
    /// The file table is longer than the memory that was lent for it.
    Unread,
    /// The record's text is longer than a journal holds.
    Unkept,
}

/// What is decided on, before anything is written.
#[derive(Clone, Copy)]
pub struct Decided<'a> {
    /// The number of the entry, 0 where there is none.
    pub number: u32,
    pub draft: Draft<'a>,
    /// The table's size before.
    pub old_size: u32,
    /// The record as it comes back, where one goes in.
    pub totals: Option<&'a Totals>,
}

/// Whoever is asked before anything is written.
pub trait Watch {
    /// What it answered last.
    ghost agreed: { Self → Bool };

    /// Whether the edit is to be made.
    fn agrees(&mut self, decided: &Decided<'_>) -> bool
        ensures { result ≡ agreed self.new };
}

/// A fault before anything is written.
pub fn before_it_began(fault: Fault) -> Stopped
    ensures begun { result.begun ≡ false }
    ensures fault { result.fault ≡ fault }
{
    Stopped {
        begun: false,
        fault,
    }
}

// The journal that was written is not read as this image's: the files are not as they were told to be.
fn journal_lost() -> Stopped
    ensures begun { result.begun ≡ true }
    ensures on { result.fault.on ≡ Journal }
{
    Stopped {
        begun: true,
        fault: Fault {
            on: On::Journal,
            why: io::Error::from(io::ErrorKind::InvalidData),
        },
    }
}

/// Makes what is drafted, once whoever watches agrees.
pub fn make<F: Files, W: Watch>(
    files: &mut F,
    watch: &mut W,
    decided: &Decided<'_>,
    desk: &mut [u8],
) -> Result<Answer, Stopped>
    requires room { 4096 ≤ length desk.old }
    requires some { 0 < length (F.state files.old).seen.journal }
    requires fits { DraftFits decided.now.draft (length (F.state files.old).seen.image)
        (length (F.state files.old).clip) }
    requires settled { Known F.known (IsSettled (F.state files.old)) }
    requires owner { Known F.known (decided.now.draft.header.now ≡ take 0x440 (F.state files.old).seen.image) }
    ensures made { IfOk result (λ answer. Known F.known (IsMade decided.now.draft decided.now.number
        (F.state files.old).clip (F.state files.old).seen (F.state files.new).seen answer)) }
    ensures agreed { IfOk result (IsAgreed (W.agreed watch.new)) }
    ensures begun { IfErr result (λ stopped. stopped.begun ≡ true → W.agreed watch.new ≡ true) }
    ensures settled { OnOk result (Known F.known (IsSettled (F.state files.new))) }
    ensures some { OnOk result (0 < length (F.state files.new).seen.journal) }
    ensures any_moment { let kept = kept_of (F.state files.old).seen in
        Known F.known (LeavesOnly (F.state files.old) (F.state files.new)
        (IsBeforeOrAfter decided.now.draft.number kept (kept_after decided.now.draft (F.state files.old).clip kept))) }
    ensures not_begun { IfErr result (λ stopped. stopped.begun ≡ false →
        Known F.known (LeavesOnly (F.state files.old) (F.state files.new)
        (IsBefore decided.now.draft.number (kept_of (F.state files.old).seen)))) }
    ensures cause { HasCause F.known (F.state files.old) (F.state files.new) result }
{
    if !watch.agrees(decided) {
        return Ok(Answer::Declined);
    }
    if is_idle(&decided.draft) {
        return Ok(Answer::Done(decided.number));
    }
    match journal::edit(files, &decided.draft, desk)? {
        Found::Finished => Ok(Answer::Done(decided.number)),
        Found::Nothing | Found::Another => Err(journal_lost()),
    }
}
