// The totals record that goes into an edit and comes back: used bytes, the largest free region, and
// what each team may take and has taken.
#![tactic(auto)]

mod team;

ghost use Rattle.std.specs.Prelude.{◌≡◌, ◌<◌, ◌^◌, OnOk, OnErr};
ghost use Rattle.totals.specs.Totals.{totals_verdict, moved_totals};
ghost use Rattle.totals.specs.Inner.Moving.{used_after};

use refusal::{Refusal, Verdict};
pub use team::{TEAMS, Team, new_teams, team_number};

/// What an edit does to the used and the free bytes of an image.
// Kept: no derived equality, since nothing compares two (N).
#[derive(Clone, Copy)]
pub struct SpaceChange {
    /// The used bytes before the edit.
    pub before: u64,
    /// The used bytes after it. Only the difference from those before counts.
    pub after: u64,
    /// All free bytes after it.
    pub free: u64,
    /// The bytes of the largest free region after it; 0 if there is none.
    pub largest: u32,
}

impl SpaceChange {
    // What is used after it where `used` bytes were, or 25.
    fn used_after(self, used: u32) -> Result<u32, Refusal>
        requires before_fits { self.before < 2 ^ 34 }
        requires after_fits { self.after < 2 ^ 34 }
        ensures { result ≡ used_after used self }
    {
        let sum = u64::from(used) + self.after;
        let used = sum
            .checked_sub(self.before)
            .ok_or(Refusal::TotalsOutOfRange)?;
        u32::try_from(used).or(Err(Refusal::TotalsOutOfRange))
    }
}

/// The totals record, which goes into an edit and comes back; in C it is lent as 66 32-bit words
/// in a row.
#[repr(C)]
#[derive(Clone, Copy, PartialEq, Eq, Debug)]
pub struct Totals {
    /// Bytes that are used.
    pub used: u32,
    /// Bytes of the largest free region; 0 if there is none.
    pub largest: u32,
    /// The teams by their numbers.
    pub teams: [Team; TEAMS],
}

impl Totals {
    /// Moves the record on by an edit of that team. Refused with 27, 28 or 25, the record stays.
    #[tactic(auto, unfolding(crate::specs::Totals::totals_verdict, crate::specs::Totals::moved_totals))]
    pub fn move_on(&mut self, team: usize, change: SpaceChange) -> Verdict
        requires is_team { team < 16 }
        requires before_fits { change.before < 2 ^ 34 }
        requires after_fits { change.after < 2 ^ 34 }
        ensures answer { result ≡ totals_verdict self.old team change }
        ensures accepted { OnOk result (self.new ≡ moved_totals self.old team change) }
        ensures refused { OnErr result (self.new ≡ self.old) }
    {
        let charged = self.teams[team];
        let kept = team::kept_for_others(&self.teams, team);
        let taken = charged.taken_after(change, kept)?;
        let used = change.used_after(self.used)?;
        let edits = charged.edits_after()?;
        self.used = used;
        self.largest = change.largest;
        self.teams[team] = Team {
            taken,
            edits,
            ..charged
        };
        Ok(())
    }
}
