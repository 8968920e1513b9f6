// The teams that edit one image by turns.
ghost use Rattle.std.specs.Prelude.{◌≡◌, ◌<◌, ◌≤◌, ◌^◌, length};
ghost use Rattle.totals.specs.Totals as totals_of;
ghost use Rattle.totals.specs.Inner.Moving.{taken_after, edits_after};

use crate::SpaceChange;
use refusal::Refusal;

/// How many teams a record has.
pub const TEAMS: usize = 16;

/// What a team may take of the free space of an image, and what it has taken. In C it is four
/// 32-bit words in a row.
#[repr(C)]
#[derive(Clone, Copy, PartialEq, Eq, Debug)]
pub struct Team {
    /// The most bytes that its edits may have taken.
    pub limit: u32,
    /// Of the free bytes, how many are kept for the team until it has taken them.
    pub share: u32,
    /// How many bytes its edits have taken.
    pub taken: u32,
    /// How many of its edits were accepted.
    pub edits: u32,
}

impl Team {
    // A team that has taken nothing.
    fn new(limit: u32, share: u32) -> Team
        ensures { result ≡ totals_of.new_team limit share }
    {
        Team {
            limit,
            share,
            taken: 0,
            edits: 0,
        }
    }

    // What the team has not yet taken of its share.
    pub(crate) fn remainder(self) -> u32
        ensures { result ≡ totals_of.remainder self }
    {
        self.share.saturating_sub(self.taken)
    }

    // What the team has taken after an edit of its own; below 0 it does not go. 27 above its limit,
    // then 28 where less is free than is kept for the others.
    pub(crate) fn taken_after(self, change: SpaceChange, kept: u64) -> Result<u32, Refusal>
        requires before_fits { change.before < 2 ^ 34 }
        requires after_fits { change.after < 2 ^ 34 }
        ensures { result ≡ taken_after self change kept }
    {
        let taken = u64::from(self.taken) + change.after;
        if taken > u64::from(self.limit) + change.before {
            return Err(Refusal::TakenAboveLimit);
        }
        if change.free < kept {
            return Err(Refusal::FreeBelowShares);
        }
        Ok(taken.saturating_sub(change.before) as u32)
    }

    // How many edits of the team are accepted with one more, or 25.
    pub(crate) fn edits_after(self) -> Result<u32, Refusal>
        ensures { result ≡ edits_after self }
    {
        self.edits.checked_add(1).ok_or(Refusal::TotalsOutOfRange)
    }
}

// What the teams have not yet taken of their shares, together.
#[tactic(auto, unfolding(crate::specs::Totals::remainders))]
fn remainders(teams: &[Team]) -> u64
    requires { length teams.now ≤ 16 }
    ensures sum { result ≡ totals_of.remainders teams.now }
    ensures bound { result ≤ 2 ^ 36 }
{
    let mut sum = 0;
    for team in teams {
        sum += u64::from(team.remainder());
    }
    sum
}

// What the teams but that one have not yet taken of their shares.
pub(crate) fn kept_for_others(teams: &[Team], team: usize) -> u64
    requires is_team { team < length teams.now }
    requires few { length teams.now ≤ 16 }
    ensures { result ≡ totals_of.remainders (totals_of.others teams.now team) }
{
    remainders(&teams[..team]) + remainders(&teams[team + 1..])
}

/// Teams of these limits and shares, in bytes, that have taken nothing.
#[tactic(auto, unfolding(crate::specs::Totals::new_teams))]
pub fn new_teams(limits: &[u32; TEAMS], shares: &[u32; TEAMS]) -> [Team; TEAMS]
    ensures { result ≡ totals_of.new_teams limits.now shares.now }
{
    let mut teams = [Team::new(0, 0); TEAMS];
    for k in 0..TEAMS {
        teams[k] = Team::new(limits[k], shares[k]);
    }
    teams
}

/// A team's number as an index, or 15 for one above 15.
#[tactic(auto, unfolding(crate::specs::Totals::team_verdict))]
pub fn team_number(team: u32) -> Result<usize, Refusal>
    ensures answer { result ≡ totals_of.numbered_team team }
{
    let number = team as usize;
    if number >= TEAMS {
        return Err(Refusal::NoSuchEntry);
    }
    Ok(number)
}
