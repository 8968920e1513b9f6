// The totals record after what an edit decides on: its tests, which come last, and the record moved on.
ghost use Rattle.std.specs.Prelude.{◌≡◌, Ok, ◌+◌, ◌<◌, ◌≤◌, ◌^◌};
ghost use Rattle.edit_rules.specs.Edits as edits;
ghost use Rattle.edit.specs.Inner.Accounting.{OnDisc, OfUsed, change_as, change_for};
ghost use Rattle.edit.specs.Inner.Accounting.{account_with, account_of};

use crate::decision::{Decision, Writing};
use opened::OpenDisc;
use refusal::Refusal;
use space::{DiscRegion, UsedRegions};
use totals::{SpaceChange, Totals};

// What an edit whose new table has `size` bytes, and whose file goes from `old` to `new`, does to used and free
// bytes: the used ones move by what the table and the file gain and lose, and the largest free region comes
// from the used regions in the words.
fn space_change(disc: &OpenDisc<'_>, size: usize, old: DiscRegion, new: DiscRegion) -> SpaceChange
    requires { disc.now.disc.start + size ≤ disc.now.disc.end }
    ensures change { OfUsed disc.now (λ image behind.
        result ≡ change_as image behind size old new) }
    ensures before_fits { result.before < 2 ^ 34 }
    ensures after_fits { result.after < 2 ^ 34 }
{
    let disc_end = disc.end();
    let size = size as u32;
    let table_end = disc.start() + size;
    let used = UsedRegions::new(disc.words, disc.used, disc_end);
    let before = u64::from(disc.table_size()) + u64::from(old.size);
    let after = u64::from(size) + u64::from(new.size);
    let used_after = u64::from(disc.used_size()) + after;
    SpaceChange {
        before,
        after,
        free: (u64::from(disc_end) + before).saturating_sub(used_after),
        largest: space::largest_after(&used, disc_end, table_end, old, new),
    }
}

// What an edit that decides on this does to used and free bytes; where the table stays and no file moves they
// are as they were.
fn change_of(disc: &OpenDisc<'_>, decision: Decision) -> SpaceChange
    requires { OnDisc disc.now.disc (Ok decision) }
    ensures change { OfUsed disc.now (λ image behind. result ≡ change_for image behind decision) }
    ensures before_fits { result.before < 2 ^ 34 }
    ensures after_fits { result.after < 2 ^ 34 }
{
    match decision {
        Decision::Nothing | Decision::Clip { .. } => {
            // An open disc has room for its own table.
            let _ = &disc.table;
            let Writing { old, place, .. } = Writing::NOTHING;
            space_change(disc, disc.table_size() as usize, old, place)
        }
        Decision::Write { size, writing, .. } => {
            space_change(disc, size, writing.old, writing.place)
        }
    }
}

/// What is decided on, once the record is tested too: 27, 28 and 25 come last. A refused edit leaves the record
/// as it is.
pub fn account(
    disc: &OpenDisc<'_>,
    decided: Result<Decision, Refusal>,
    totals: &mut Totals,
    team: usize,
) -> Result<Decision, Refusal>
    requires on_disc { OnDisc disc.now.disc decided }
    requires is_team { team < 16 }
    ensures { let account = edits.account totals.old team in
        OfUsed disc.now (λ image behind.
        account_with result totals.new ≡ account_of image behind decided account) }
{
    // Its used regions are known of an edit that is refused, too.
    let _ = &disc.words;
    let decision = decided?;
    totals.move_on(team, change_of(disc, decision))?;
    Ok(decision)
}
