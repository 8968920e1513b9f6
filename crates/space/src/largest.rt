// The largest free region that an edit leaves.
ghost use Rattle.std.specs.Prelude.{◌≡◌, ◌<◌, ◌^◌, drop, max};
ghost use Rattle.space.specs.Inner.Scan as scan_of;
ghost use Rattle.space.specs.Inner.Scan.{longest_from};

use crate::region::DiscRegion;
use crate::used::UsedRegions;

// The longest run of the bytes from a up to b that has none of the region's bytes.
#[tactic(auto, unfolding(crate::specs::Inner::Scan::longest_beside))]
fn longest_beside(a: u64, b: u32, region: DiscRegion) -> u32
    ensures { result ≡ scan_of.longest_beside a b region }
{
    let b = u64::from(b);
    let start = u64::from(region.offset);
    // Kept: the size is asked, and no `Option` (N): an empty file has a place too, with no bytes to cut out.
    if region.size == 0 || region.end() <= a || b <= start {
        return b.saturating_sub(a) as u32;
    }
    start.saturating_sub(a).max(b.saturating_sub(region.end())) as u32
}

// The longer of `best` and that run. Most gaps are no longer than the best so far, and need no closer look.
#[tactic(auto, unfolding(crate::specs::Inner::Scan::longest_beside))]
fn longer(best: u32, a: u64, b: u32, region: DiscRegion) -> u32
    requires { a < 2 ^ 34 }
    ensures { result ≡ max best (scan_of.longest_beside a b region) }
{
    if u64::from(b) <= a + u64::from(best) {
        return best;
    }
    best.max(longest_beside(a, b, region))
}

// Where the old place starts; 0, where no file can, if there is none.
// Kept: a number (N): as no file lies at 0, `gone != Some(region.offset)` says no more than `gone !=
// region.offset`.
fn gone_of(old: DiscRegion) -> u32
    ensures { result ≡ scan_of.gone_of old }
{
    if old.size == 0 { 0 } else { old.offset }
}

/// The size in bytes of the largest free region after an edit, by the used regions before it, of which the
/// table is the first: the table then ends at `table_end`, and the edited file, if there is one, lies no
/// longer at `old` but at `new`.
pub fn largest_after(
    used: &UsedRegions<'_>,
    disc_end: u32,
    table_end: u32,
    old: DiscRegion,
    new: DiscRegion,
) -> u32
    ensures { let behind_table = drop 1 used.now.regions in
        result ≡ longest_from disc_end (scan_of.gone_of old) new table_end 0 behind_table }
{
    let gone = gone_of(old);
    let mut at = u64::from(table_end);
    let mut best = 0;
    let mut behind_table = used.iter();
    behind_table.next();
    for region in behind_table {
        if region.offset != gone {
            best = longer(best, at, region.offset, new);
            at = region.end();
        }
    }
    longer(best, at, disc_end, new)
}
