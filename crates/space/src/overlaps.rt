// Cause 14: the used regions in lent words sorted where they stand, and judged.
ghost use Rattle.std.specs.Prelude.{◌≡◌, ◌+◌, ◌*◌, ◌≤◌, length};
ghost use Rattle.space.specs.Inner.Sort.{regions_in};
ghost use Rattle.space.specs.Inner.Words as words_of;
ghost use Rattle.space.specs.Inner.Words.{AllNonempty, IsChecked};

use crate::region_list::Regions;
use crate::sort;
use refusal::{Refusal, Verdict};

// Whether each region starts where the one before it ends or later, and the last ends by the disc's end.
fn is_in_sequence(regions: Regions<'_>, disc_end: u32) -> bool
    ensures { result ≡ words_of.is_in_sequence 0 disc_end regions.entry }
{
    let mut end = 0;
    for region in regions {
        if u64::from(region.offset) < end {
            return false;
        }
        end = region.end();
    }
    end <= u64::from(disc_end)
}

/// Sorts the regions, none of them empty, with as many pairs from buf on to work in, and refuses 14 if two
/// share a byte or one passes the disc end.
// Kept: the regions come from `add_region`, which passes the empty ones over: the fact is about the words as
// they come, and no type holds them before the sort.
pub fn check(words: &mut [u32], buf: usize, count: usize, disc_end: u32) -> Verdict
    requires beside { count ≤ buf }
    requires room { 2 * (buf + count) ≤ length words.old }
    requires nonempty { AllNonempty (regions_in words.old 0 count) }
    ensures { IsChecked words.old words.new buf count disc_end result }
{
    sort::sort(words, buf, count);
    if is_in_sequence(Regions::new(words, count), disc_end) {
        Ok(())
    } else {
        Err(Refusal::OverlappingRegions)
    }
}
