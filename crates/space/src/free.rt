// The free regions of a disc as an iterator over the used ones. Contracts see the list of those that are
// left.
ghost use Rattle.std.specs.Prelude.{◌≡◌, true, if◌then◌else◌, nat_lt};
ghost use Rattle.std.specs.Iterator.{YieldsFirst, item_count};
ghost use Rattle.space.specs.Free.{free_regions};
ghost use Rattle.space.specs.Inner.Words.{AllNonempty, is_in_sequence};
ghost use Rattle.space.specs.Inner.Before.{IsPassedBefore};

use crate::region::DiscRegion;
use crate::region_list::Regions;
use std::marker::Model;

/// The free regions, rising: the longest runs of bytes below the disc's end that no used region has.
// The used regions that are still to come, and where the one before them ends: what the next turn needs.
// Kept: no derived equality: contracts see the free regions alone, so it would need an `inverse` from those
// to the fields, and there is none.
#[derive(Drop)]
pub struct FreeRegions<'a> {
    used: Regions<'a>,
    disc_end: u32,
    at: u32,
}

impl<'a> Model for FreeRegions<'a> {
    ghost use Rattle.std.specs.Prelude.{◌≡◌, true, List};
    ghost use Rattle.space.specs.declared.region.DiscRegion.{DiscRegion};
    ghost use Rattle.space.specs.Used.{nonempty_regions};
    ghost use Rattle.space.specs.Inner.Words.{is_in_sequence, gaps};

    ghost Value = { List DiscRegion };

    ghost view = { λ f. nonempty_regions (gaps f.at f.disc_end f.used) };

    ghost invariant = { λ f. is_in_sequence f.at f.disc_end f.used ≡ true };
}

// Where the free bytes from `at` up to `offset` end; `last` if there are none.
fn end_before(at: u32, offset: u32, last: u32) -> u32
    ensures { result ≡ if nat_lt at offset then offset else last }
{
    if at < offset { offset } else { last }
}

impl<'a> FreeRegions<'a> {
    // What used regions in order leave free below the disc's end.
    // Kept: both facts are what `UsedRegions` carries, and its `free_regions` is the one caller.
    pub(crate) fn new(used: Regions<'a>, disc_end: u32) -> Self
        requires nonempty { AllNonempty used }
        requires in_order { is_in_sequence 0 disc_end used ≡ true }
        ensures { result ≡ free_regions disc_end used.entry }
    {
        FreeRegions {
            used,
            disc_end,
            at: 0,
        }
    }

    // Passes the free regions that start before `offset`, and gives the end of the last of them, 0 if there
    // is none. What lies behind the last used region is left.
    // Kept: beside `next` (S), which asks of each used region whether a free one lies before it: no processor
    // foresees that.
    pub(crate) fn pass_before(&mut self, offset: u32) -> u32
        ensures { IsPassedBefore offset self.old self.new result }
    {
        let stop = offset.min(self.disc_end);
        let mut last = 0;
        while self.at < stop {
            let Some(region) = self.used.next() else {
                return last;
            };
            last = end_before(self.at, region.offset, last);
            self.at = region.offset + region.size;
        }
        last
    }
}

impl<'a> Iterator for FreeRegions<'a> {
    type Item = DiscRegion;

    ghost next_gives = { YieldsFirst (λ rest. rest) };

    ghost remaining = { item_count (λ rest. rest) };

    fn next(&mut self) -> Option<DiscRegion> {
        let disc_end = self.disc_end;
        while let Some(region) = self.used.next() {
            let start = self.at;
            self.at = region.offset + region.size;
            if start < region.offset {
                return Some(DiscRegion {
                    offset: start,
                    size: region.offset - start,
                });
            }
        }
        let start = self.at;
        self.at = disc_end;
        if start < disc_end {
            return Some(DiscRegion {
                offset: start,
                size: disc_end - start,
            });
        }
        None
    }
}
