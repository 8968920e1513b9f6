// The used regions of a disc as a value: what stands in lent words after a test. Contracts see the list and
// the disc's end.
ghost use Rattle.std.specs.Prelude.{◌≡◌, ◌<◌, length};
ghost use Rattle.space.specs.Used.{total_size, no_region};
ghost use Rattle.space.specs.Inner.Words.{IsSortedDisjoint};
ghost use Rattle.space.specs.Inner.Found.{rest_or_none};
ghost use Rattle.space.specs.Inner.UsedSpace.{used_space_in, free_space_in};
ghost use Rattle.space.specs.MaxRegionSize.{max_region_size};
ghost use Rattle.space.specs.Allocate.{largest_rest, allocation_of};
ghost use Rattle.space.specs.Listing.{listing_of, list_after};

use crate::free::FreeRegions;
use crate::region::DiscRegion;
use crate::region_list::Regions;
use crate::rows::Row;
use crate::{allocation, growth};
use refusal::Refusal;
use std::marker::Model;

/// The used regions of a disc, in order, none empty and none over another, and where the disc ends.
// Kept: no derived equality: contracts see the regions alone, and not the words behind the last, so it would
// need an `inverse` from those to the fields, and there is none.
#[derive(Drop)]
pub struct UsedRegions<'a> {
    words: &'a [u32],
    count: usize,
    disc_end: u32,
}

impl<'a> Model for UsedRegions<'a> {
    ghost use Rattle.space.specs.Inner.UsedSpace.{UsedSpace, InWords, used_space_in};

    ghost Value = { UsedSpace };

    ghost view = { λ u. used_space_in u.words.now u.count u.disc_end };

    ghost invariant = { λ u. InWords u.words.now u.count u.disc_end };
}

impl<'a> UsedRegions<'a> {
    /// The first `count` regions in the words, below a disc's end.
    pub fn new(words: &'a [u32], count: usize, disc_end: u32) -> Self
        requires { IsSortedDisjoint words.now count disc_end }
        ensures { result ≡ used_space_in words.now count disc_end }
    {
        UsedRegions {
            words,
            count,
            disc_end,
        }
    }

    /// The used regions, rising.
    pub fn iter(&self) -> Regions<'a>
        ensures { result ≡ self.now.regions }
    {
        Regions::new(self.words, self.count)
    }

    // A function learns what the type keeps where it uses a field: `let _ = &self.words;` does in those that
    // call methods alone.

    /// How many bytes are used.
    pub fn used_size(&self) -> u32
        ensures { result ≡ total_size self.now.regions }
    {
        let _ = &self.words;
        let mut used = 0;
        for region in self.iter() {
            used += region.size;
        }
        used
    }

    /// The free regions, rising.
    pub fn free_regions(&self) -> FreeRegions<'a>
        ensures { result ≡ free_space_in self.now }
    {
        FreeRegions::new(self.iter(), self.disc_end)
    }

    /// How many free regions there are.
    pub fn count_free(&self) -> usize
        ensures { result ≡ length (free_space_in self.now) }
    {
        let _ = &self.words;
        self.free_regions().count()
    }

    /// What unplug answers for a region; for a file's own place, the largest size in bytes that it can grow
    /// to.
    pub fn max_region_size(&self, offset: u32, size: u32) -> u32
        ensures { result ≡ max_region_size offset size (free_space_in self.now) }
    {
        let _ = &self.words;
        let mut free = self.free_regions();
        let mut prev_end = u64::from(free.pass_before(offset));
        for region in free {
            if offset <= region.offset {
                return growth::size_beside_free(prev_end, region, offset, size);
            }
            prev_end = region.end();
        }
        growth::size_inside_free(prev_end, offset, size, size)
    }

    // The largest region for `size` bytes at a multiple of `align`, the last among equals.
    fn find_largest(&self, size: u32, align: u32) -> Option<DiscRegion>
        requires { 0 < align }
        ensures { result
            ≡ rest_or_none (largest_rest align size no_region (free_space_in self.now)) }
    {
        let _ = &self.words;
        let mut best = None;
        for region in self.free_regions() {
            best = allocation::better(best, region, size, align);
        }
        best
    }

    /// Finds the largest free region for `size` bytes at a multiple of `align`. Refuses 22 if that is no
    /// power of two, 21 if there is none.
    pub fn allocate(&self, size: u32, align: u32) -> Result<DiscRegion, Refusal>
        ensures { result ≡ allocation_of align size (free_space_in self.now) }
    {
        if !align.is_power_of_two() {
            return Err(Refusal::InvalidAlignment);
        }
        self.find_largest(size, align)
            .ok_or(Refusal::NotEnoughSpace)
    }

    /// Writes a row for each free region to the front of the list, rising, and returns how many there are.
    /// Refuses 9, with nothing written, if the list is short.
    pub fn list_free<const N: usize, R: Row<N>>(&self, list: &mut [u32]) -> Result<usize, Refusal>
        ensures answer { result ≡ listing_of R.words_of (free_space_in self.now) (length list.old) }
        ensures list_after { list.new ≡ list_after R.words_of (free_space_in self.now) list.old }
    {
        let found = self.count_free();
        if list.len() / N < found {
            return Err(Refusal::LimitOrMemory);
        }
        // Kept: tried without `at`, by `zip(list.chunks_mut(N))`: what the list holds once the chunks are
        // given back is not known, its length alone, so what the call leaves there stays open.
        let mut at = 0;
        for region in self.free_regions() {
            R::put(region, &mut list[at..at + N]);
            at += N;
        }
        Ok(found)
    }
}
