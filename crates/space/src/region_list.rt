// The regions that stand in words as an iterator. Contracts see the list of those that are left.
ghost use Rattle.std.specs.Prelude.{◌≡◌, ◌*◌, ◌≤◌, length};
ghost use Rattle.std.specs.Iterator.{YieldsFirst, item_count};
ghost use Rattle.space.specs.Inner.Sort.{regions_in};

use crate::region::DiscRegion;
use std::marker::Model;

/// The regions in words, an offset and a size each, one after the other.
// Kept: no derived equality: contracts see the regions that are left alone, so it would need an `inverse`
// from those to the words and the place, and there is none.
#[derive(Drop)]
pub struct Regions<'a> {
    words: &'a [u32],
    count: usize,
    next: usize,
}

impl<'a> Model for Regions<'a> {
    ghost use Rattle.std.specs.Prelude.{◌-◌, List};
    ghost use Rattle.space.specs.declared.region.DiscRegion.{DiscRegion};
    ghost use Rattle.space.specs.Inner.Sort.{regions_in};
    ghost use Rattle.space.specs.Inner.Words.{IsStanding};

    ghost Value = { List DiscRegion };

    ghost view = { λ r. regions_in r.words.now r.next (r.count - r.next) };

    ghost invariant = { λ r. IsStanding r.words.now r.next r.count };
}

impl<'a> Regions<'a> {
    /// The first `count` regions in the words.
    pub fn new(words: &'a [u32], count: usize) -> Self
        requires { 2 * count ≤ length words.now }
        ensures { result ≡ regions_in words.now 0 count }
    {
        Regions {
            words,
            count,
            next: 0,
        }
    }
}

impl<'a> Iterator for Regions<'a> {
    type Item = DiscRegion;

    ghost next_gives = { YieldsFirst (λ rest. rest) };

    ghost remaining = { item_count (λ rest. rest) };

    fn next(&mut self) -> Option<DiscRegion> {
        if self.next == self.count {
            return None;
        }
        let offset = self.words[2 * self.next];
        let size = self.words[2 * self.next + 1];
        self.next += 1;
        Some(DiscRegion { offset, size })
    }
}
