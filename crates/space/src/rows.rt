// What stands in a result list for each region.
ghost use Rattle.std.specs.Prelude.{ℕ, ◌≡◌, ◌<◌, List, length, refl};
ghost use Rattle.std.proofs.Common.{arith};
ghost use Rattle.space.specs.declared.region.DiscRegion.{DiscRegion};
ghost use Rattle.space.specs.Listing.{region_row};

use crate::region::DiscRegion;

/// A form in which regions are listed: `N` words for each.
pub trait Row<const N: usize> {
    ghost words_of: { DiscRegion → List ℕ };

    /// Writes the words of a region.
    fn put(region: DiscRegion, row: &mut [u32])
        requires { length row.old ≡ N }
        ensures { row.new ≡ words_of region };

    ghost some: { 0 < N };

    ghost width: { (region : DiscRegion) → length (words_of region) ≡ N };
}

impl Row<2> for DiscRegion {
    ghost words_of = { region_row };

    ghost some = { Prim.omega arith };

    ghost width = { λ _. refl };

    fn put(region: DiscRegion, row: &mut [u32]) {
        row[0] = region.offset;
        row[1] = region.size;
    }
}
