// The free regions counted in clusters of 0x8000 bytes.
ghost use Rattle.std.specs.Prelude.{refl};
ghost use Rattle.std.proofs.Common.{arith};
ghost use Rattle.space.specs.Inner.Counted.{IsCounted};
ghost use Rattle.space.specs.Listing.{cluster_row};

use crate::allocation;
use crate::region::DiscRegion;
use crate::rows::Row;

/// A region in clusters of 0x8000 bytes.
#[derive(Clone, Copy, Debug, PartialEq, Eq)]
pub struct Clusters {
    /// The bytes before its first multiple of 0x8000.
    pub before: u32,
    /// The whole clusters from there on.
    pub clusters: u32,
    /// The bytes behind the last of them.
    pub rest: u32,
}

/// How many bytes a cluster has: 0x8000.
pub const CLUSTER_SIZE: u32 = 0x8000;

impl From<DiscRegion> for Clusters {
    ghost from_gives = { IsCounted };

    fn from(region: DiscRegion) -> Clusters {
        let first = allocation::align_up(region.offset, CLUSTER_SIZE);
        let end = region.end();
        if end <= first {
            return Clusters {
                before: region.size,
                clusters: 0,
                rest: 0,
            };
        }
        let left = (end - first) as u32;
        Clusters {
            before: region.size - left,
            clusters: left / CLUSTER_SIZE,
            rest: left % CLUSTER_SIZE,
        }
    }
}

impl Row<3> for Clusters {
    ghost words_of = { cluster_row };

    ghost some = { Prim.omega arith };

    ghost width = { λ _. refl };

    fn put(region: DiscRegion, row: &mut [u32]) {
        let counted = Clusters::from(region);
        row[0] = counted.before;
        row[1] = counted.clusters;
        row[2] = counted.rest;
    }
}
