// What the files need on the disc, found in one pass over their sizes.
ghost use Rattle.std.specs.Prelude.{◌≡◌, ◌≤◌, length};
ghost use Rattle.placement.specs.Placement as placement_of;
ghost use Rattle.placement.specs.Inner.Need.{IsNeedOf};

use space::CLUSTER_SIZE;

// What a pass over the sizes finds.
// Kept: no derived equality, since nothing compares two (N).
#[derive(Clone, Copy)]
pub struct Need {
    // The bytes of all files, each in whole clusters.
    pub whole: u64,
    // The bytes of the largest unused rest of a last cluster.
    pub rest: u64,
    // The number of the first file with that rest.
    pub last: usize,
}

// A size in bytes, rounded up to whole clusters.
#[tactic(auto, unfolding(space::specs::Align::align_up))]
pub fn whole_size(size: u32) -> u64
    ensures { result ≡ placement_of.whole_size size }
{
    u64::from(size).next_multiple_of(u64::from(CLUSTER_SIZE))
}

// What the files of these sizes in bytes need.
pub fn need_of(sizes: &[u32]) -> Need
    requires { length sizes.now ≤ 16384 }
    ensures { IsNeedOf sizes.now result }
{
    let mut need = Need {
        whole: 0,
        rest: 0,
        last: 0,
    };
    for (i, &size) in sizes.iter().enumerate() {
        let whole = whole_size(size);
        let rest = whole - u64::from(size);
        need.whole += whole;
        // Of equal rests the first file's counts.
        if need.rest < rest {
            need.rest = rest;
            need.last = i;
        }
    }
    need
}
