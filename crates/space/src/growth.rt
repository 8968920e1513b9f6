// The largest size of a region, by the free region before it and the one from it on.
ghost use Rattle.std.specs.Prelude.{◌≡◌, ◌+◌, ◌<◌};
ghost use Rattle.space.specs.MaxRegionSize as max_region_size_of;

use crate::region::DiscRegion;

// Where the free region before the region ends at prev_end: up to that end if the region ends before it.
pub fn size_inside_free(prev_end: u64, offset: u32, size: u32, other: u32) -> u32
    requires { prev_end < 4294967296 }
    ensures { result ≡ max_region_size_of.size_inside_free offset size prev_end other }
{
    if u64::from(offset) + u64::from(size) < prev_end {
        (prev_end - u64::from(offset)) as u32
    } else {
        other
    }
}

// The same beside the free region `next`, the first that starts at `offset` or later.
pub fn size_beside_free(prev_end: u64, next: DiscRegion, offset: u32, size: u32) -> u32
    requires before { prev_end < 4294967296 }
    requires next_end { next.offset + next.size < 4294967296 }
    ensures { result ≡ max_region_size_of.size_beside_free offset size prev_end next }
{
    if next.offset == offset {
        return next.size;
    }
    if u64::from(next.offset) == u64::from(offset) + u64::from(size) {
        return size_inside_free(prev_end, offset, size, size + next.size);
    }
    size_inside_free(prev_end, offset, size, size)
}
