// Regions for an allocation: from the first multiple of an alignment on.
ghost use Rattle.std.specs.Prelude.{◌≡◌, ◌<◌, if◌then◌else◌, unwrap_or};
ghost use Rattle.std.specs.Option.{ForSome};
ghost use Rattle.space.specs.Align.{align_up};
ghost use Rattle.space.specs.Used.{end_of, no_region};
ghost use Rattle.space.specs.Allocate.{rest, is_large_enough, better_of};

use crate::region::DiscRegion;

/// The first multiple of `align` from a on.
pub fn align_up(a: u32, align: u32) -> u64
    requires { 0 < align }
    ensures { result ≡ align_up align a }
{
    u64::from(a).next_multiple_of(u64::from(align))
}

// What a free region has for `size` bytes from its first multiple of `align` on.
fn aligned(gap: DiscRegion, size: u32, align: u32) -> Option<DiscRegion>
    requires positive { 0 < align }
    requires gap_end { end_of gap < 4294967296 }
    ensures { result ≡ (if is_large_enough align size gap then Some (rest align gap) else None) }
{
    let start = align_up(gap.offset, align);
    let end = gap.end();
    if end <= start || end - start < u64::from(size) {
        return None;
    }
    Some(DiscRegion {
        offset: start as u32,
        size: (end - start) as u32,
    })
}

// The better of the best region so far and what `gap` has from its first multiple on; that one among equals.
pub fn better(
    best: Option<DiscRegion>,
    gap: DiscRegion,
    size: u32,
    align: u32,
) -> Option<DiscRegion>
    requires positive { 0 < align }
    requires gap_end { end_of gap < 4294967296 }
    requires found { ForSome best (λ region. 0 < region.size) }
    ensures better { let best_before = unwrap_or best no_region in
        unwrap_or result no_region ≡ better_of align size best_before gap }
    ensures found { ForSome result (λ region. 0 < region.size) }
{
    let Some(rest) = aligned(gap, size, align) else {
        return best;
    };
    match best {
        Some(best) if rest.size < best.size => Some(best),
        _ => Some(rest),
    }
}
