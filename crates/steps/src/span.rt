// What is left to be zeroed, as a region of the disc.
ghost use Rattle.std.specs.Prelude.{◌≡◌};
ghost use Rattle.steps.specs.Inner.Span.{span_region, IsOnDisc};

use edit::Span;
use space::DiscRegion;

// Offset and size 0 where there is nothing, wherever that lies.
pub(crate) fn region(lost: Span) -> DiscRegion
    requires { IsOnDisc lost }
    ensures { result ≡ span_region lost }
{
    if lost.size == 0 {
        return DiscRegion { offset: 0, size: 0 };
    }
    DiscRegion {
        offset: lost.offset as u32,
        size: lost.size as u32,
    }
}
