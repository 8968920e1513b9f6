// The lines of the free regions, read off the used regions.
ghost use Rattle.space.specs.Inner.UsedSpace.{free_space_in};
ghost use Rattle.listing.specs.Lines.{region_line, lines_of_regions};
ghost use Rattle.listing.specs.Inner.Writing.{Appends};

use crate::buffer::TextBuffer;
use crate::lines;
use space::{DiscRegion, UsedRegions};

fn put_region(text: &mut TextBuffer<'_>, region: DiscRegion)
    ensures { Appends text.old text.new (region_line region) }
{
    lines::put_pair(text, b'r', region.offset, region.size);
    text.push(b'\n');
}

/// A line for each free region.
pub fn put_regions(used: &UsedRegions<'_>, text: &mut TextBuffer<'_>)
    ensures { Appends text.old text.new (lines_of_regions (free_space_in used.now)) }
{
    for region in used.free_regions() {
        put_region(text, region);
    }
}
