// What a resize decides on, for every image that means the disc.
ghost use Rattle.std.specs.Prelude.{◌≡◌, ◌||◌, length, ◌==◌, nat_le};
ghost use Rattle.space.specs.MaxRegionSize.{max_region_size};
ghost use Rattle.space.specs.Allocate.{allocation_of};
ghost use Rattle.edit_rules.specs.Change.{change};
ghost use Rattle.edit_rules.specs.Edits as edits_of;
ghost use Rattle.edit_rules.specs.Edits.{resize_change, plan_elsewhere, plan_sized, plan_of};
ghost use Rattle.opened.specs.Opening.{free_of};
ghost use Rattle.edit.specs.Inner.Decision.{Decides, Judges};
ghost use Rattle.edit.specs.Inner.Files.{IsFileOf};

use crate::decision::{Decision, Span, Writing};
use crate::file::File;
use crate::finding::file_on_disc;
use crate::moving::{place_file, relocate};
use crate::place;
use opened::OpenDisc;
use refusal::Refusal;
use space::DiscRegion;

// Whether a file keeps its place: it gets smaller, or can grow there.
fn stays(disc: &OpenDisc<'_>, place: DiscRegion, new_size: u32) -> bool
    ensures { let most = max_region_size place.offset place.size (free_of disc.now.disc) in
        result ≡ (nat_le new_size place.size || nat_le new_size most) }
{
    new_size <= place.size || new_size <= disc.max_region_size(place.offset, place.size)
}

// The file keeps its place; what it loses is zeroed.
fn resize_in_place(
    disc: &OpenDisc<'_>,
    room: usize,
    file: File,
    new_size: u32,
) -> Result<Decision, Refusal>
    requires { IsFileOf disc.now file }
    ensures { let nodes = disc.now.disc.nodes in
        let plan = change file.number (resize_change nodes file.number file.place new_size) in
        Judges plan disc.now room result }
{
    let old = file.place;
    let writing = Writing {
        old,
        place: DiscRegion {
            offset: old.offset,
            size: new_size,
        },
        kept: 0,
        lost: Span {
            offset: old.offset as usize + new_size as usize,
            size: old.size.saturating_sub(new_size) as usize,
        },
    };
    place_file(disc, room, file.number, writing)
}

// The file goes where there is room for it, at a multiple of 0x8000.
fn grow_elsewhere(
    disc: &OpenDisc<'_>,
    room: usize,
    file: File,
    new_size: u32,
) -> Result<Decision, Refusal>
    requires { IsFileOf disc.now file }
    ensures { let free = free_of disc.now.disc in
        let region = allocation_of 0x8000 new_size free in
        let plan = plan_elsewhere disc.now.disc.nodes free file.number file.place new_size region in
        Judges plan disc.now room result }
{
    let region = disc.allocate(new_size, space::CLUSTER_SIZE)?;
    let new = DiscRegion {
        offset: region.offset,
        size: new_size,
    };
    relocate(disc, room, file, new)
}

// A file gets another size: nothing is done where it has that size; it keeps its place if it can, else it
// goes where there is room, or 21; then the table's tests, where `room` working bytes are lent.
fn judge(disc: &OpenDisc<'_>, room: usize, file: File, new_size: u32) -> Result<Decision, Refusal>
    requires { IsFileOf disc.now file }
    ensures { let d = disc.now.disc in
        let plan = plan_sized (free_of d) d.nodes file.number file.place new_size in
        Judges plan disc.now room result }
{
    if new_size == file.place.size {
        return Ok(Decision::Nothing);
    }
    if stays(disc, file.place, new_size) {
        return resize_in_place(disc, room, file, new_size);
    }
    grow_elsewhere(disc, room, file, new_size)
}

/// A file resized: judged, and its table drafted.
pub fn resize(
    disc: &OpenDisc<'_>,
    bytes: &mut [u8],
    file: File,
    new_size: u32,
) -> Result<Decision, Refusal>
    requires { IsFileOf disc.now file }
    ensures { let d = disc.now.disc in
        let plan = plan_sized (free_of d) d.nodes file.number file.place new_size in
        Decides plan disc.now (length bytes.old) bytes.new result }
{
    let judged = judge(disc, bytes.len(), file, new_size);
    place::draft(disc, bytes, judged)
}

/// A resize judged, where `room` working bytes are lent: 15, 16, 21 and 20, then the table's tests.
pub fn judge_resize(
    disc: &OpenDisc<'_>,
    room: usize,
    number: u32,
    new_size: u32,
) -> Result<Decision, Refusal>
    ensures { let plan = plan_of (edits_of.resize_file number new_size) disc.now.disc in
        Judges plan disc.now room result }
{
    let file = file_on_disc(disc, number)?;
    judge(disc, room, file, new_size)
}

/// The file of that number gets another size: judged, and its table drafted.
pub fn resize_file(
    disc: &OpenDisc<'_>,
    bytes: &mut [u8],
    number: u32,
    new_size: u32,
) -> Result<Decision, Refusal>
    ensures { let plan = plan_of (edits_of.resize_file number new_size) disc.now.disc in
        Decides plan disc.now (length bytes.old) bytes.new result }
{
    let judged = judge_resize(disc, bytes.len(), number, new_size);
    place::draft(disc, bytes, judged)
}
