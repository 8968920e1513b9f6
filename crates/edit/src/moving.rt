// What a rewrite and a move decide on, for every image that means the disc.
ghost use Rattle.std.specs.Prelude.{◌≡◌, List, ℕ, length};
ghost use Rattle.tree.specs.Insert as insert_of;
ghost use Rattle.edit_rules.specs.Change.{change};
ghost use Rattle.edit_rules.specs.Edits as edits_of;
ghost use Rattle.edit_rules.specs.Edits.{plan_behind, relocate_verdict, relocation_change, plan_of};
ghost use Rattle.opened.specs.Opening.{free_of};
ghost use Rattle.opened.specs.Inner.Disc.{Means};
ghost use Rattle.edit.specs.Inner.Decision.{LiesApart, change_with, Decides, Judges};
ghost use Rattle.edit.specs.Inner.Files.{IsFile, IsFileOf, relocation_of};

use crate::decision::{Decision, Span, Writing};
use crate::file::File;
use crate::finding::file_on_disc;
use crate::place;
use opened::OpenDisc;
use refusal::{Refusal, Verdict};
use space::DiscRegion;

// Kept: the disc, which is read, and the bytes, which are written, go side by side here and in `resizing`:
// each contract names the two, and a value that held both would say nothing more.
/// The tree as it is, written anew; refused by the tests of its table alone.
pub fn rewrite(disc: &OpenDisc<'_>, bytes: &mut [u8]) -> Result<Decision, Refusal>
    ensures { let plan = plan_of edits_of.rewrite disc.now.disc in
        Decides plan disc.now (length bytes.old) bytes.new result }
{
    let size = place::check_new_table(disc, bytes.len(), Writing::NOTHING.place)?;
    place::write_table(disc.table(), bytes);
    Ok(Decision::Write {
        number: 0,
        size,
        writing: Writing::NOTHING,
    })
}

// The tree with another place for a file: its table is judged, and not written yet.
pub(crate) fn place_file(
    disc: &OpenDisc<'_>,
    room: usize,
    number: u32,
    writing: Writing,
) -> Result<Decision, Refusal>
    requires is_file { IsFile disc.now.disc.nodes number }
    requires inside { (image : List ℕ) → Means image disc.now → LiesApart (length image) writing }
    ensures { let place = writing.place in
        let nodes = insert_of.set_place number place.offset place.size disc.now.disc.nodes in
        Judges (change number (change_with nodes writing)) disc.now room result }
{
    let size = place::check_new_table(disc, room, writing.place)?;
    Ok(Decision::Write {
        number,
        size,
        writing,
    })
}

// Whether a region would be moved onto itself.
fn is_overlapping(old: DiscRegion, new: DiscRegion) -> bool
    ensures { result ≡ edits_of.is_overlapping old new }
{
    u64::from(new.offset) < old.end() && u64::from(old.offset) < new.end()
}

// The tests of a new place: 20, then 21.
fn check_relocate(disc: &OpenDisc<'_>, old: DiscRegion, new: DiscRegion) -> Verdict
    ensures { result ≡ relocate_verdict (free_of disc.now.disc) old new }
{
    if is_overlapping(old, new) {
        return Err(Refusal::OverlappingMove);
    }
    if disc.max_region_size(new.offset, 0) < new.size {
        return Err(Refusal::NotEnoughSpace);
    }
    Ok(())
}

// What a move writes besides the table: the smaller of both sizes is copied, and the old place is zeroed.
fn relocation(old: DiscRegion, new: DiscRegion) -> Writing
    ensures { result ≡ relocation_of old new }
{
    Writing {
        old,
        place: new,
        kept: old.size.min(new.size) as usize,
        lost: Span {
            offset: old.offset as usize,
            size: old.size as usize,
        },
    }
}

// The file goes from one place to another.
pub(crate) fn relocate(
    disc: &OpenDisc<'_>,
    room: usize,
    file: File,
    new: DiscRegion,
) -> Result<Decision, Refusal>
    requires { IsFileOf disc.now file }
    ensures { let nodes = disc.now.disc.nodes in
        let moved = change file.number (relocation_change nodes file.number file.place new) in
        let plan = plan_behind (relocate_verdict (free_of disc.now.disc) file.place new) moved in
        Judges plan disc.now room result }
{
    check_relocate(disc, file.place, new)?;
    place_file(disc, room, file.number, relocation(file.place, new))
}

/// A move judged, where `room` working bytes are lent: 15, 16, 20 if the file would overlap itself, 21 if its
/// new place is not free, then the table's tests.
pub fn judge_move(
    disc: &OpenDisc<'_>,
    room: usize,
    number: u32,
    offset: u32,
) -> Result<Decision, Refusal>
    ensures { let plan = plan_of (edits_of.move_file number offset) disc.now.disc in
        Judges plan disc.now room result }
{
    let file = file_on_disc(disc, number)?;
    let new = DiscRegion {
        offset,
        size: file.place.size,
    };
    relocate(disc, room, file, new)
}

/// The file of that number goes to another offset: judged, and its table drafted.
pub fn move_file(
    disc: &OpenDisc<'_>,
    bytes: &mut [u8],
    number: u32,
    offset: u32,
) -> Result<Decision, Refusal>
    ensures { let plan = plan_of (edits_of.move_file number offset) disc.now.disc in
        Decides plan disc.now (length bytes.old) bytes.new result }
{
    let judged = judge_move(disc, bytes.len(), number, offset);
    place::draft(disc, bytes, judged)
}
