// The new table: whether it can be written, and the tree as it is written anew into the working bytes.
ghost use Rattle.std.specs.Prelude.{◌≡◌, ◌≤◌, ◌^◌, length, IfOk};
ghost use Rattle.endian.specs.Bytes.{put};
ghost use Rattle.tree.specs.Table.{count, nodes_of, encode};
ghost use Rattle.table_writing.specs.Inner.Valid.{IsValid};
ghost use Rattle.edit_rules.specs.Change.{place_verdict};
ghost use Rattle.edit.specs.Inner.Decision.{judged_size, IsDraftable, IsDrafted};

use crate::decision::Decision;
use opened::OpenDisc;
use refusal::{Refusal, Verdict};
use space::DiscRegion;

/// The tests of a table of `size` bytes, where `room` working bytes are lent: 9 if these are too few, 26 if
/// it is above the stated maximum, 21 if there is no room for it behind the old table, or before the edited
/// file's new place.
#[tactic(auto, unfolding(edit_rules::specs::Change::place_verdict))]
pub fn check_place(disc: &OpenDisc<'_>, room: usize, size: usize, place: DiscRegion) -> Verdict
    ensures { result ≡ place_verdict disc.now.disc room size place }
{
    if room < size {
        return Err(Refusal::LimitOrMemory);
    }
    let maximum = disc.maximum() as usize;
    if maximum != 0 && maximum < size {
        return Err(Refusal::TableAboveMaximum);
    }
    let start = disc.start();
    let most = disc.max_region_size(start, disc.table_size()) as usize;
    if most < size {
        return Err(Refusal::NotEnoughSpace);
    }
    let table_end = start as usize + size;
    // Kept: the size is asked, and no `Option` (N): an empty file has a place too, and it may lie anywhere.
    if place.size != 0 && (place.offset as usize) < table_end {
        return Err(Refusal::NotEnoughSpace);
    }
    Ok(())
}

/// The tests that an edit ends with, for the tree as it is, and how many bytes its table takes. A tree that
/// differs in a file's place only has the same size and the same answer.
pub fn check_new_table(
    disc: &OpenDisc<'_>,
    room: usize,
    place: DiscRegion,
) -> Result<usize, Refusal>
    ensures answer { result ≡ judged_size disc.now room place }
    ensures held { IfOk result (λ _. length (encode disc.now.disc.nodes) ≤ room) }
    ensures small { IfOk result (λ _. length (encode disc.now.disc.nodes) ≤ 2 ^ 24) }
{
    let size = table_writing::measure(disc.table())?;
    check_place(disc, room, size, place)?;
    Ok(size)
}

/// The tree of a valid table, as that of an open disc is, written anew.
pub fn write_table(table: &[u8], bytes: &mut [u8])
    requires valid { IsValid table.now (count table.now) }
    requires held { length (encode (nodes_of table.now)) ≤ length bytes.old }
    requires small { length (encode (nodes_of table.now)) ≤ 2 ^ 24 }
    ensures { bytes.new ≡ put bytes.old 0 (encode (nodes_of table.now)) }
{
    table_writing::write_table(table, bytes);
}

/// Drafts in the working bytes the table of what was judged: the tree anew, with the file at its new place.
/// What was judged is handed back.
pub fn draft(
    disc: &OpenDisc<'_>,
    bytes: &mut [u8],
    judged: Result<Decision, Refusal>,
) -> Result<Decision, Refusal>
    requires { IsDraftable disc.now.disc.nodes (length bytes.old) judged }
    ensures drafted { IsDrafted disc.now.disc.nodes bytes.new judged }
    ensures same { result ≡ judged }
{
    let decision = judged?;
    if let Decision::Write {
        number,
        writing,
        ..
    } = decision
    {
        let place = writing.place;
        write_table(disc.table(), bytes);
        table_writing::set_place(bytes, number as usize, place.offset, place.size);
    }
    Ok(decision)
}
