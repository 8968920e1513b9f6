// The edits. The totals record is lent in its slots: it is read, moved on, and written back. Each edit
// carries a team.
ghost use Rattle.std.specs.Prelude.{◌≡◌, ◌≢◌};
ghost use Rattle.edit_rules.specs.Edits as edits;
ghost use Rattle.edit_rules.specs.Promise.{IsEdited, loan};
ghost use Rattle.edit.specs.Asked.{edit_of};
ghost use Rattle.counter.specs.Replies.{reply, one_word, done_number, entry_reply, totals_in};

use crate::answer::give;
use crate::slots;
use edit::{Edit, Kind, NewEntry};

// Kept: image, words, bytes and record one by one: in the exported functions C lends each by itself
// (C). In `give_done` and `give_entry`, which C does not call, each is written or zeroed apart from
// the others, and a struct of four `&mut` would have each contract name the loan of each field (N).

// An edit that gives only that it is done.
fn give_done(
    image: &mut [u8],
    words: &mut [u32],
    bytes: &mut [u8],
    totals: &mut [u32; 66],
    team: u32,
    edit: Edit<'_>,
) -> u32
    ensures edited { IsEdited done_number (edit_of edit.entry) team
        (loan image.old words.old bytes.old (totals_in totals.old))
        (loan image.new words.new bytes.new (totals_in totals.new)) result }
    ensures refused { result ≢ 0 → totals.new ≡ totals.old }
{
    let mut record = slots::totals_in(totals);
    let verdict = edit::done(image, words, bytes, &mut record, team, edit);
    *totals = slots::totals_words(&record);
    give(&mut (), verdict)
}

#[unsafe(no_mangle)]
pub extern "C" fn counter_move_file(
    image: &mut [u8],
    words: &mut [u32],
    bytes: &mut [u8],
    totals: &mut [u32; 66],
    team: u32,
    file: u32,
    offset: u32,
) -> u32
    ensures edited { IsEdited done_number (edits.move_file file offset) team
        (loan image.old words.old bytes.old (totals_in totals.old))
        (loan image.new words.new bytes.new (totals_in totals.new)) result }
    ensures refused { result ≢ 0 → totals.new ≡ totals.old }
{
    give_done(
        image,
        words,
        bytes,
        totals,
        team,
        Edit::Move { file, offset },
    )
}

#[unsafe(no_mangle)]
pub extern "C" fn counter_resize_file(
    image: &mut [u8],
    words: &mut [u32],
    bytes: &mut [u8],
    totals: &mut [u32; 66],
    team: u32,
    file: u32,
    size: u32,
) -> u32
    ensures edited { IsEdited done_number (edits.resize_file file size) team
        (loan image.old words.old bytes.old (totals_in totals.old))
        (loan image.new words.new bytes.new (totals_in totals.new)) result }
    ensures refused { result ≢ 0 → totals.new ≡ totals.old }
{
    give_done(
        image,
        words,
        bytes,
        totals,
        team,
        Edit::Resize { file, size },
    )
}

#[unsafe(no_mangle)]
pub extern "C" fn counter_fill_file(
    image: &mut [u8],
    words: &mut [u32],
    bytes: &mut [u8],
    totals: &mut [u32; 66],
    team: u32,
    file: u32,
    clip: &[u8],
) -> u32
    ensures edited { IsEdited done_number (edits.fill_file file clip.now) team
        (loan image.old words.old bytes.old (totals_in totals.old))
        (loan image.new words.new bytes.new (totals_in totals.new)) result }
    ensures refused { result ≢ 0 → totals.new ≡ totals.old }
{
    give_done(image, words, bytes, totals, team, Edit::Fill { file, clip })
}

#[unsafe(no_mangle)]
pub extern "C" fn counter_rewrite(
    image: &mut [u8],
    words: &mut [u32],
    bytes: &mut [u8],
    totals: &mut [u32; 66],
    team: u32,
) -> u32
    ensures edited { IsEdited done_number edits.rewrite team
        (loan image.old words.old bytes.old (totals_in totals.old))
        (loan image.new words.new bytes.new (totals_in totals.new)) result }
    ensures refused { result ≢ 0 → totals.new ≡ totals.old }
{
    give_done(image, words, bytes, totals, team, Edit::Rewrite)
}

// ---- the edits that add entries, each with the number of the entry that it gives

fn give_entry(
    image: &mut [u8],
    words: &mut [u32],
    bytes: &mut [u8],
    totals: &mut [u32; 66],
    team: u32,
    edit: Edit<'_>,
    answer: &mut u32,
) -> u32
    ensures edited { IsEdited (entry_reply (one_word answer.old)) (edit_of edit.entry) team
        (loan image.old words.old bytes.old (totals_in totals.old))
        (loan image.new words.new bytes.new (totals_in totals.new)) (reply result (one_word answer.new)) }
    ensures refused { result ≢ 0 → totals.new ≡ totals.old }
{
    let mut record = slots::totals_in(totals);
    let given = edit::run(image, words, bytes, &mut record, team, edit);
    *totals = slots::totals_words(&record);
    give(answer, given)
}

#[unsafe(no_mangle)]
pub extern "C" fn counter_insert_file(
    image: &mut [u8],
    words: &mut [u32],
    bytes: &mut [u8],
    totals: &mut [u32; 66],
    team: u32,
    parent: u32,
    name: &[u8],
    answer: &mut u32,
) -> u32
    ensures edited { IsEdited (entry_reply (one_word answer.old)) (edits.insert_file parent name.now) team
        (loan image.old words.old bytes.old (totals_in totals.old))
        (loan image.new words.new bytes.new (totals_in totals.new)) (reply result (one_word answer.new)) }
    ensures refused { result ≢ 0 → totals.new ≡ totals.old }
{
    let kind = Kind::File;
    let new = NewEntry { parent, kind, name };
    give_entry(image, words, bytes, totals, team, Edit::Insert(new), answer)
}

#[unsafe(no_mangle)]
pub extern "C" fn counter_insert_directory(
    image: &mut [u8],
    words: &mut [u32],
    bytes: &mut [u8],
    totals: &mut [u32; 66],
    team: u32,
    parent: u32,
    name: &[u8],
    answer: &mut u32,
) -> u32
    ensures edited { IsEdited (entry_reply (one_word answer.old))
        (edits.insert_directory parent name.now) team
        (loan image.old words.old bytes.old (totals_in totals.old))
        (loan image.new words.new bytes.new (totals_in totals.new)) (reply result (one_word answer.new)) }
    ensures refused { result ≢ 0 → totals.new ≡ totals.old }
{
    let kind = Kind::Directory;
    let new = NewEntry { parent, kind, name };
    give_entry(image, words, bytes, totals, team, Edit::Insert(new), answer)
}

#[unsafe(no_mangle)]
pub extern "C" fn counter_make_directories(
    image: &mut [u8],
    words: &mut [u32],
    bytes: &mut [u8],
    totals: &mut [u32; 66],
    team: u32,
    start: u32,
    path: &[u8],
    answer: &mut u32,
) -> u32
    ensures edited { IsEdited (entry_reply (one_word answer.old))
        (edits.make_directories start path.now) team
        (loan image.old words.old bytes.old (totals_in totals.old))
        (loan image.new words.new bytes.new (totals_in totals.new)) (reply result (one_word answer.new)) }
    ensures refused { result ≢ 0 → totals.new ≡ totals.old }
{
    give_entry(
        image,
        words,
        bytes,
        totals,
        team,
        Edit::MakeDirectories { start, path },
        answer,
    )
}
