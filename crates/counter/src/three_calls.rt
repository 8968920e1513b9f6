// A move or a resize in three calls: the copy, the table, the zeros. The copy only reads the record.
ghost use Rattle.std.specs.Prelude.{◌≡◌, ◌≢◌, length};
ghost use Rattle.opened.specs.Opening.{zeros};
ghost use Rattle.edit_rules.specs.Edits as edits;
ghost use Rattle.edit_rules.specs.Promise.{loan};
ghost use Rattle.edit.specs.Asked.{place_edit_of};
ghost use Rattle.steps.specs.Parts.{zero_verdict, image_after_zeros};
ghost use Rattle.steps.specs.Promise.{MakesCopy, WritesTable};
ghost use Rattle.counter.specs.Replies.{reply, number_told, span_reply, totals_in};

use crate::answer::give;
use crate::slots;
use space::DiscRegion;
use steps::PlaceEdit;

// Kept: image, words, bytes and record one by one, as in editing.rt (C, N).

// ---- the copy

fn give_copy(
    image: &mut [u8],
    words: &mut [u32],
    bytes: &mut [u8],
    totals: &[u32; 66],
    team: u32,
    edit: PlaceEdit,
) -> u32
    ensures { MakesCopy number_told (place_edit_of edit) team
        (loan image.old words.old bytes.old (totals_in totals.now))
        (loan image.new words.new bytes.new (totals_in totals.now)) result }
{
    let record = slots::totals_in(totals);
    give(
        &mut (),
        steps::copy(image, words, bytes, &record, team, edit),
    )
}

#[unsafe(no_mangle)]
pub extern "C" fn counter_move_copy(
    image: &mut [u8],
    words: &mut [u32],
    bytes: &mut [u8],
    totals: &[u32; 66],
    team: u32,
    file: u32,
    offset: u32,
) -> u32
    ensures { MakesCopy number_told (edits.move_file file offset) team
        (loan image.old words.old bytes.old (totals_in totals.now))
        (loan image.new words.new bytes.new (totals_in totals.now)) result }
{
    give_copy(
        image,
        words,
        bytes,
        totals,
        team,
        PlaceEdit::Move { file, offset },
    )
}

#[unsafe(no_mangle)]
pub extern "C" fn counter_resize_copy(
    image: &mut [u8],
    words: &mut [u32],
    bytes: &mut [u8],
    totals: &[u32; 66],
    team: u32,
    file: u32,
    size: u32,
) -> u32
    ensures { MakesCopy number_told (edits.resize_file file size) team
        (loan image.old words.old bytes.old (totals_in totals.now))
        (loan image.new words.new bytes.new (totals_in totals.now)) result }
{
    give_copy(
        image,
        words,
        bytes,
        totals,
        team,
        PlaceEdit::Resize { file, size },
    )
}

// ---- the table, with what is left to be zeroed

fn give_table(
    image: &mut [u8],
    words: &mut [u32],
    bytes: &mut [u8],
    totals: &mut [u32; 66],
    team: u32,
    edit: PlaceEdit,
    span: &mut [u32; 2],
) -> u32
    ensures written { WritesTable (span_reply span.old) (place_edit_of edit) team
        (loan image.old words.old bytes.old (totals_in totals.old))
        (loan image.new words.new bytes.new (totals_in totals.new)) (reply result span.new) }
    ensures refused { result ≢ 0 → totals.new ≡ totals.old }
{
    let mut record = slots::totals_in(totals);
    let left = steps::write_table(image, words, bytes, &mut record, team, edit);
    *totals = slots::totals_words(&record);
    give(span, left.map(slots::region_words))
}

#[unsafe(no_mangle)]
pub extern "C" fn counter_move_table(
    image: &mut [u8],
    words: &mut [u32],
    bytes: &mut [u8],
    totals: &mut [u32; 66],
    team: u32,
    file: u32,
    offset: u32,
    span: &mut [u32; 2],
) -> u32
    ensures written { WritesTable (span_reply span.old) (edits.move_file file offset) team
        (loan image.old words.old bytes.old (totals_in totals.old))
        (loan image.new words.new bytes.new (totals_in totals.new)) (reply result span.new) }
    ensures refused { result ≢ 0 → totals.new ≡ totals.old }
{
    give_table(
        image,
        words,
        bytes,
        totals,
        team,
        PlaceEdit::Move { file, offset },
        span,
    )
}

#[unsafe(no_mangle)]
pub extern "C" fn counter_resize_table(
    image: &mut [u8],
    words: &mut [u32],
    bytes: &mut [u8],
    totals: &mut [u32; 66],
    team: u32,
    file: u32,
    size: u32,
    span: &mut [u32; 2],
) -> u32
    ensures written { WritesTable (span_reply span.old) (edits.resize_file file size) team
        (loan image.old words.old bytes.old (totals_in totals.old))
        (loan image.new words.new bytes.new (totals_in totals.new)) (reply result span.new) }
    ensures refused { result ≢ 0 → totals.new ≡ totals.old }
{
    give_table(
        image,
        words,
        bytes,
        totals,
        team,
        PlaceEdit::Resize { file, size },
        span,
    )
}

// ---- the zeros

#[unsafe(no_mangle)]
pub extern "C" fn counter_zero(image: &mut [u8], words: &mut [u32], offset: u32, size: u32) -> u32
    ensures number { let span : DiscRegion = record { offset = offset; size = size } in
        result ≡ number_told (zero_verdict image.old (length words.old) span) }
    ensures image_after { let span : DiscRegion = record { offset = offset; size = size } in
        image.new ≡ image_after_zeros image.old (length words.old) span }
    ensures words_zero { words.new ≡ zeros words.old }
{
    give(
        &mut (),
        steps::zero(image, words, DiscRegion { offset, size }),
    )
}
