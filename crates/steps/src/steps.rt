// The three calls.
ghost use Rattle.std.specs.Prelude.{◌≡◌, length};
ghost use Rattle.endian.specs.Bytes.{AllBytes};
ghost use Rattle.opened.specs.Opening.{zeros, disc_of};
ghost use Rattle.edit_rules.specs.Change.{zeroed_image};
ghost use Rattle.edit_rules.specs.Edits.{plan_of};
ghost use Rattle.edit_rules.specs.Promise.{loan};
ghost use Rattle.edit.specs.Asked.{place_edit_of};
ghost use Rattle.steps.specs.Parts.{plan_copy, plan_table_size, zero_verdict, image_after_zeros};
ghost use Rattle.steps.specs.Places.{DifferOnlyIn, DifferOnlyInTable};
ghost use Rattle.steps.specs.Promise.{own_verdict, MakesCopy, span_behind, WritesTable};
ghost use Rattle.steps.specs.Promise.{ZeroesWhatIsFree};
ghost use Rattle.steps.specs.Inner.Span.{IsInImage};

use crate::span;
use edit::PlaceEdit;
use opened::{Lent, OpenDisc};
use refusal::{Refusal, Verdict};
use space::DiscRegion;
use totals::Totals;

// That an image is of bytes is known of a parameter that is only read.
fn of_bytes(image: &[u8])
    ensures { AllBytes image.now }
{}

// Kept: `image`, `words`, `bytes`, `totals` in each call (C): the memory that a call of the library is lent.
/// The first call: makes every test of the single edit, those of team and record too, and writes the file's
/// bytes at its new place, nothing else.
pub fn copy(
    image: &mut [u8],
    words: &mut [u32],
    bytes: &mut [u8],
    totals: &Totals,
    team: u32,
    edit: PlaceEdit,
) -> Verdict
    ensures copied { let before = loan image.old words.old bytes.old totals.now in
        let after = loan image.new words.new bytes.new totals.now in
        MakesCopy own_verdict (place_edit_of edit) team before after result }
    ensures own_part { let plan = plan_of (place_edit_of edit) (disc_of image.old) in
        DifferOnlyIn image.old image.new (plan_copy plan) }
{
    of_bytes(image);
    let words = Lent::new(words);
    let bytes = Lent::new(bytes);
    let room = bytes.memory.len();
    edit::copy_part(image, words.memory, room, totals, team, edit)
}

/// The second call: makes every test again, on the image as it is. Writes the new table, zeros over the old
/// one's lost tail, and the size in the header, nothing else; the record moves on as by the single edit.
/// Gives what is left to be zeroed, offset and size 0 where there is nothing.
pub fn write_table(
    image: &mut [u8],
    words: &mut [u32],
    bytes: &mut [u8],
    totals: &mut Totals,
    team: u32,
    edit: PlaceEdit,
) -> Result<DiscRegion, Refusal>
    ensures written { let before = loan image.old words.old bytes.old totals.old in
        let after = loan image.new words.new bytes.new totals.new in
        WritesTable span_behind (place_edit_of edit) team before after result }
    ensures own_part { let plan = plan_of (place_edit_of edit) (disc_of image.old) in
        DifferOnlyInTable image.old image.new (plan_table_size plan) }
{
    of_bytes(image);
    let words = Lent::new(words);
    let bytes = Lent::new(bytes);
    let lost = edit::table_part(image, words.memory, bytes.memory, totals, team, edit)?;
    Ok(span::region(lost))
}

// The span's test on the open disc: 29.
fn check_span(image: &[u8], words: &mut [u32], span: DiscRegion) -> Verdict
    ensures { result ≡ zero_verdict image.now (length words.old) span }
{
    let disc = OpenDisc::of_image(image, words)?;
    if disc.max_region_size(span.offset, 0) < span.size {
        return Err(Refusal::SpanNotFree);
    }
    Ok(())
}

// No byte may be asked for at a place past the image: an empty span may lie anywhere.
fn write_zeros(image: &mut [u8], span: DiscRegion)
    requires { IsInImage image.old span }
    ensures { image.new ≡ zeroed_image span image.old }
{
    if span.size == 0 {
        return;
    }
    endian::fill(image, span.offset as usize, span.size as usize, 0);
}

/// The third call: zeros over a span of which each byte is free, else 29. An empty span may lie anywhere.
pub fn zero(image: &mut [u8], words: &mut [u32], span: DiscRegion) -> Verdict
    ensures answer { result ≡ zero_verdict image.old (length words.old) span }
    ensures image_after { image.new ≡ image_after_zeros image.old (length words.old) span }
    ensures words_zero { words.new ≡ zeros words.old }
    ensures own_part { DifferOnlyIn image.old image.new span }
    ensures what_is_free { ZeroesWhatIsFree image.old (length words.old) span result }
{
    of_bytes(image);
    let words = Lent::new(words);
    check_span(image, words.memory, span)?;
    write_zeros(image, span);
    Ok(())
}
