// What an edit decides on, as a value, and that it is carried out or its refusal handed back.

ghost use Rattle.std.specs.Prelude.{◌≡◌, length};
ghost use Rattle.edit.specs.Inner.Decision.{CanCarry, decision_number, carried_answer, carried_image};
ghost use Rattle.edit.specs.Inner.Decision.{carried_verdict, CanCopy, copied_by};
ghost use Rattle.edit.specs.Inner.Decision.{CanTable, tabled_by, lost_by};

use crate::carry_out;
use refusal::{Refusal, Verdict};
use space::DiscRegion;

/// Bytes of an image: from `offset` on, `size` of them.
#[derive(Clone, Copy, Debug, PartialEq, Eq)]
pub struct Span {
    pub offset: usize,
    pub size: usize,
}

/// What an edit does to the image besides the table. Where there are no bytes nothing is done, wherever that
/// lies.
#[derive(Clone, Copy, Debug, PartialEq, Eq)]
pub struct Writing {
    /// Where the edited file lies before.
    pub old: DiscRegion,
    /// Where it lies afterwards.
    pub place: DiscRegion,
    /// How many bytes are copied from the old place to the new one, before the table is written.
    pub kept: usize,
    /// What is zeroed after the table is written.
    pub lost: Span,
}

impl Writing {
    /// No byte but the table's.
    // Kept: places without bytes, and no `Option` (N): an empty file has such a place too, and `None` would
    // mean the same.
    pub const NOTHING: Writing = Writing {
        old: DiscRegion { offset: 0, size: 0 },
        place: DiscRegion { offset: 0, size: 0 },
        kept: 0,
        lost: Span { offset: 0, size: 0 },
    };
}

/// What an edit that is not refused comes to, before it writes. The clip that fills a file stands beside it.
#[derive(Clone, Copy, Debug, PartialEq, Eq)]
pub enum Decision {
    /// Nothing is to be written.
    Nothing,
    /// The clip alone, at the offset `at`, where the file lies that has that number.
    Clip {
        number: u32,
        at: u32,
    },
    /// The clip if there is one, the table, whose `size` bytes stand in the working bytes, and what goes with
    /// it, for the entry of that number.
    Write {
        number: u32,
        size: usize,
        writing: Writing,
    },
}

impl Decision {
    /// Writes what is decided on, the table from the working bytes, and gives the entry's number, 0 where
    /// there is none. The clip comes before the table, so a table with the new place or size has the whole
    /// clip.
    fn carry_out(self, image: &mut [u8], bytes: &[u8], clip: &[u8]) -> u32
        requires { CanCarry image.old (length bytes.now) clip.now (Ok self) }
        ensures number { result ≡ decision_number self }
        ensures image_after { image.new ≡ carried_image (Ok self) bytes.now clip.now image.old }
    {
        match self {
            Decision::Nothing => 0,
            Decision::Clip { number, at } => {
                carry_out::put_clip(image, at as usize, clip);
                number
            }
            Decision::Write {
                number,
                size,
                writing,
            } => {
                carry_out::put_clip(image, writing.place.offset as usize, clip);
                carry_out::write_change(image, bytes, size, writing);
                number
            }
        }
    }
}

/// Carries a decision out and gives the entry's number, or hands the refusal back with the image as it was.
pub fn finish(
    image: &mut [u8],
    bytes: &[u8],
    clip: &[u8],
    decided: Result<Decision, Refusal>,
) -> Result<u32, Refusal>
    requires { CanCarry image.old (length bytes.now) clip.now decided }
    ensures answer { result ≡ carried_answer decided }
    ensures image_after { image.new ≡ carried_image decided bytes.now clip.now image.old }
{
    Ok(decided?.carry_out(image, bytes, clip))
}

// ---- in parts, of an edit that brings no clip

/// Writes what a decision copies, and nothing else, or hands the refusal back.
pub fn finish_copy(image: &mut [u8], decided: Result<Decision, Refusal>) -> Verdict
    requires { CanCopy image.old decided }
    ensures answer { result ≡ carried_verdict decided }
    ensures image_after { image.new ≡ copied_by decided image.old }
{
    if let Decision::Write { writing, .. } = decided? {
        let Writing {
            old,
            place,
            kept,
            ..
        } = writing;
        carry_out::copy_kept(image, old.offset as usize, place.offset as usize, kept);
    }
    Ok(())
}

/// Writes the table of a decision, and nothing else, and gives what is left to be zeroed, or hands the
/// refusal back.
pub fn finish_table(
    image: &mut [u8],
    bytes: &[u8],
    decided: Result<Decision, Refusal>,
) -> Result<Span, Refusal>
    requires { CanTable image.old (length bytes.now) decided }
    ensures answer { result ≡ lost_by decided }
    ensures image_after { image.new ≡ tabled_by decided bytes.now image.old }
{
    let Decision::Write { size, writing, .. } = decided? else {
        return Ok(Writing::NOTHING.lost);
    };
    carry_out::write_table(image, bytes, size);
    Ok(writing.lost)
}
