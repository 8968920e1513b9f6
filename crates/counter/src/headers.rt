// The headers: of the disc, and of the executable.
ghost use Rattle.std.specs.Prelude.{◌≡◌, length, take};
ghost use Rattle.header.specs.Verdicts.{header_verdict};
ghost use Rattle.disc.specs.Files.{open_dol_answer};
ghost use Rattle.opened.specs.Opening.{zeros};
ghost use Rattle.counter.specs.Replies.{reply, verdict_reply, dol_reply, dol_window_reply};

use crate::answer::give;
use crate::slots;
use header::DiscHeader;

// The header is read field by field, and written back: the image's first 0x440 bytes.
// Kept: an array, since the header of a disc has that many bytes, and C lends them (C).
#[unsafe(no_mangle)]
pub extern "C" fn counter_header(image: &[u8], fields: &mut [u8; 0x440]) -> u32
    ensures { reply result fields.new
        ≡ verdict_reply fields.old (header_verdict image.now) (take 0x440 image.now) }
{
    match DiscHeader::read_from(image) {
        Ok(header) => give(&mut (), header.write_to(fields)),
        Err(cause) => cause.into(),
    }
}

// ---- the executable

#[unsafe(no_mangle)]
pub extern "C" fn counter_open_dol(
    image: &[u8],
    words: &mut [u32],
    header: &mut [u32; 57],
    window: &mut [u64; 3],
) -> u32
    ensures header_after { reply result header.new
        ≡ dol_reply header.old (open_dol_answer image.now (length words.old)) }
    ensures window_after { reply result window.new
        ≡ dol_window_reply window.old (open_dol_answer image.now (length words.old)) }
    ensures words_zero { words.new ≡ zeros words.old }
{
    match disc::open_dol(image, words) {
        Ok(file) => {
            *header = slots::dol_words(file.header);
            give(window, Ok(slots::window_words(file.window)))
        }
        Err(cause) => cause.into(),
    }
}
