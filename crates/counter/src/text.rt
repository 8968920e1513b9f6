// The listing of an image as text.
ghost use Rattle.std.specs.Prelude.{◌≡◌, length};
ghost use Rattle.opened.specs.Opening.{zeros};
ghost use Rattle.listing.specs.Listing.{list_answer, list_buffer, report_answer, report_buffer};
ghost use Rattle.counter.specs.Replies.{reply, accepted_reply, reply_of, one_word};

use crate::answer::give;

#[unsafe(no_mangle)]
pub extern "C" fn counter_list(
    image: &[u8],
    words: &mut [u32],
    text: &mut [u8],
    answer: &mut u64,
) -> u32
    ensures answer { reply result (one_word answer.new)
        ≡ reply_of one_word (one_word answer.old)
        (list_answer image.now (length words.old) (length text.old)) }
    ensures text_after { text.new ≡ list_buffer image.now (length words.old) text.old }
    ensures words_zero { words.new ≡ zeros words.old }
{
    match listing::list(image, words, text) {
        Ok(length) => give(answer, Ok(length as u64)),
        Err(cause) => give(answer, Err(cause)),
    }
}

// What the listing program writes; never refused.
#[unsafe(no_mangle)]
pub extern "C" fn counter_report(
    image: &[u8],
    words: &mut [u32],
    text: &mut [u8],
    answer: &mut u64,
) -> u32
    ensures answer { reply result (one_word answer.new)
        ≡ accepted_reply (one_word (report_answer image.now (length words.old) (length text.old))) }
    ensures text_after { text.new ≡ report_buffer image.now (length words.old) text.old }
    ensures words_zero { words.new ≡ zeros words.old }
{
    let length = listing::report(image, words, text);
    give(answer, Ok(length as u64))
}
