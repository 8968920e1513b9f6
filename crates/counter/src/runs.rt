// The call on a run of bytes for a large file.
ghost use Rattle.std.specs.Prelude.{◌≡◌, length};
ghost use Rattle.clearing.specs.Clearing.{clear_answer};
ghost use Rattle.opened.specs.Opening.{zeros};
ghost use Rattle.counter.specs.Replies.{reply, reply_of};
ghost use Rattle.counter.specs.Replies as replies;

use crate::answer::give;
use clearing::CheapestRun;

// Kept: four words, since an `Option` has no such form in C, where all four are 0 if none was tried (C).
fn run_words(found: Option<CheapestRun>) -> [u32; 4]
    ensures { result ≡ replies.run_words found }
{
    match found {
        None => [0; 4],
        Some(run) => [run.tried, run.offset, run.cost, run.bound],
    }
}

#[unsafe(no_mangle)]
pub extern "C" fn counter_clear(
    image: &[u8],
    words: &mut [u32],
    size: u32,
    budget: u32,
    answer: &mut [u32; 4],
) -> u32
    ensures answer { reply result answer.new
        ≡ reply_of replies.run_words answer.old
        (clear_answer image.now (length words.old) size budget) }
    ensures words_zero { words.new ≡ zeros words.old }
{
    give(
        answer,
        clearing::clear_run(image, words, size, budget).map(run_words),
    )
}
