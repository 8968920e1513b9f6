// The calls on an image's free regions.
ghost use Rattle.std.specs.Prelude.{◌≡◌, ℕ, ◌^◌, ◌<◌, length};
ghost use Rattle.disc.specs.Calls.{free_regions_answer, free_regions_list};
ghost use Rattle.disc.specs.Calls.{free_clusters_answer, free_clusters_list, allocate_answer};
ghost use Rattle.opened.specs.Opening.{zeros};
ghost use Rattle.opened.specs.Answers.{max_region_size_answer};
ghost use Rattle.disc.specs.Files.{max_file_size_answer};
ghost use Rattle.counter.specs.Replies.{reply, reply_of, one_word, region_words};

use crate::answer::give;
use crate::slots;
use refusal::Refusal;

// How many regions there are; their number fits a slot, since each has a byte below the disc end.
fn give_count(answer: &mut u32, listed: Result<usize, Refusal>) -> u32
    requires { (n : ℕ) → listed ≡ Ok n → n < 2 ^ 32 }
    ensures { reply result (one_word answer.new) ≡ reply_of one_word (one_word answer.old) listed }
{
    match listed {
        Ok(count) => give(answer, Ok(count as u32)),
        Err(cause) => give(answer, Err(cause)),
    }
}

#[unsafe(no_mangle)]
pub extern "C" fn counter_free_regions(
    image: &[u8],
    words: &mut [u32],
    list: &mut [u32],
    answer: &mut u32,
) -> u32
    ensures answer { reply result (one_word answer.new)
        ≡ reply_of one_word (one_word answer.old)
        (free_regions_answer image.now (length words.old) (length list.old)) }
    ensures list_after { list.new ≡ free_regions_list image.now (length words.old) list.old }
    ensures words_zero { words.new ≡ zeros words.old }
{
    give_count(answer, disc::free_regions(image, words, list))
}

#[unsafe(no_mangle)]
pub extern "C" fn counter_free_clusters(
    image: &[u8],
    words: &mut [u32],
    list: &mut [u32],
    answer: &mut u32,
) -> u32
    ensures answer { reply result (one_word answer.new)
        ≡ reply_of one_word (one_word answer.old)
        (free_clusters_answer image.now (length words.old) (length list.old)) }
    ensures list_after { list.new ≡ free_clusters_list image.now (length words.old) list.old }
    ensures words_zero { words.new ≡ zeros words.old }
{
    give_count(answer, disc::free_clusters(image, words, list))
}

#[unsafe(no_mangle)]
pub extern "C" fn counter_max_region_size(
    image: &[u8],
    words: &mut [u32],
    offset: u32,
    size: u32,
    answer: &mut u32,
) -> u32
    ensures answer { reply result (one_word answer.new)
        ≡ reply_of one_word (one_word answer.old)
        (max_region_size_answer image.now (length words.old) offset size) }
    ensures words_zero { words.new ≡ zeros words.old }
{
    give(answer, disc::max_region_size(image, words, offset, size))
}

#[unsafe(no_mangle)]
pub extern "C" fn counter_max_file_size(
    image: &[u8],
    words: &mut [u32],
    number: u32,
    answer: &mut u32,
) -> u32
    ensures answer { reply result (one_word answer.new)
        ≡ reply_of one_word (one_word answer.old)
        (max_file_size_answer image.now (length words.old) number) }
    ensures words_zero { words.new ≡ zeros words.old }
{
    give(answer, disc::max_file_size(image, words, number))
}

#[unsafe(no_mangle)]
pub extern "C" fn counter_allocate(
    image: &[u8],
    words: &mut [u32],
    size: u32,
    align: u32,
    answer: &mut [u32; 2],
) -> u32
    ensures answer { reply result answer.new
        ≡ reply_of region_words answer.old
        (allocate_answer image.now (length words.old) size align) }
    ensures words_zero { words.new ≡ zeros words.old }
{
    give(
        answer,
        disc::allocate(image, words, size, align).map(slots::region_words),
    )
}
