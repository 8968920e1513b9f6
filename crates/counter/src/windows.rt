// The calls on a window, which stands in three slots: start, length, position.
ghost use Rattle.std.specs.Prelude.{◌≡◌, length};
ghost use Rattle.window.specs.Window.{seek_of, count_of, window_after_read, buffer_of};
ghost use Rattle.std.specs.declared.io.SeekFrom.TheVariants.{Start, Current, End};
ghost use Rattle.disc.specs.Files.{open_file_answer};
ghost use Rattle.opened.specs.Opening.{zeros};
ghost use Rattle.counter.specs.Replies.{reply, reply_of, window_in, window_words};

use crate::answer::give;
use crate::slots;
use window::SeekFrom;

#[unsafe(no_mangle)]
pub extern "C" fn counter_open_file(
    image: &[u8],
    words: &mut [u32],
    number: u32,
    window: &mut [u64; 3],
) -> u32
    ensures answer { reply result window.new
        ≡ reply_of window_words window.old
        (open_file_answer image.now (length words.old) number) }
    ensures words_zero { words.new ≡ zeros words.old }
{
    give(
        window,
        disc::open_file(image, words, number).map(slots::window_words),
    )
}

fn seek(window: &mut [u64; 3], to: SeekFrom) -> u32
    ensures { reply result window.new
        ≡ reply_of window_words window.old (seek_of (window_in window.old) to) }
{
    let sought = slots::window_in(window).seek(to);
    give(window, sought.map(slots::window_words))
}

#[unsafe(no_mangle)]
pub extern "C" fn counter_seek_start(window: &mut [u64; 3], position: u64) -> u32
    ensures { reply result window.new
        ≡ reply_of window_words window.old (seek_of (window_in window.old) (Start position)) }
{
    seek(window, SeekFrom::Start(position))
}

#[unsafe(no_mangle)]
pub extern "C" fn counter_seek_current(window: &mut [u64; 3], distance: i64) -> u32
    ensures { reply result window.new
        ≡ reply_of window_words window.old (seek_of (window_in window.old) (Current distance)) }
{
    seek(window, SeekFrom::Current(distance))
}

#[unsafe(no_mangle)]
pub extern "C" fn counter_seek_end(window: &mut [u64; 3], distance: i64) -> u32
    ensures { reply result window.new
        ≡ reply_of window_words window.old (seek_of (window_in window.old) (End distance)) }
{
    seek(window, SeekFrom::End(distance))
}

// Never refused: the answer is how many bytes were read, and the window has moved on by them.
#[unsafe(no_mangle)]
pub extern "C" fn counter_read(
    window: &mut [u64; 3],
    image: &[u8],
    buf: &mut [u8],
    answer: &mut u64,
) -> u32
    ensures number { result ≡ 0 }
    ensures count { answer.new
        ≡ count_of (window_in window.old) (length image.now) (length buf.old) }
    ensures moved_on { let before = window_in window.old in
        let count = count_of before (length image.now) (length buf.old) in
        window.new ≡ window_words (window_after_read before count) }
    ensures buffer { buf.new ≡ buffer_of (window_in window.old) image.now buf.old }
{
    let read = slots::window_in(window).read(image, buf);
    *window = slots::window_words(read.window);
    give(answer, Ok(read.count as u64))
}
