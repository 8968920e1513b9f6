// The listing of an image as text, and what the listing program writes.
ghost use Rattle.std.specs.Prelude.{◌≡◌, ℕ, List, length};
ghost use Rattle.endian.specs.Bytes.{put};
ghost use Rattle.opened.specs.Opening.{zeros};
ghost use Rattle.opened.specs.Answers.{answer_behind};
ghost use Rattle.listing.specs.Inner.Writing.{Appends};
ghost use Rattle.listing.specs.Inner.Fits.{IsLaid, size_or_zero, listed_or, laid_or, disc_text};
ghost use Rattle.listing.specs.Listing.{listing_text, list_answer, list_buffer, refused_text};
ghost use Rattle.listing.specs.Listing.{report_verdict, report_answer, report_buffer};

use crate::buffer::TextBuffer;
use crate::{entries, lines, regions};
use opened::{Lent, OpenDisc};
use refusal::Refusal;
use table::Table;

// Appends the lines of an open disc.
fn push_disc(text: &mut TextBuffer<'_>, disc: &OpenDisc<'_>)
    ensures { Appends text.old text.new (disc_text disc.now.disc) }
{
    let table = Table::new(disc.table());
    let used = disc.used_regions();
    lines::put_totals(text, disc.end(), used.used_size());
    entries::put_entries(&table, text);
    regions::put_regions(&used, text);
}

// What `put` appends, in front of a text that has room for it: its length. It is measured first, so
// that a text that is too short stays as it is.
fn put_whole<F: Fn(&mut TextBuffer<'_>)>(text: &mut [u8], put: F) -> Option<usize>
    requires { F.IsAlwaysCallable put }
    ensures { (bs : List ℕ)
        → ((t t' : _) → F.post put t tt t' → Appends t.now t'.now bs)
        → IsLaid text.old text.new result bs }
{
    // Kept: a single byte is lent, in which nothing but the length is told.
    let mut byte = [0; 1];
    let mut measured = TextBuffer::new(&mut byte);
    put(&mut measured);
    let size = measured.len;
    if text.len() < size {
        return None;
    }
    let mut whole = TextBuffer::new(text);
    put(&mut whole);
    Some(size)
}

// The listing of an open disc.
fn list_disc(disc: &OpenDisc<'_>, text: &mut [u8]) -> Result<usize, Refusal>
    ensures answer { result ≡ listed_or (length text.old) (disc_text disc.now.disc) }
    ensures text_after { text.new ≡ laid_or text.old (disc_text disc.now.disc) }
{
    put_whole(text, |buffer| push_disc(buffer, disc)).ok_or(Refusal::LimitOrMemory)
}

// The listing of an image, the words left as opening leaves them.
// Kept: image, words and text one by one, here and in the three functions below that have them (N):
// the image is only read, the words are zeroed and the text is written, each apart, and a struct of
// three loans would have each contract name the loan of each field.
fn list_image(image: &[u8], words: &mut [u32], text: &mut [u8]) -> Result<usize, Refusal>
    ensures answer { result ≡ list_answer image.now (length words.old) (length text.old) }
    ensures text_after { text.new ≡ list_buffer image.now (length words.old) text.old }
{
    let disc = OpenDisc::of_image(image, words)?;
    list_disc(&disc, text)
}

/// The listing of an image, in front of `text`: its length in bytes. Refused by opening, or 9 if
/// the text is too short; then it stays as it was.
pub fn list(image: &[u8], words: &mut [u32], text: &mut [u8]) -> Result<usize, Refusal>
    ensures answer { result ≡ list_answer image.now (length words.old) (length text.old) }
    ensures text_after { text.new ≡ list_buffer image.now (length words.old) text.old }
    ensures words_zero { words.new ≡ zeros words.old }
{
    let lent = Lent::new(words);
    list_image(image, lent.memory, text)
}

// ---- the listing program

// Appends the fixed text `refused `, the number and a line feed.
fn push_refused(text: &mut TextBuffer<'_>, cause: Refusal)
    ensures { Appends text.old text.new (refused_text cause) }
{
    text.push_text(b"refused ");
    text.push_decimal(u64::from(cause.number()));
    text.push(b'\n');
}

// The same for a buffer that has room for it; otherwise nothing.
fn write_refused(text: &mut [u8], cause: Refusal) -> usize
    ensures answer { result ≡ size_or_zero (length text.old) (refused_text cause) }
    ensures text_after { text.new ≡ laid_or text.old (refused_text cause) }
{
    put_whole(text, |buffer| push_refused(buffer, cause)).unwrap_or(0)
}

/// The listing program takes no more bytes than this: more is 9.
const INPUT_LIMIT: usize = 65536;

// The listing of an image of at most so many bytes.
fn list_small(image: &[u8], words: &mut [u32], text: &mut [u8]) -> Result<usize, Refusal>
    ensures answer { result
        ≡ answer_behind (report_verdict image.now (length words.old) (length text.old)) Err
        (Ok (length (listing_text image.now))) }
    ensures text_after { text.new
        ≡ answer_behind (report_verdict image.now (length words.old) (length text.old))
        (λ c. text.old)
        (put text.old 0 (listing_text image.now)) }
    ensures words_zero { words.new ≡ zeros words.old }
{
    let lent = Lent::new(words);
    if INPUT_LIMIT < image.len() {
        return Err(Refusal::LimitOrMemory);
    }
    list_image(image, lent.memory, text)
}

/// What the program writes for its input, in front of `text`: the listing, or `refused ` and the
/// number. Gives its length in bytes; 0, with the text as it was, if it is too short even for a
/// refusal.
pub fn report(image: &[u8], words: &mut [u32], text: &mut [u8]) -> usize
    ensures answer { result ≡ report_answer image.now (length words.old) (length text.old) }
    ensures text_after { text.new ≡ report_buffer image.now (length words.old) text.old }
    ensures words_zero { words.new ≡ zeros words.old }
{
    match list_small(image, words, text) {
        Ok(size) => size,
        Err(cause) => write_refused(text, cause),
    }
}
