// An image's entries: by number, by path; a file's window and the size it can grow to.
ghost use Rattle.std.specs.Prelude.{◌≡◌, length};
ghost use Rattle.tree.specs.Lookup.{entry_found};
ghost use Rattle.opened.specs.Opening.{zeros};
ghost use Rattle.disc.specs.Files.{path_found, entry_answer, lookup_answer, file_answer};
ghost use Rattle.disc.specs.Files.{open_file_answer, max_file_size_answer};

use opened::{Lent, OpenDisc};
use refusal::Refusal;
use table::Table;
use tree::{Entry, FileEntry, Found, PATH_LIMIT};
use window::Window;

// Kept: image and words, here and in `rows`, are what a caller lends to each call, as C does.

// Entry `number` of a disc.
fn entry_in(disc: &OpenDisc<'_>, number: u32) -> Found
    ensures { result ≡ entry_found disc.now.disc.nodes number }
{
    Table::new(disc.table()).entry(number)
}

// The entry of a disc that a path of at most 1,024 bytes leads to.
fn found_in(disc: &OpenDisc<'_>, start: u32, path: &[u8]) -> Found
    ensures { result ≡ path_found disc.now.disc.nodes start path.now }
{
    if PATH_LIMIT < path.len() {
        return Found::Refused(Refusal::LimitOrMemory);
    }
    table::find(&Table::new(disc.table()), start, path)
}

// The place of file `number` of a disc: 15, then 16.
fn file_in(disc: &OpenDisc<'_>, number: u32) -> Result<FileEntry, Refusal>
    ensures { result ≡ file_answer Ok (entry_found disc.now.disc.nodes number) }
{
    match entry_in(disc, number) {
        Found::At(_, Entry::File(file)) => Ok(file),
        Found::At(_, Entry::Directory(_)) => Err(Refusal::ExpectedFile),
        Found::Refused(cause) => Err(cause),
    }
}

/// Entry `number`.
#[tactic(auto, using(crate::proofs::Asked::not_asked), unfolding(crate::specs::Files::entry_answer))]
pub fn entry(image: &[u8], words: &mut [u32], number: u32) -> Found
    ensures answer { result ≡ entry_answer image.now (length words.old) number }
    ensures words_zero { words.new ≡ zeros words.old }
{
    let lent = Lent::new(words);
    match OpenDisc::of_image(image, lent.memory) {
        Ok(disc) => entry_in(&disc, number),
        Err(cause) => Found::Refused(cause),
    }
}

/// The entry that a path leads to from the entry `start`. Refuses 9 for a path of more than 1,024
/// bytes, then 15, 17 and 18.
#[tactic(auto, using(crate::proofs::Asked::not_asked), unfolding(crate::specs::Files::lookup_answer))]
pub fn lookup(image: &[u8], words: &mut [u32], start: u32, path: &[u8]) -> Found
    ensures answer { result ≡ lookup_answer image.now (length words.old) start path.now }
    ensures words_zero { words.new ≡ zeros words.old }
{
    let lent = Lent::new(words);
    match OpenDisc::of_image(image, lent.memory) {
        Ok(disc) => found_in(&disc, start, path),
        Err(cause) => Found::Refused(cause),
    }
}

/// The window that shows file `number`.
pub fn open_file(image: &[u8], words: &mut [u32], number: u32) -> Result<Window, Refusal>
    ensures answer { result ≡ open_file_answer image.now (length words.old) number }
    ensures words_zero { words.new ≡ zeros words.old }
{
    let lent = Lent::new(words);
    let disc = OpenDisc::of_image(image, lent.memory)?;
    let file = file_in(&disc, number)?;
    Ok(Window::new(file.offset as u64, file.size as u64))
}

/// The size in bytes that file `number` can grow to where it is.
pub fn max_file_size(image: &[u8], words: &mut [u32], number: u32) -> Result<u32, Refusal>
    ensures answer { result ≡ max_file_size_answer image.now (length words.old) number }
    ensures words_zero { words.new ≡ zeros words.old }
{
    let lent = Lent::new(words);
    let disc = OpenDisc::of_image(image, lent.memory)?;
    let file = file_in(&disc, number)?;
    Ok(disc.max_region_size(file.offset, file.size))
}
