// All entries of an image at once, so that a listing costs one opening.
ghost use Rattle.std.specs.Prelude.{◌≡◌, length};
ghost use Rattle.disc.specs.Files.{entries_answer, entries_list};
ghost use Rattle.opened.specs.Opening.{zeros};

use opened::{Lent, OpenDisc, Summary};
use refusal::Refusal;
use table::Table;

/// Each entry into `list`: kind, the directory it is nested in, offset, size or next, the place of
/// its name in the image, the name's length. The answer is that of `open`; refuses 9, with nothing
/// written, if the list is short.
#[tactic(auto, using(crate::proofs::Asked::not_asked), unfolding(crate::specs::Files::entries_answer))]
pub fn entries(image: &[u8], words: &mut [u32], list: &mut [u32]) -> Result<Summary, Refusal>
    ensures answer { result ≡ entries_answer image.now (length words.old) (length list.old) }
    ensures list_after { list.new ≡ entries_list image.now (length words.old) list.old }
    ensures words_zero { words.new ≡ zeros words.old }
{
    let lent = Lent::new(words);
    let disc = OpenDisc::of_image(image, lent.memory)?;
    table::list_entries(&Table::new(disc.table()), disc.start(), list)?;
    Ok(opened::told(&disc))
}
