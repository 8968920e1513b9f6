// The table that a rewrite would write, with no edit made.
ghost use Rattle.std.specs.Prelude.{◌≡◌, length};
ghost use Rattle.opened.specs.Opening.{zeros};
ghost use Rattle.edit.specs.TableAnew.{anew_answer, anew_buffer};

use crate::table_only;
use opened::{Lent, OpenDisc};
use refusal::Refusal;

/// Writes the table that a rewrite of the image's tree writes, with no name shared, in front of `table`, and
/// gives its length in bytes. Refuses what opening refuses, and 9 where the written texts pass the limit or
/// `table` is too short; `table` then stays as it was. Whether the disc has a place for it is not tested.
pub fn table_anew(image: &[u8], words: &mut [u32], table: &mut [u8]) -> Result<u32, Refusal>
    ensures answer { result ≡ anew_answer image.now (length words.old) (length table.old) }
    ensures table_after { table.new ≡ anew_buffer image.now (length words.old) table.old }
    ensures words_zero { words.new ≡ zeros words.old }
{
    let lent = Lent::new(words);
    let disc = OpenDisc::of_image(image, lent.memory)?;
    let size = table_only::start_table(&disc, table)?;
    Ok(size as u32)
}
