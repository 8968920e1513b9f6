// The executable of an image: its header, and the window that shows it.
ghost use Rattle.std.specs.Prelude.{◌≡◌, length};
ghost use Rattle.std.specs.Result.{result_and};
ghost use Rattle.disc.specs.Files.{dol_file_of, open_dol_answer};
ghost use Rattle.executable.specs.Dol.{dol_verdict_of};
ghost use Rattle.header.specs.Verdicts.{dol_offset};
ghost use Rattle.opened.specs.Opening.{zeros};

use crate::answers::DolFile;
use opened::{Lent, OpenDisc};
use refusal::Refusal;

// The answer of an image that opened.
fn dol_in(image: &[u8]) -> Result<DolFile, Refusal>
    ensures { let verdict = dol_verdict_of image.now (dol_offset image.now) in
        result ≡ result_and verdict (Ok (dol_file_of image.now)) }
{
    let at = header::dol_offset(image);
    let answer = executable::dol::read(image, at as usize)?;
    let header = answer.header;
    let window = answer.window(at);
    Ok(DolFile { header, window })
}

/// The executable at the DOL offset: its header, and the window that shows it.
pub fn open_dol(image: &[u8], words: &mut [u32]) -> Result<DolFile, Refusal>
    ensures answer { result ≡ open_dol_answer image.now (length words.old) }
    ensures words_zero { words.new ≡ zeros words.old }
{
    let lent = Lent::new(words);
    OpenDisc::of_image(image, lent.memory)?;
    dol_in(image)
}
