// What a refusal of opening is about.
ghost use Rattle.std.specs.Prelude.{◌≡◌, length};
ghost use Rattle.opened.specs.Opening.{zeros};
ghost use Rattle.opened.specs.Faults.{fault_of};

use opened::{Fault, Lent, OpenDisc};

/// What opening refuses an image for, and what of it that is about; `None` where the image opens.
pub fn fault(image: &[u8], words: &mut [u32]) -> Option<Fault>
    ensures answer { result ≡ fault_of image.now (length words.old) }
    ensures words_zero { words.new ≡ zeros words.old }
{
    let room = words.len();
    let lent = Lent::new(words);
    match OpenDisc::of_image(image, lent.memory) {
        Ok(_) => None,
        Err(cause) => Some(Fault {
            cause,
            about: opened::subject(image, room),
        }),
    }
}
