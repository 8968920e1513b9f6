// A new master.
ghost use Rattle.std.specs.Prelude.{◌≡◌, length};
ghost use Rattle.opened.specs.Opening.{zeros};
ghost use Rattle.counter.specs.Replies.{number_told};
ghost use Rattle.master.specs.Master.{master_verdict, image_with_master};
ghost use Rattle.master.specs.Asked.{wished};

use crate::answer::give;
use master::Master;

// Kept: all that is wished for one by one, as C passes it (C).
#[unsafe(no_mangle)]
pub extern "C" fn counter_master(
    image: &mut [u8],
    words: &mut [u32],
    bytes: &mut [u8],
    game_code: &[u8; 4],
    disc_end: u32,
    sizes: &[u32],
    paths: &[u8],
) -> u32
    ensures answer { let asked = wished game_code.now disc_end sizes.now paths.now in
        result ≡ number_told
        (master_verdict asked (length image.old) (length words.old) (length bytes.old)) }
    ensures image_after { let asked = wished game_code.now disc_end sizes.now paths.now in
        image.new ≡ image_with_master asked image.old (length words.old) (length bytes.old) }
    ensures words_zero { words.new ≡ zeros words.old }
    ensures bytes_zero { bytes.new ≡ zeros bytes.old }
{
    let master = Master {
        game_code: *game_code,
        disc_end,
        sizes,
        paths,
    };
    give(&mut (), master::write_master(image, master, words, bytes))
}
