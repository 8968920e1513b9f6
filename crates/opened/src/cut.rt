// The parts of an image in memory.
ghost use Rattle.std.specs.Prelude.{◌≡◌};
ghost use Rattle.endian.specs.Bytes.{span};
ghost use Rattle.opened.specs.Opening as opening;
ghost use Rattle.opened.specs.Inner.Parts.{ArePartsOf};

use crate::parts::Parts;

// What the image has of the `size` bytes from `from` on.
fn cut(image: &[u8], from: usize, size: usize) -> &[u8]
    ensures { result.now ≡ span image.now from size }
{
    let start = from.min(image.len());
    let n = size.min(image.len() - start);
    &image[start..start + n]
}

// The bytes of the file table, as far as the image has them.
#[tactic(auto, unfolding(crate::specs::Opening::table_of))]
pub fn table_of(image: &[u8]) -> &[u8]
    ensures { result.now ≡ opening.table_of image.now }
{
    cut(
        image,
        header::fst_offset(image) as usize,
        header::fst_size(image) as usize,
    )
}

pub fn parts_of(image: &[u8]) -> Parts<'_>
    ensures { ArePartsOf image.now result }
{
    let header = cut(image, 0, header::HEADER_LEN);
    let table = table_of(image);
    let program = cut(
        image,
        header::dol_offset(image) as usize,
        executable::DOL_HEADER_LEN,
    );
    Parts {
        header,
        table,
        program,
        length: image.len() as u64,
    }
}
