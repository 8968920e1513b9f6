// The program that a nonzero DOL offset means, and what it takes of the space behind the table.
ghost use Rattle.std.specs.Prelude.{◌≡◌};
ghost use Rattle.executable.specs.Program as programs;
ghost use Rattle.executable.specs.Program.{program_of, place_of};
ghost use Rattle.executable.specs.Inner.Reading.{program_at};

use crate::dol;
use refusal::Refusal;
use space::DiscRegion;

/// Where the program of an image lies, `None` if it has none; or the cause for which its header is refused.
pub type Program = Result<Option<DiscRegion>, Refusal>;

// A region without a byte.
// Kept: no `Option`, which is no plainer: the definitions have such a region (`no_region`), and it is passed
// over among the used ones, as an empty file's is.
const NOWHERE: DiscRegion = DiscRegion { offset: 0, size: 0 };

/// The program at that DOL offset: none at 0; elsewhere from there on, as long as its file, and at least its
/// header, which stands at `at` in the bytes.
pub fn read_at(dol_offset: u32, bytes: &[u8], at: usize) -> Program
    ensures { result ≡ program_at dol_offset bytes.now at }
{
    if dol_offset == 0 {
        return Ok(None);
    }
    let size = dol::size(bytes, at)?.max(dol::DOL_HEADER_LEN as u32);
    Ok(Some(DiscRegion {
        offset: dol_offset,
        size,
    }))
}

/// The program of an image.
#[tactic(auto, unfolding(crate::specs::Program::program_of, crate::specs::Inner::Reading::program_at))]
pub fn read(image: &[u8]) -> Program
    ensures { result ≡ program_of image.now }
{
    let offset = header::dol_offset(image);
    read_at(offset, image, offset as usize)
}

// Whether the region lies wholly between the header and the table.
fn is_before_table(region: DiscRegion, fst_offset: u32) -> bool
    ensures { result ≡ programs.is_before_table fst_offset region }
{
    let end = u64::from(region.offset) + u64::from(region.size);
    header::HEADER_LEN as u32 <= region.offset && end <= u64::from(fst_offset)
}

/// What the program uses besides the bytes up to the table's end: nothing where it lies before the table.
#[tactic(auto, unfolding(crate::specs::Program::own_region))]
pub fn own_region(program: Program, fst_offset: u32) -> DiscRegion
    ensures { result ≡ programs.own_region fst_offset (place_of program) }
{
    match program {
        Ok(Some(region)) if !is_before_table(region, fst_offset) => region,
        _ => NOWHERE,
    }
}
