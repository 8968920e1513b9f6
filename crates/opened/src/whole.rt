// The tests of opening, the last of which leaves the used regions in the lent words.
ghost use Rattle.std.specs.Prelude.{◌≡◌, List, ℕ, Ok, length};
ghost use Rattle.executable.specs.Program.{program_of, program_verdict, program_behind};
ghost use Rattle.opened.specs.Inner.Prepared.{verdict_before24, Prepares};
ghost use Rattle.opened.specs.Inner.Parts.{ArePartsOf, own_as};

use crate::parts::Parts;
use crate::regions::collect;
use executable::Program;
use refusal::{Refusal, Verdict};
use space::DiscRegion;
use table::Table;

// Kept: each contract names the image as a ghost, and says that these are its parts. They say
// nothing of its other bytes, so that the image is no function of them, and no type that holds them
// can say which image it is.

// The tests 1 to 13.
pub fn check_table(parts: Parts<'_>, words: usize) -> Verdict
    ghost image: { List ℕ }
    requires { ArePartsOf image parts }
    ensures { result ≡ verdict_before24 image words }
{
    header::check_bounds_within(parts.header, parts.length)?;
    table::check(parts.table, words)
}

// The program, whose header the image may not hold.
fn read_program(parts: Parts<'_>) -> Program
    ghost image: { List ℕ }
    requires { ArePartsOf image parts }
    ensures { result ≡ program_of image }
{
    let offset = header::dol_offset(parts.header);
    if u64::from(offset) + executable::DOL_HEADER_LEN as u64 <= parts.length {
        executable::program::read_at(offset, parts.program, 0)
    } else {
        executable::program::read_at(offset, &[], 0)
    }
}

// Test 24: the region that the program takes behind the table.
pub fn check_program(parts: Parts<'_>) -> Result<DiscRegion, Refusal>
    ghost image: { List ℕ }
    requires { ArePartsOf image parts }
    ensures { result ≡ own_as (program_of image) (program_behind image) }
{
    let program = read_program(parts)?;
    Ok(executable::own_region(Ok(program), header::fst_offset(parts.header)))
}

// Test 14, which leaves the used regions in order.
pub fn check_used(parts: Parts<'_>, words: &mut [u32], own: DiscRegion) -> Result<usize, Refusal>
    ghost image: { List ℕ }
    requires parts_of { ArePartsOf image parts }
    requires before { verdict_before24 image (length words.old) ≡ (Ok tt) }
    requires accepted { program_verdict (program_of image) ≡ (Ok tt) }
    requires own { own ≡ program_behind image }
    ensures { Prepares image words.new result }
{
    let to = header::table_end(parts.header);
    let end = header::disc_end(parts.header) as u32;
    let table = Table::new(parts.table);
    let count = table.len();
    let m = collect(&table, words, to as u32, own);
    space::check(words, count + 2, m, end)?;
    Ok(m)
}
