// Edits that write the table alone: the tree of the disc, from which the new table grows, and the new table
// judged and decided on.
ghost use Rattle.std.specs.Prelude.{◌≡◌, length, IfOk, OnErr};
ghost use Rattle.table_writing.specs.Inner.Growth.{tree_in, Stands, IsBuilt};
ghost use Rattle.table_writing.specs.Inner.Growing.{growing_tree};
ghost use Rattle.edit_rules.specs.Change.{change};
ghost use Rattle.edit_rules.specs.Edits.{table_change};
ghost use Rattle.edit.specs.Inner.Decision.{Decides};

use crate::decision::{Decision, Writing};
use crate::place;
use opened::OpenDisc;
use refusal::Refusal;
use table_writing::Growing;

/// How many words are lent, which limits the number of entries.
pub fn lent_words(disc: &OpenDisc<'_>) -> usize
    ensures { result ≡ disc.now.words }
{
    disc.words.len()
}

/// Writes the tree of the disc anew into the bytes, and gives the size of its table; 9 if its texts pass the
/// limit or the bytes are too few, which then stay as they were.
pub fn start_table(disc: &OpenDisc<'_>, bytes: &mut [u8]) -> Result<usize, Refusal>
    ensures built { IsBuilt disc.now.disc.nodes disc.now.words bytes.old bytes.new result }
    ensures table { IfOk result (λ size. Stands bytes.new size disc.now.words) }
    ensures tree { IfOk result (λ size. tree_in bytes.new size ≡ disc.now.disc.nodes) }
    ensures kept { OnErr result (bytes.new ≡ bytes.old) }
{
    let table = disc.table();
    let size = table_writing::measure(table)?;
    if bytes.len() < size {
        return Err(Refusal::LimitOrMemory);
    }
    place::write_table(table, bytes);
    Ok(size)
}

/// Judges the size of a table that grew and its place on the disc, and decides to write it, for the entry of
/// that number.
pub fn place_table(
    disc: &OpenDisc<'_>,
    table: &Growing<'_>,
    number: u32,
) -> Result<Decision, Refusal>
    requires { table.now.words ≡ disc.now.words }
    ensures { Decides (change number (table_change (growing_tree table.now)))
        disc.now (length table.now.bytes.now) table.now.bytes.now result }
{
    place::check_place(disc, table.bytes.len(), table.size, Writing::NOTHING.place)?;
    Ok(Decision::Write {
        number,
        size: table.size,
        writing: Writing::NOTHING,
    })
}
