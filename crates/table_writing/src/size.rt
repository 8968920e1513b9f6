// The size of the file table written anew: 12 bytes for the root, 13 and its name for each further entry.

ghost use Rattle.std.specs.Prelude.{◌≡◌, ◌+◌, ◌*◌, ◌≤◌, length};
ghost use Rattle.tree.specs.Table.{count};
ghost use Rattle.table_writing.specs.Inner.Flat.{after_in};
ghost use Rattle.table_writing.specs.Inner.Valid.{IsValid};
ghost use Rattle.table_writing.specs.Inner.Measure.{measure_of};

use crate::kind::Kind;
use crate::source::Source;
use refusal::Refusal;
use table::fields;

/// The entry after k in its directory, where a writer goes on. What is no directory is one entry long.
pub fn after(table: &[u8], k: usize) -> usize
    requires { 12 * k + 12 ≤ length table.now }
    ensures { result ≡ after_in table.now k }
{
    match Kind::from_number(table[12 * k]) {
        Some(Kind::Directory) => fields::size_or_next(table, k) as usize,
        _ => k + 1,
    }
}

/// The size in bytes of what `write_table` writes; 9 if its texts pass the limit.
pub fn measure(table: &[u8]) -> Result<usize, Refusal>
    requires { IsValid table.now (count table.now) }
    ensures { result ≡ measure_of table.now }
{
    Source::new(table).measure()
}
