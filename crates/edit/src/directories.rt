// Make-directories (unplug's `make_directories_from`): the troubles along the path, then the table with the
// directories that are missing, and only then the image is written. All of them or none.

ghost use Rattle.std.specs.Prelude.{◌≡◌, length};
ghost use Rattle.tree.specs.Inner.WellFormed.{IsWellFormed};
ghost use Rattle.edit_rules.specs.Edits as edits_of;
ghost use Rattle.edit_rules.specs.Edits.{plan_of};
ghost use Rattle.edit.specs.Inner.Decision.{Decides};
ghost use Rattle.edit.specs.Inner.Walk.{path_verdict};

use crate::decision::Decision;
use crate::{making, table_only, trouble};
use opened::OpenDisc;
use refusal::{Refusal, Verdict};
use table::Table;
use table_writing::Growing;
use tree::PATH_LIMIT;

// Kept: a path and the entry that it starts from go side by side, as users give them; both calls use them
// once.
// The tests that need no memory: a path over the limit 9, then 15, and the troubles along the path 13, 17,
// 18, 12.
#[tactic(auto, unfolding(crate::specs::Inner::Walk::path_verdict))]
fn check_path(disc: &OpenDisc<'_>, start: u32, path: &[u8]) -> Verdict
    ensures answer { result ≡ path_verdict disc.now.disc.nodes start path.now }
    ensures well_formed { IsWellFormed disc.now.disc.nodes }
{
    let table = Table::new(disc.table());
    if PATH_LIMIT < path.len() {
        return Err(Refusal::LimitOrMemory);
    }
    trouble::trouble(table, start as usize, path)
}

/// The directories that are missing along the path from the entry `start`, each the last child of the one
/// before: the tests of the path, then those of the new table, which stands in the bytes where it is decided
/// on. The number is the entry's that the path leads to.
pub fn make_directories(
    disc: &OpenDisc<'_>,
    bytes: &mut [u8],
    start: u32,
    path: &[u8],
) -> Result<Decision, Refusal>
    ensures { let asked = edits_of.make_directories start path.now in
        Decides (plan_of asked disc.now.disc) disc.now (length bytes.old) bytes.new result }
{
    check_path(disc, start, path)?;
    let size = table_only::start_table(disc, bytes)?;
    let mut table = Growing::new(bytes, size, table_only::lent_words(disc));
    let entry = making::make_along(&mut table, start as usize, path)?;
    table_only::place_table(disc, &table, entry as u32)
}
