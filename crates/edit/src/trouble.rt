// The troubles along a path: 13, 17, 18, and 12 last. They need no memory: below the tree as it is only the
// number of new levels counts, since each directory there is one that the walk made.
ghost use Rattle.std.specs.Prelude.{◌≡◌, ◌<◌, ◌^◌, length};
ghost use Rattle.tree.specs.Table.{nodes_of};
ghost use Rattle.edit.specs.Inner.Walk.{path_trouble};

use crate::walk::Walk;
use refusal::Verdict;
use table::{Components, Table};

/// The first trouble along the path from the entry `start`: 15, then along the path 13, 17, 18, and 12 last.
pub fn trouble(table: Table<'_>, start: usize, path: &[u8]) -> Verdict
    requires { length path.now < 2 ^ 63 }
    ensures { result ≡ path_trouble (nodes_of table.entry) start path.now }
{
    let mut walk = Walk::new(table, start)?;
    for name in Components::new(path) {
        walk = walk.step(name)?;
    }
    walk.end()
}
