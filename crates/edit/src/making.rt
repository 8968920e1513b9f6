// The table that grows by the directories of a path. No trouble stands on the path, so that what is missing
// may be made.
ghost use Rattle.std.specs.Prelude.{◌≡◌, Ok, false, [], ◌<◌, length};
ghost use Rattle.tree.specs.Lookup.{components};
ghost use Rattle.edit_rules.specs.Edits.{make};
ghost use Rattle.edit_rules.specs.Inner.Troubles.{made_verdict};
ghost use Rattle.table_writing.specs.Inner.Growing.{growing_tree};
ghost use Rattle.edit.specs.Inner.Making.{turn_of, CanTurn, Reaches};

use refusal::Refusal;
use table::Components;
use table_writing::{Growing, Kind};

// From a directory along one component: empty and `.` stay, `..` goes back, any other leads to the child with
// that name, or into a directory that is made for it; 9 if there is no room for one.
#[tactic(auto, unfolding(crate::specs::Inner::Making::turn_of))]
fn step(table: &mut Growing<'_>, entry: usize, name: &[u8]) -> Result<usize, Refusal>
    requires { CanTurn (growing_tree table.old) entry name.now }
    ensures reaches { let room = length table.old.bytes.now in
        Reaches (turn_of (growing_tree table.old) entry name.now) room table.new result }
    ensures same_words { table.new.words ≡ table.old.words }
    ensures same_length { length table.new.bytes.now ≡ length table.old.bytes.now }
    ensures same_reference { table.new.bytes.ghost_name ≡ table.old.bytes.ghost_name }
{
    if table::is_staying(name) {
        return Ok(entry);
    }
    if table::is_going_back(name) {
        return Ok(table.parent(entry));
    }
    match table.child(entry, name) {
        Ok(child) => Ok(child as usize),
        Err(_) => table.grow(entry, Kind::Directory, name),
    }
}

/// Along the components of a path from the entry `start`, to the entry where it ends; 9 once there is no room
/// for a directory, since there is none for the whole then.
pub fn make_along(table: &mut Growing<'_>, start: usize, path: &[u8]) -> Result<usize, Refusal>
    requires start_inside { start < length (growing_tree table.old) }
    requires untroubled { let parts = components path.now in
        made_verdict (make (growing_tree table.old) [] start false parts) ≡ Ok tt }
    ensures reaches { let parts = components path.now in
        let room = length table.old.bytes.now in
        Reaches (make (growing_tree table.old) [] start false parts) room table.new result }
    ensures same_words { table.new.words ≡ table.old.words }
    ensures same_length { length table.new.bytes.now ≡ length table.old.bytes.now }
    ensures same_reference { table.new.bytes.ghost_name ≡ table.old.bytes.ghost_name }
{
    let mut entry = start;
    for name in Components::new(path) {
        entry = step(table, entry, name)?;
    }
    Ok(entry)
}
