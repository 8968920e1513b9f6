// An entry by its path.
ghost use Rattle.std.specs.Prelude.{◌≡◌, [], ◌∷◌, ◌<◌, ◌^◌, List, ℕ, IfOk, length};
ghost use Rattle.tree.specs.Table as table_of;
ghost use Rattle.tree.specs.Table.{nodes_of};
ghost use Rattle.tree.specs.Lookup as lookup_of;
ghost use Rattle.tree.specs.Lookup.{components, found_of};
ghost use Rattle.table.specs.Inner.Held.{IsTable};
ghost use Rattle.table.specs.Inner.Steps.{IsTrail, lookup_onward};

use crate::components::Components;
use crate::entries::Table;
use crate::stack::Stack;
use refusal::Refusal;
use tree::Found;

/// Empty and `.` stay.
pub fn is_staying(name: &[u8]) -> bool
    ensures { result ≡ lookup_of.is_staying name.now }
{
    matches!(name, b"" | b".")
}

/// `..` goes back over the last named step.
// Kept: a `bool` (N): it answers a question, asked in an `if`, and its name is public.
pub fn is_going_back(name: &[u8]) -> bool
    ensures { result ≡ lookup_of.is_going_back name.now }
{
    matches!(name, b"..")
}

// One component, and where it leads: a file is `ExpectedDirectory`; empty and `.` stay, `..` goes back to the
// entry that the last named step left, any other is a child's name. The trail has the entries that were left:
// 65 at most, since no directory is deeper than 64.
fn take_step(table: &Table<'_>, trail: &mut Stack, k: usize, name: &[u8]) -> Result<usize, Refusal>
    requires held { IsTable table.now }
    requires trail { IsTrail (nodes_of table.now) trail.old k }
    ensures onward { let nodes = nodes_of table.now in (cs : List (List ℕ)) →
        lookup_of.follow nodes trail.old k (name.now ∷ cs)
        ≡ lookup_onward nodes trail.new cs result }
    ensures trail { IfOk result (λ j. IsTrail (nodes_of table.now) trail.new j) }
{
    if !table.is_directory(k) {
        return Err(Refusal::ExpectedDirectory);
    }
    if is_staying(name) {
        return Ok(k);
    }
    if is_going_back(name) {
        return match trail.pop() {
            Some(left) => Ok(left as usize),
            None => Err(Refusal::NotFound),
        };
    }
    let child = table.child(k, name)?;
    trail.push(k as u32);
    Ok(child as usize)
}

// Along the components of a path.
fn follow(table: &Table<'_>, start: usize, path: &[u8]) -> Result<u32, Refusal>
    requires held { IsTable table.now }
    requires within { start < table_of.count table.now }
    ensures value { result ≡ lookup_of.follow (nodes_of table.now) [] start (components path.now) }
    ensures within { IfOk result (λ k. k < table_of.count table.now) }
{
    let mut trail = Stack::new();
    let mut k = start;
    for name in Components::new(path) {
        k = take_step(table, &mut trail, k, name)?;
    }
    Ok(k as u32)
}

/// The entry that a path leads to from the entry `start`: `NoSuchEntry` past the count, then along the path
/// `ExpectedDirectory` at a file, and `NotFound`.
pub fn lookup(table: &Table<'_>, start: u32, path: &[u8]) -> Result<u32, Refusal>
    requires { length path.now < 2 ^ 63 }
    ensures value { result ≡ lookup_of.lookup (nodes_of table.now) start path.now }
    ensures within { IfOk result (λ k. k < table_of.count table.now) }
{
    let place = start as usize;
    if table.len() <= place {
        return Err(Refusal::NoSuchEntry);
    }
    follow(table, place, path)
}

/// The same, with the entry.
pub fn find(table: &Table<'_>, start: u32, path: &[u8]) -> Found
    requires { length path.now < 2 ^ 63 }
    ensures { let nodes = nodes_of table.now in
        result ≡ found_of nodes (lookup_of.lookup nodes start path.now) }
{
    match lookup(table, start, path) {
        Ok(k) => table.entry(k),
        Err(cause) => Found::Refused(cause),
    }
}
