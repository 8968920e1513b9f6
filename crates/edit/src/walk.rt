// A walk along a path that may lead below the tree as it is.
ghost use Rattle.std.specs.Prelude.{◌≡◌, Ok, ◌<◌, ◌^◌};
ghost use Rattle.tree.specs.Table as table_of;
ghost use Rattle.tree.specs.Table.{nodes_of};
ghost use Rattle.edit.specs.Inner.Walk.{walk_from, step_of, back_step, into_step};
ghost use Rattle.edit.specs.Inner.Walk.{plain_name_verdict, directory_verdict, end_verdict};

use refusal::{Refusal, Verdict};
use std::marker::Model;
use table::Table;

/// Where a walk from the entry `start` stands: at an entry of the table, so many new directories below it,
/// and what the new names come to: 12 once one has a unit that no name may have.
// Kept: not compared (N): a walk shows a place in a tree, and derived equality would compare the lent bytes.
#[derive(Drop)]
pub struct Walk<'a> {
    table: Table<'a>,
    start: usize,
    entry: usize,
    level: usize,
    names: Verdict,
}

impl<'a> Model for Walk<'a> {
    ghost use Rattle.std.specs.Prelude.{◌<◌};
    ghost use Rattle.tree.specs.Table as table_of;
    ghost use Rattle.table.specs.Inner.Held.{IsTable};
    ghost use Rattle.edit.specs.Inner.Walk.{Place, place_in};

    ghost Value = { Place };

    ghost view = { λ w. place_in w.table w.start w.entry w.level w.names };

    ghost invariant = { λ w. IsTable w.table × (w.entry < table_of.count w.table) };
}

// Whether each unit of a name is one that a name may have: 12.
fn check_units(name: &[u8]) -> Verdict
    ensures { result ≡ plain_name_verdict name.now }
{
    if table::is_plain(name) {
        Ok(())
    } else {
        Err(Refusal::InvalidNameByte)
    }
}

impl<'a> Walk<'a> {
    /// At its start: 15.
    pub fn new(table: Table<'a>, start: usize) -> Result<Self, Refusal>
        ensures { result ≡ walk_from (nodes_of table.entry) start }
    {
        if table.len() <= start {
            return Err(Refusal::NoSuchEntry);
        }
        Ok(Walk {
            table,
            start,
            entry: start,
            level: 0,
            names: Ok(()),
        })
    }

    // From a file no step leads on, and no path may end on one: 17.
    fn check_directory(&self) -> Verdict
        ensures { result ≡ directory_verdict self.now }
    {
        if self.level == 0 && !self.table.is_directory(self.entry) {
            return Err(Refusal::ExpectedDirectory);
        }
        Ok(())
    }

    // Back over the last named step, never above the start: 18.
    fn back(self) -> Result<Self, Refusal>
        ensures { result ≡ back_step self.entry }
    {
        if self.level != 0 {
            return Ok(Walk {
                level: self.level - 1,
                ..self
            });
        }
        if self.entry == self.start {
            return Err(Refusal::NotFound);
        }
        let parent = self.table.parent(self.entry);
        Ok(Walk {
            entry: parent,
            ..self
        })
    }

    // To the first child with that name, whatever its kind, or into a directory that is not there yet: 13.
    fn into(self, name: &[u8]) -> Result<Self, Refusal>
        requires { self.level < 2 ^ 63 }
        ensures { result ≡ into_step self.entry name.now }
    {
        if self.level == 0 {
            if let Ok(child) = self.table.child(self.entry, name) {
                return Ok(Walk {
                    entry: child as usize,
                    ..self
                });
            }
        }
        if !table::is_safe(name) {
            return Err(Refusal::UnsafeName);
        }
        Ok(Walk {
            level: self.level + 1,
            names: self.names.and(check_units(name)),
            ..self
        })
    }

    /// Along one component: empty and `.` stay, `..` goes back, any other is a name.
    #[tactic(auto, unfolding(crate::specs::Inner::Walk::step_of))]
    pub fn step(self, name: &[u8]) -> Result<Self, Refusal>
        requires { self.level < 2 ^ 63 }
        ensures { result ≡ step_of self.entry name.now }
    {
        self.check_directory()?;
        if table::is_staying(name) {
            return Ok(self);
        }
        if table::is_going_back(name) {
            return self.back();
        }
        self.into(name)
    }

    /// What the walk comes to where the path ends: 17, then 12.
    pub fn end(self) -> Verdict
        ensures { result ≡ end_verdict self.entry }
    {
        self.check_directory()?;
        self.names
    }
}
