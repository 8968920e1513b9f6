// An entry that is to be inserted, and its tests.
ghost use Rattle.std.specs.Prelude.{◌≡◌, ◌<◌};
ghost use Rattle.tree.specs.Table as table_of;
ghost use Rattle.tree.specs.Table.{nodes_of};
ghost use Rattle.edit_rules.specs.Edits.{insert_verdict, child_verdict};

use refusal::{Refusal, Verdict};
use table::Table;
use table_writing::Kind;

/// An entry that is to be the last child of its parent.
#[derive(Clone, Copy, Debug, PartialEq, Eq)]
pub struct NewEntry<'a> {
    /// The number of the directory that it is inserted in.
    pub parent: u32,
    /// Whether it is an empty file or an empty directory.
    pub kind: Kind,
    /// Its name, in bytes.
    pub name: &'a [u8],
}

impl NewEntry<'_> {
    // The tests of its name among the children of its parent: 17, 19, 12.
    fn check_name(&self, table: &Table<'_>) -> Verdict
        requires { self.now.parent < table_of.count table.now }
        ensures { result ≡ child_verdict (nodes_of table.now) self.now.parent self.now.name.now }
    {
        let parent = self.parent as usize;
        if !table.is_directory(parent) {
            return Err(Refusal::ExpectedDirectory);
        }
        if table.child(parent, self.name).is_ok() {
            return Err(Refusal::AlreadyExists);
        }
        if !table::is_plain(self.name) {
            return Err(Refusal::InvalidNameByte);
        }
        Ok(())
    }

    /// Whether it may be inserted into the table: 15, 13, 17, 19, 12.
    #[tactic(auto, using(crate::proofs::Counts::entry_count), unfolding(edit_rules::specs::Edits::insert_verdict))]
    pub fn check(&self, table: &Table<'_>) -> Verdict
        ensures { result ≡ insert_verdict (nodes_of table.now) self.now.parent self.now.name.now }
    {
        if table.len() <= self.parent as usize {
            return Err(Refusal::NoSuchEntry);
        }
        if !table::is_safe(self.name) {
            return Err(Refusal::UnsafeName);
        }
        self.check_name(table)
    }
}
