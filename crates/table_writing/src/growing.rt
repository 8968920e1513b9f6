// A written table that grows in lent bytes by one entry at a time.
ghost use Rattle.std.specs.Prelude.{◌≡◌, ◌<◌, length, IfOk, OnOk, OnErr, ◌==◌, slice_index_or};
ghost use Rattle.std.proofs.Props.{props};
ghost use Rattle.table_writing.specs.Inner.Kind.{kind_is_directory};
ghost use Rattle.tree.specs.Table.{empty_root, parent_of, limits};
ghost use Rattle.tree.specs.Inner.WellFormed.{IsGoodName};
ghost use Rattle.tree.specs.Inner.Depths.{depth_of};
ghost use Rattle.tree.specs.Lookup.{child_of, next_of};
ghost use Rattle.table_writing.specs.Inner.Growth.{tree_in, Stands, IsDirectory, is_depth_allowed};
ghost use Rattle.table_writing.specs.Inner.Standing.{sound-prop};

use crate::kind::Kind;
use crate::{patch, size};
use refusal::{Refusal, Verdict};
use table::{Table, fields};
use tree::{DEPTH_LIMIT, ENTRIES_LIMIT, TEXTS_LIMIT};

/// A written table in front of lent bytes, which grows there by one entry at a time.
// Kept: its fields are public, and no `impl Model`: with one, a caller that lends the bytes knew nothing of
// what they hold when the loan ends, and its proof didn't close. What is true of each is the ghost field.
// Kept: no derived equality, which would compare all lent bytes, those behind the table too.
#[derive(Drop)]
pub struct Growing<'a> {
    /// The lent bytes, the table in front.
    pub bytes: &'a mut [u8],
    /// The size of the table in bytes.
    pub size: usize,
    /// How many words are lent, which limits the number of entries.
    pub words: usize,
    /// What stands in front is a table written anew, and passes no limit.
    pub ghost stands: { Stands bytes.now size words } by { Prim.hlevel (props, sound-prop) },
}

impl<'a> Growing<'a> {
    ghost use Rattle.table_writing.specs.Inner.Growing.{growing_tree, added_to, HasBuilt};

    /// The table that was written into the first `size` bytes, where so many words are lent.
    pub fn new(bytes: &'a mut [u8], size: usize, words: usize) -> Growing<'a>
        requires { Stands bytes.old size words }
        ensures tree { growing_tree result ≡ tree_in bytes.old size }
        ensures bytes { result.bytes.now ≡ bytes.old }
        ensures size { result.size ≡ size }
        ensures words { result.words ≡ words }
        ensures same_reference { result.bytes.ghost_name ≡ bytes.entry.ghost_name }
    {
        Growing { bytes, size, words }
    }

    /// The directory that directory k is nested in. A table written anew stores it.
    // Kept: `IsDirectory` in four contracts: it is a fact about the number that is passed, another one in
    // each call.
    pub fn parent(&self, k: usize) -> usize
        requires { IsDirectory (growing_tree self.now) k }
        ensures { result ≡ parent_of (growing_tree self.now) k }
    {
        fields::offset_or_parent(self.bytes, k) as usize
    }

    /// The first child of entry k with that name; 17 if k is no directory, 18 if none has it.
    pub fn child(&self, k: usize, name: &[u8]) -> Result<u32, Refusal>
        requires { k < length (growing_tree self.now) }
        ensures { result ≡ child_of (growing_tree self.now) k name.now }
    {
        Table::new(&self.bytes[..self.size]).child(k, name)
    }

    // Whether an entry more in directory p is not too deep. Only directories can be.
    fn is_shallow(&self, p: usize, kind: Kind) -> bool
        requires { IsDirectory (growing_tree self.now) p }
        ensures { result
            ≡ is_depth_allowed (kind_is_directory kind) (depth_of (growing_tree self.now) p) }
    {
        if !kind.is_directory() {
            return true;
        }
        let mut around = p;
        // Kept: a range of numbers: it counts turns, and no number is used.
        for _ in 0..DEPTH_LIMIT {
            if around == 0 {
                return true;
            }
            around = self.parent(around);
        }
        false
    }

    // The limits of the tree with one entry more.
    fn check_limits(&self, p: usize, kind: Kind, name: &[u8]) -> Verdict
        requires directory { IsDirectory (growing_tree self.now) p }
        requires name { IsGoodName name.now }
        ensures { result ≡ limits (added_to self.now kind p name.now) self.now.words }
    {
        let count = endian::read_u32(self.bytes, 8) as usize;
        if ENTRIES_LIMIT <= count {
            return Err(Refusal::LimitOrMemory);
        }
        let texts = self.size - 12 * count;
        if TEXTS_LIMIT - texts <= name.len() {
            return Err(Refusal::LimitOrMemory);
        }
        if self.words < 4 * (count + 3) {
            return Err(Refusal::LimitOrMemory);
        }
        if self.is_shallow(p, kind) {
            Ok(())
        } else {
            Err(Refusal::LimitOrMemory)
        }
    }

    /// Puts an empty directory, or an empty file, in as last child of directory p, and returns its number; 9
    /// if the tree then passes a limit, or the bytes are too few, and the table stays as it is.
    // Kept: the directory, the kind and the name are no struct, as in `patch::insert`.
    pub fn grow(&mut self, p: usize, kind: Kind, name: &[u8]) -> Result<usize, Refusal>
        requires directory { IsDirectory (growing_tree self.old) p }
        requires name { IsGoodName name.now }
        ensures number { let directory = slice_index_or (growing_tree self.old) p empty_root in
            IfOk result (λ number. number ≡ next_of directory) }
        ensures tree { OnOk result (growing_tree self.new ≡ added_to self.old kind p name.now) }
        ensures built { HasBuilt self.old self.new (added_to self.old kind p name.now) result }
        ensures err_bytes { OnErr result (self.new.bytes.now ≡ self.old.bytes.now) }
        ensures err_size { OnErr result (self.new.size ≡ self.old.size) }
        ensures words { self.new.words ≡ self.old.words }
        ensures length { length self.new.bytes.now ≡ length self.old.bytes.now }
        ensures same_reference { self.new.bytes.ghost_name ≡ self.old.bytes.ghost_name }
    {
        self.check_limits(p, kind, name)?;
        let grown = self.size + 12 + name.len() + 1;
        if self.bytes.len() < grown {
            return Err(Refusal::LimitOrMemory);
        }
        let number = patch::insert(self.bytes, self.size, p, kind, name);
        self.size = grown;
        Ok(number)
    }
}
