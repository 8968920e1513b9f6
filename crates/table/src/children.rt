// The entries of a directory, by name.
ghost use Rattle.std.specs.Prelude.{ℕ, ◌≡◌, false, ◌≤◌, ◌<◌, length, Some, ◌==◌};
ghost use Rattle.std.specs.List.{list_any};
ghost use Rattle.endian.specs.Bytes.{are_same_bytes};
ghost use Rattle.tree.specs.Table as table_of;
ghost use Rattle.tree.specs.Table.{nodes_of};
ghost use Rattle.tree.specs.Lookup.{child_of};
ghost use Rattle.table.specs.Inner.Texts.{text_at};
ghost use Rattle.table.specs.Inner.After.{after_of};

use crate::entries::Table;
use crate::name;
use refusal::Refusal;

// Whether the text at `place` has the bytes of `name`. The text at `differs`, if there is one, has not, and
// is not compared again, since entries can share a long text.
fn has_name(table: &[u8], place: usize, differs: Option<usize>, name: &[u8]) -> bool
    requires inside { place ≤ length table.now }
    requires no_zero { list_any (λ b. b == 0) name.now ≡ false }
    requires unlike { (at : ℕ) → differs ≡ Some at
        → are_same_bytes (text_at table.now at) name.now ≡ false }
    ensures { result ≡ are_same_bytes (text_at table.now place) name.now }
{
    differs != Some(place) && name::text_is(table, place, name)
}

impl<'a> Table<'a> {
    // The entry after `k` and all that is in it.
    fn after(&self, k: usize) -> usize
        requires { k < table_of.count self.now }
        ensures { result ≡ after_of (nodes_of self.now) k }
    {
        let _ = &self.bytes;
        if self.is_directory(k) {
            self.next(k)
        } else {
            k + 1
        }
    }

    // The first child of directory d with that name, which has no zero byte. A subdirectory is stepped over
    // by its next. Of each 65,536 bytes of texts the last text that differs is kept: only one that starts
    // there can be longer than that.
    // Kept: `while`, which counts no index: it goes from child to child; `successors` would have the same
    // step, and the same stop, as closures.
    fn child_named(&self, d: usize, name: &[u8]) -> Result<u32, Refusal>
        requires within { d < table_of.count self.now }
        requires no_zero { list_any (λ b. b == 0) name.now ≡ false }
        ensures { result ≡ child_of (nodes_of self.now) d name.now }
    {
        let table = self.bytes;
        let stop = self.next(d);
        // Kept: nothing allocates, so that there is a place for each of the 32 pieces that texts can have.
        let mut differs = [None; 32];
        let mut k = d + 1;
        while k < stop {
            let place = self.name_place(k);
            let slot = place / 65536 % 32;
            if has_name(table, place, differs[slot], name) {
                return Ok(k as u32);
            }
            differs[slot] = Some(place);
            k = self.after(k);
        }
        Err(Refusal::NotFound)
    }

    /// The first child of directory `d` with that name; `NotFound` where there is none.
    pub fn child(&self, d: usize, name: &[u8]) -> Result<u32, Refusal>
        requires { d < table_of.count self.now }
        ensures { result ≡ child_of (nodes_of self.now) d name.now }
    {
        if name.contains(&0) {
            return Err(Refusal::NotFound);
        }
        self.child_named(d, name)
    }
}
