// The paths that came before a path: whether it is behind them all, and whether one of them is used as a
// directory.
ghost use Rattle.std.specs.Prelude.{◌≡◌, ◌≤◌, ◌<◌, ◌&&◌, ◌==◌, ℕ, List, [], ◌∷◌, length, false};
ghost use Rattle.std.specs.Prelude.{slice_index, slice_index_or};
ghost use Rattle.std.specs.Result.{IfOk};
ghost use Rattle.wish_list.specs.Inner.Earlier.{common_length, order_verdict, IsKept};

use refusal::{Refusal, Verdict};
use tree::PATH_LIMIT;

// How many bytes two paths have in common, up to the first that differs.
fn common_length(a: &[u8], b: &[u8]) -> usize
    ensures value { result ≡ common_length a.now b.now }
    ensures within { result ≤ length b.now }
{
    a.iter().zip(b.iter()).take_while(|(x, y)| x == y).count()
}

// Clears the marks from `from` up to `to`.
fn clear(marks: &mut [bool], from: usize, to: usize)
    requires ordered { from ≤ to }
    requires within { to ≤ length marks.old }
    ensures cleared { (n : ℕ) → from ≤ n → n < to → slice_index_or marks.new n false ≡ false }
    ensures kept { (n : ℕ) → n < from →
        slice_index_or marks.new n false ≡ slice_index_or marks.old n false }
    ensures as_many { length marks.new ≡ length marks.old }
{
    marks[from..to].fill(false);
}

/// The paths that came before, each behind the one before it: what has to be known of them for the next.
// Kept: no derived equality, since nothing compares two (N).
#[derive(Drop)]
pub struct Earlier<'a> {
    // The last path.
    last: &'a [u8],
    // Whether its first bytes, so many, are one of the paths.
    marks: [bool; PATH_LIMIT + 1],
}

impl<'a> Earlier<'a> {
    /// None yet.
    pub fn new() -> Self
        ensures { IsKept [] result.last.now result.marks }
    {
        Earlier {
            last: &[],
            marks: [false; PATH_LIMIT + 1],
        }
    }

    // Whether so many bytes, which this path has in common with the last one, are one of the paths, and
    // the next byte of this path is `/`.
    fn is_around(&self, path: &[u8], common: usize) -> bool
        requires within { common < length path.now }
        requires short { common ≤ 1024 }
        ensures { result ≡ (slice_index_or self.now.marks common false
            && slice_index path.now common == 0x2F) }
    {
        self.marks[common] && path[common] == b'/'
    }

    /// Adds a path: 19 where it is not behind the last one, or where it uses one of them as a directory.
    pub fn add(&mut self, path: &'a [u8]) -> Verdict
        requires some { 0 < length path.now }
        requires short { length path.now ≤ 1024 }
        ensures verdict { (before : List (List ℕ)) →
            IsKept before self.old.last.now self.old.marks →
            result ≡ order_verdict before path.now }
        ensures kept { (before : List (List ℕ)) →
            IsKept before self.old.last.now self.old.marks →
            IfOk result (λ _. IsKept (path.now ∷ before) self.new.last.now self.new.marks) }
    {
        if path <= self.last {
            return Err(Refusal::AlreadyExists);
        }
        // A file that is a directory around this path is the part in common with the last one: if it
        // were longer, it would be behind the last path, and if it were shorter, around that one too.
        let common = common_length(self.last, path);
        if self.is_around(path, common) {
            return Err(Refusal::AlreadyExists);
        }
        clear(&mut self.marks, common + 1, path.len());
        self.marks[path.len()] = true;
        self.last = path;
        Ok(())
    }
}
