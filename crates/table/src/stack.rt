// Numbers kept for later, the last one on top. Directories are at most 64 deep, so there is room for one more
// than that.
ghost use Rattle.std.specs.Prelude.{◌≡◌, [], ◌∷◌, ◌<◌, length, drop, slice_get, ◌==◌};
ghost use Rattle.tree.specs.Table as table_of;

use std::marker::Model;

/// A stack of at most 65 numbers. Contracts see the list of them, the top one first.
// Kept: nothing allocates, so that the words are an array with how many count; derived equality would compare
// those that no longer count.
#[derive(Drop)]
pub struct Stack {
    words: [u32; 65],
    depth: usize,
}

impl Model for Stack {
    ghost use Rattle.std.specs.Prelude.{ℕ, List};
    ghost use Rattle.table.specs.Inner.Reading.{open_in, IsStacked};

    ghost Value = { List ℕ };

    ghost view = { λ s. open_in s.words s.depth };

    ghost invariant = { λ s. IsStacked s.words s.depth };
}

impl Stack {
    /// A stack of none.
    pub fn new() -> Self
        ensures { result ≡ [] }
    {
        Stack {
            words: [0; 65],
            depth: 0,
        }
    }

    // How many there are.
    pub(crate) fn len(&self) -> usize
        ensures { result ≡ length self.now }
    {
        self.depth
    }

    // Whether there is none.
    pub(crate) fn is_empty(&self) -> bool
        ensures { result ≡ (length self.now == 0) }
    {
        self.depth == 0
    }

    // The one on top; 0 where there is none.
    // Kept: no `Option`, which is no plainer: the definition `top` has 0 there, and an entry's next is
    // compared with it.
    pub(crate) fn top(&self) -> u32
        ensures { result ≡ table_of.top self.now }
    {
        if self.depth == 0 {
            return 0;
        }
        self.words[self.depth - 1]
    }

    /// Puts one on top.
    pub fn push(&mut self, number: u32)
        requires { length self.old < 65 }
        ensures { self.new ≡ number ∷ self.old }
    {
        self.words[self.depth] = number;
        self.depth += 1;
    }

    /// Takes the one on top off, where there is one.
    pub fn pop(&mut self) -> Option<u32>
        ensures value { result ≡ slice_get self.old 0 }
        ensures rest { self.new ≡ drop 1 self.old }
    {
        if self.depth == 0 {
            return None;
        }
        self.depth -= 1;
        Some(self.words[self.depth])
    }
}
