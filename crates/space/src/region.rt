// A range of bytes of a disc, and one more of them added to those that stand in lent words.
ghost use Rattle.std.specs.Prelude.{◌≡◌, ◌+◌, ◌*◌, ◌≤◌, length};
ghost use Rattle.space.specs.Inner.Words.{IsAdded};

/// A range of bytes of a disc.
#[repr(C)]
#[derive(Clone, Copy, Debug, PartialEq, Eq)]
pub struct DiscRegion {
    /// The first byte, counted from the start of the disc.
    pub offset: u32,
    /// How many bytes there are.
    pub size: u32,
}

impl DiscRegion {
    ghost use Rattle.std.specs.Prelude.{◌≡◌};
    ghost use Rattle.space.specs.Used.{end_of};

    /// The number of the byte behind the last one.
    pub fn end(self) -> u64
        ensures { result ≡ end_of self }
    {
        u64::from(self.offset) + u64::from(self.size)
    }
}

/// Adds a region after `count` others, unless it is empty, and returns how many there are then.
// Kept: a struct over the words would hold just these two, and the number is what the call before gave.
pub fn add_region(words: &mut [u32], count: usize, offset: u32, size: u32) -> usize
    requires { 2 * count + 2 ≤ length words.old }
    ensures { IsAdded words.old words.new count offset size result }
{
    if size == 0 {
        return count;
    }
    words[2 * count] = offset;
    words[2 * count + 1] = size;
    count + 1
}
