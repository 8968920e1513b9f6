// What is told of a disc that opened.
ghost use Rattle.std.specs.Prelude.{◌≡◌};
ghost use Rattle.opened.specs.Inner.Told.{told_of};

use crate::open_disc::OpenDisc;

/// What opening tells of a disc: offsets and sizes in bytes.
#[repr(C)]
#[derive(Clone, Copy, PartialEq, Eq, Debug)]
pub struct Summary {
    /// The byte at which the file table starts.
    pub fst_offset: u32,
    /// How many bytes the table has.
    pub fst_size: u32,
    /// The byte at which the disc ends.
    pub disc_end: u32,
    /// How many entries the table has, the root among them.
    pub entries: u32,
    /// How many bytes are used.
    pub used: u32,
}

/// What an open disc tells of itself.
pub fn told(disc: &OpenDisc<'_>) -> Summary
    ensures { result ≡ told_of disc.now.disc }
{
    Summary {
        fst_offset: disc.start(),
        fst_size: disc.table_size(),
        disc_end: disc.end(),
        entries: disc.entries(),
        used: disc.used_size(),
    }
}
