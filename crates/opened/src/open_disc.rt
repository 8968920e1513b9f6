// A disc opened: contracts see the disc that it means, and no image.
ghost use Rattle.std.specs.Prelude.{◌≡◌, ◌+◌, ◌<◌, ◌^◌, List, ℕ, length};
ghost use Rattle.tree.specs.Table.{nodes_of};
ghost use Rattle.table.specs.Inner.Reading.{Opens};
ghost use Rattle.space.specs.Used.{total_size};
ghost use Rattle.space.specs.Inner.Sort.{SameSums};
ghost use Rattle.space.specs.Inner.UsedSpace.{free_space_in};
ghost use Rattle.space.specs.MaxRegionSize.{max_region_size};
ghost use Rattle.space.specs.Allocate.{allocation_of};
ghost use Rattle.opened.specs.Inner.Parts.{ArePartsOf};
ghost use Rattle.opened.specs.Opening.{free_of};
ghost use Rattle.opened.specs.Inner.Disc.{OpensAs, IsTableOf};

use crate::cut::parts_of;
use crate::parts::Parts;
use crate::whole::{check_program, check_table, check_used};
use refusal::Refusal;
use space::{DiscRegion, UsedRegions};
use std::marker::Model;

/// A disc that passed every test, with its used regions in order in the words that were lent.
// Kept: no derived equality, which would compare all lent words, those behind the used regions too.
#[derive(Drop)]
pub struct OpenDisc<'a> {
    /// The first 0x440 bytes of the image.
    pub header: &'a [u8],
    /// The file table's bytes.
    pub table: &'a [u8],
    /// The region of the program where it lies behind the table, of size 0 elsewhere.
    // Kept: no `Option`, which is no plainer: the definitions have a region without bytes there too
    // (`own_region`).
    pub own: DiscRegion,
    /// The lent words: first the used regions, an offset and a size each.
    pub words: &'a [u32],
    /// How many used regions there are.
    pub used: usize,
}

impl<'a> Model for OpenDisc<'a> {
    ghost use Rattle.std.specs.Prelude.{length};
    ghost use Rattle.opened.specs.Inner.Disc.{Opened, opened_in};
    ghost use Rattle.opened.specs.Inner.Backed.{IsBacked};

    ghost Value = { Opened };

    ghost view = { λ d. opened_in d.header.now d.table.now d.own (length d.words.now) };

    ghost invariant = { λ d. IsBacked d.header.now d.table.now d.own d.words.now d.used };
}

// The image is passed for its name in the contract alone.
fn open_shown<'a>(
    _image: &[u8],
    parts: Parts<'a>,
    words: &'a mut [u32],
) -> Result<OpenDisc<'a>, Refusal>
    ghost shown: { List ℕ }
    requires same { shown ≡ _image.now }
    requires parts_of { ArePartsOf shown parts }
    ensures { OpensAs shown (length words.old) result }
{
    OpenDisc::open(parts, words)
}

impl<'a> OpenDisc<'a> {
    /// Opens the image that has these parts, whichever it is, or says why not.
    pub fn open(parts: Parts<'a>, words: &'a mut [u32]) -> Result<Self, Refusal>
        ghost image: { List ℕ }
        requires { ArePartsOf image parts }
        ensures { OpensAs image (length words.old) result }
    {
        check_table(parts, words.len())?;
        let own = check_program(parts)?;
        let used = check_used(parts, words, own)?;
        Ok(OpenDisc {
            header: parts.header,
            table: parts.table,
            own,
            words,
            used,
        })
    }

    /// Opens an image in memory, or says why not.
    pub fn of_image(image: &'a [u8], words: &'a mut [u32]) -> Result<Self, Refusal>
        ensures { OpensAs image.now (length words.old) result }
    {
        open_shown(image, parts_of(image), words)
    }

    /// The byte at which the disc ends.
    pub fn end(&self) -> u32
        ensures { result ≡ self.now.disc.end }
    {
        header::disc_end(self.header) as u32
    }

    /// The byte at which its table starts.
    pub fn start(&self) -> u32
        ensures { result ≡ self.now.disc.start }
    {
        header::fst_offset(self.header)
    }

    /// How many bytes its table has.
    pub fn table_size(&self) -> u32
        ensures { result ≡ self.now.disc.table_size }
    {
        header::fst_size(self.header)
    }

    /// The stated maximum of the table's size in bytes, 0 where none is stated.
    pub fn maximum(&self) -> u32
        ensures { result ≡ self.now.disc.maximum }
    {
        header::fst_max_size(self.header)
    }

    /// Its table, which opens.
    pub fn table(&self) -> &'a [u8]
        ensures bytes { result.now ≡ self.now.table }
        ensures nodes { nodes_of result.now ≡ self.now.disc.nodes }
        ensures opens { Opens result.now }
        ensures of_image { IsTableOf self.now result.now }
        ensures fits { self.now.disc.start + length result.now < 2 ^ 32 }
    {
        self.table
    }

    /// How many entries its table has, the root among them.
    pub fn entries(&self) -> u32
        ensures { result ≡ length self.now.disc.nodes }
    {
        endian::read_u32(self.table, 8)
    }

    /// Its used regions, and where it ends.
    pub fn used_regions(&self) -> UsedRegions<'a>
        ensures end { result.disc_end ≡ self.now.disc.end }
        ensures free { free_space_in result ≡ free_of self.now.disc }
        ensures same { SameSums result.regions self.now.disc.used }
    {
        UsedRegions::new(self.words, self.used, self.end())
    }

    /// How many bytes are used.
    pub fn used_size(&self) -> u32
        ensures { result ≡ total_size self.now.disc.used }
    {
        self.used_regions().used_size()
    }

    /// What a region of `size` bytes at `offset` can grow to.
    pub fn max_region_size(&self, offset: u32, size: u32) -> u32
        ensures { result ≡ max_region_size offset size (free_of self.now.disc) }
    {
        self.used_regions().max_region_size(offset, size)
    }

    /// The largest free place for `size` bytes at a multiple of `align`, the last among equals.
    /// Refuses 22, then 21.
    pub fn allocate(&self, size: u32, align: u32) -> Result<DiscRegion, Refusal>
        ensures { result ≡ allocation_of align size (free_of self.now.disc) }
    {
        self.used_regions().allocate(size, align)
    }
}
