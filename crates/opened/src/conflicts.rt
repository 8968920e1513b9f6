// Which used regions 14 is about. It is looked for once 14 is known, two regions at a time: at most 16,385 of
// them, which takes a fraction of a second.
ghost use Rattle.std.specs.Prelude.{◌≡◌, ◌+◌, ◌≤◌, ◌<◌, ◌^◌, [], not, ◌&&◌, length, nat_lt, IfSome};
ghost use Rattle.tree.specs.Table.{count};
ghost use Rattle.space.specs.Used.{end_of};
ghost use Rattle.space.specs.Layout.{are_disjoint};
ghost use Rattle.opened.specs.Faults as faults;

use crate::faults::{About, Owner};
use space::DiscRegion;
use table::Table;

// Kept: regions by their places and loops over these, since a region is known by whose it is and read where
// it stands in the table; one without bytes has no byte to share, as in the definitions.

// Whether two regions have a byte in common.
#[tactic(auto, unfolding(space::specs::Layout::are_disjoint))]
fn overlaps(a: DiscRegion, b: DiscRegion) -> bool
    ensures { result ≡ not (are_disjoint a b) }
{
    a.size != 0 && b.size != 0 && u64::from(b.offset) < a.end() && u64::from(a.offset) < b.end()
}

// Whether a region that is not empty passes the disc end.
fn is_past(region: DiscRegion, disc_end: u32) -> bool
    ensures { result ≡ (nat_lt 0 region.size && nat_lt disc_end (end_of region)) }
{
    0 < region.size && u64::from(disc_end) < region.end()
}

// Whose region it is, at place i of those of a layout.
fn owner_at(i: usize) -> Owner
    requires { i < 2 ^ 32 }
    ensures { result ≡ faults.owner_at i }
{
    match i {
        0 => Owner::Table,
        1 => Owner::Program,
        _ => Owner::Entry((i - 2) as u32),
    }
}

// The regions that the used ones are of, empty ones too, in this order: the bytes up to the table's end, the
// program's own, each entry's.
#[derive(Drop)]
pub struct Layout<'a> {
    pub table: Table<'a>,
    pub table_end: u32,
    pub own: DiscRegion,
}

impl Layout<'_> {
    ghost use Rattle.opened.specs.Inner.Owned.{layout_regions, region_numbered, regions_before, shared_with};

    // How many there are.
    fn len(&self) -> usize
        ensures len { result ≡ length (layout_regions self.now) }
        ensures some { result ≡ count self.now.table + 2 }
        ensures few { result ≤ 16386 }
    {
        self.table.len() + 2
    }

    // Region i.
    fn region(&self, i: usize) -> DiscRegion
        requires { i < count self.now.table + 2 }
        ensures { result ≡ region_numbered self.now i }
    {
        if i == 0 {
            return DiscRegion {
                offset: 0,
                size: self.table_end,
            };
        }
        if i == 1 {
            return self.own;
        }
        let k = i - 2;
        if self.table.is_directory(k) {
            return DiscRegion { offset: 0, size: 0 };
        }
        DiscRegion {
            offset: self.table.offset(k),
            size: self.table.last(k),
        }
    }

    // The first before region i that shares a byte with it.
    fn shared_with(&self, i: usize) -> Option<usize>
        requires { i < count self.now.table + 2 }
        ensures found { result ≡ shared_with self.now i }
        ensures before { IfSome result (λ j. j < i) }
    {
        let region = self.region(i);
        for j in 0..i {
            if overlaps(self.region(j), region) {
                return Some(j);
            }
        }
        None
    }

    // What is wrong with region i.
    fn conflict(&self, i: usize, disc_end: u32) -> Option<About>
        requires within { i < count self.now.table + 2 }
        requires few { i < 16386 }
        ensures { let region = region_numbered self.now i in
            result ≡ faults.conflict_with disc_end (regions_before self.now i) region }
    {
        let region = self.region(i);
        if is_past(region, disc_end) {
            return Some(About::PastEnd(owner_at(i)));
        }
        let j = self.shared_with(i)?;
        Some(About::Shared(owner_at(j), owner_at(i)))
    }

    // The first region with which something is wrong.
    pub fn first_conflict(&self, disc_end: u32) -> Option<About>
        ensures { result ≡ faults.first_conflict disc_end [] (layout_regions self.now) }
    {
        for i in 0..self.len() {
            if let Some(about) = self.conflict(i, disc_end) {
                return Some(about);
            }
        }
        None
    }
}
