// The used regions collected from the table, which was accepted.
ghost use Rattle.std.specs.Prelude.{◌≡◌, ◌+◌, ◌-◌, ◌*◌, ◌≤◌, ◌<◌, length};
ghost use Rattle.tree.specs.Table.{count};
ghost use Rattle.opened.specs.Inner.Prepared.{CollectedUsed};
ghost use Rattle.opened.specs.Inner.Collecting.{IsRegionOf, InTurn, AddsRegion, AddsEntry, AddsEntries};

use space::DiscRegion;
use table::Table;

// Where the bytes of entry k stand. A directory has none.
fn region_of(table: &Table<'_>, k: usize) -> Option<DiscRegion>
    requires { k < count table.now }
    ensures { IsRegionOf table.now k result }
{
    let region = DiscRegion {
        offset: table.offset(k),
        size: table.last(k),
    };
    if table.is_directory(k) {
        None
    } else {
        Some(region)
    }
}

// The regions collected so far, in front of the lent words.
#[derive(Drop)]
struct Collected<'a> {
    words: &'a mut [u32],
    count: usize,
}

impl Collected<'_> {
    // Adds a region, unless it is empty.
    fn add(&mut self, region: DiscRegion)
        requires { 2 * self.old.count + 2 ≤ length self.old.words.now }
        ensures added { AddsRegion self.old self.new region }
        ensures long { length self.new.words.now ≡ length self.old.words.now }
        ensures same_reference { self.new.words.ghost_name ≡ self.old.words.ghost_name }
    {
        self.count = space::add_region(self.words, self.count, region.offset, region.size);
    }

    // Adds the region of entry k, unless it is empty.
    fn add_entry(&mut self, table: &Table<'_>, k: usize)
        requires inside { k < count table.now }
        requires room { 2 * self.old.count + 2 ≤ length self.old.words.now }
        ensures added { AddsEntry self.old self.new table.now k }
        ensures long { length self.new.words.now ≡ length self.old.words.now }
        ensures same_reference { self.new.words.ghost_name ≡ self.old.words.ghost_name }
    {
        if let Some(region) = region_of(table, k) {
            self.add(region);
        }
    }

    // Adds the regions of the entries from `from` up to `to`.
    // Kept: over numbers, since the table gives its entries by their numbers.
    fn add_entries(&mut self, table: &Table<'_>, from: usize, to: usize)
        requires order { from ≤ to }
        requires inside { to ≤ count table.now }
        requires room { 2 * (self.old.count + (to - from)) ≤ length self.old.words.now }
        ensures added { AddsEntries self.old self.new table.now from to }
        ensures long { length self.new.words.now ≡ length self.old.words.now }
        ensures same_reference { self.new.words.ghost_name ≡ self.old.words.ghost_name }
    {
        for k in from..to {
            self.add_entry(table, k);
        }
    }
}

// The first file from entry k on, and before `end`, that is not empty: its number, and where it stands.
fn next_file(table: &Table<'_>, k: usize, end: usize) -> Option<(usize, DiscRegion)>
    requires { end ≤ count table.now }
    ensures { InTurn k end result }
{
    (k..end).find_map(|i| {
        let region = region_of(table, i).filter(|region| region.size != 0)?;
        Some((i, region))
    })
}

// The entry before which the program has its turn: where the files are in order, the first that
// lies behind it. Any turn is right; with this one, what is in order without the program is in
// order with it, and no sort is needed.
// Kept: no `partition_point`, since directories and empty files lie between the files and have no
// place in the order.
fn turn_of(table: &Table<'_>, program: DiscRegion) -> usize
    ensures from { 1 ≤ result }
    ensures to { result ≤ count table.now }
{
    // Kept: a region without bytes for none, as the definitions have it, which is passed over where
    // it has its turn.
    if program.size == 0 {
        return 1;
    }
    let mut low = 1;
    let mut high = table.len();
    while low < high {
        let middle = low + (high - low) / 2;
        match next_file(table, middle, high) {
            Some((k, file)) if file.offset < program.offset => low = k + 1,
            _ => high = middle,
        }
    }
    low
}

// The used regions: the bytes up to the table's end, each file that is not empty, and the program.
pub fn collect(table: &Table<'_>, words: &mut [u32], table_end: u32, program: DiscRegion) -> usize
    requires { 2 * (count table.now + 1) ≤ length words.old }
    ensures { CollectedUsed table.now (count table.now) table_end program words.new result }
{
    let turn = turn_of(table, program);
    let mut used = Collected { words, count: 0 };
    used.add(DiscRegion {
        offset: 0,
        size: table_end,
    });
    used.add_entries(table, 1, turn);
    used.add(program);
    used.add_entries(table, turn, table.len());
    used.count
}
