// A stretch of the used regions and the runs in it: how many there are, the cheapest of the first ones, and
// whether one of the others costs nothing.
ghost use Rattle.std.specs.Prelude.{◌≡◌, ◌+◌, ◌*◌, ◌<◌, ◌≤◌, ◌-◌, ◌==◌, length, take, drop};
ghost use Rattle.std.specs.List.{list_any};
ghost use Rattle.space.specs.Inner.Sort.{regions_in};
ghost use Rattle.space.specs.Inner.Sort as pairs;
ghost use Rattle.clearing.specs.Inner.Marks.{started_size};
ghost use Rattle.clearing.specs.Inner.Stretches.{AreInStretch, StandIn, runs_of, marks_past};
ghost use Rattle.clearing.specs.Inner.Tried.{cheapest_from};

use space::DiscRegion;

/// A run: where it starts, and what it costs.
#[derive(Clone, Copy, Debug, PartialEq, Eq)]
pub struct Run {
    pub offset: u32,
    pub cost: u32,
}

// Region k of those that stand in words, an offset and a size each.
#[tactic(auto, unfolding(space::specs::Inner::Sort::region_at))]
pub fn region_at(words: &[u32], k: usize) -> DiscRegion
    requires { 2 * k + 2 ≤ length words.now }
    ensures { result ≡ pairs.region_at words.now k }
{
    DiscRegion {
        offset: words[2 * k],
        size: words[2 * k + 1],
    }
}

// Where a run stands, the first used region behind its start, the first that is not known to start before its
// end, and the sizes of those between the two.
#[derive(Clone, Copy, Debug, PartialEq, Eq)]
pub struct Marks {
    pub offset: u32,
    pub to_end: usize,
    pub to_start: usize,
    pub between: u32,
}

impl Marks {
    ghost use Rattle.std.specs.Prelude.{◌≡◌, ◌+◌, ◌<◌, ◌^◌, ◌≤◌};
    ghost use Rattle.space.specs.Used.{end_of};
    ghost use Rattle.clearing.specs.Inner.Stretches.{marks_past};

    // Where the next region ends, which is this.
    // No used region is empty: where nothing is between the marks they stand together, and the second passes
    // it with the first.
    fn past(self, region: DiscRegion) -> Marks
        requires end { end_of region < 2 ^ 32 }
        requires between { (self.between ≡ 0 → ⊥) → region.size ≤ self.between }
        requires to_end { self.to_end < 2 ^ 63 }
        ensures { result ≡ marks_past self region }
    {
        let offset = region.offset + region.size;
        let to_end = self.to_end + 1;
        if self.between == 0 {
            return Marks {
                offset,
                to_end,
                to_start: to_end,
                between: 0,
            };
        }
        Marks {
            offset,
            to_end,
            to_start: self.to_start,
            between: self.between - region.size,
        }
    }
}

/// The used regions in words from one up to another, an offset and a size each. Each run starts where one of
/// them ends, ends by `limit`, and touches no region but them.
#[derive(Clone, Copy, Debug, PartialEq, Eq)]
pub struct Stretch<'a> {
    pub words: &'a [u32],
    pub from: usize,
    pub to: usize,
    pub limit: u32,
}

impl<'a> Stretch<'a> {
    ghost use Rattle.std.specs.Prelude.{◌≡◌, ◌+◌, ◌*◌, ◌<◌, ◌≤◌, ◌-◌, ◌==◌, length, take, drop};
    ghost use Rattle.std.specs.List.{list_any};
    ghost use Rattle.space.specs.Inner.Sort.{regions_in};
    ghost use Rattle.clearing.specs.Inner.Marks.{started_size};
    ghost use Rattle.clearing.specs.Inner.Stretches.{AreInStretch, StandIn, runs_of};
    ghost use Rattle.clearing.specs.Inner.Tried.{cheapest_from};

    /// How many runs there are.
    // The ends rise, so they start where the first of the regions end.
    pub fn count(self, size: u32) -> usize
        requires { AreInStretch self }
        ensures { result ≡ length (runs_of self.entry size) }
    {
        let mut count = self.to - self.from;
        while count > 0 {
            let last = region_at(self.words, self.from + count - 1);
            if last.end() + u64::from(size) <= u64::from(self.limit) {
                break;
            }
            count -= 1;
        }
        count
    }

    // Moves the second mark up to the run's end: what is between the marks is then what the run costs.
    fn reach(self, marks: Marks, size: u32) -> Marks
        requires stretch { AreInStretch self }
        requires marks { StandIn self size marks }
        requires fits { marks.offset + size ≤ self.limit }
        ensures offset { result.offset ≡ marks.offset }
        ensures to_end { result.to_end ≡ marks.to_end }
        ensures marks { StandIn self.entry size result }
        ensures cost { result.between ≡ started_size (marks.offset + size)
            (regions_in self.entry.words.now marks.to_end (self.entry.to - marks.to_end)) }
    {
        let end = marks.offset + size;
        let mut to_start = marks.to_start;
        let mut between = marks.between;
        while to_start < self.to {
            let region = region_at(self.words, to_start);
            if end <= region.offset {
                break;
            }
            between += region.size;
            to_start += 1;
        }
        Marks {
            offset: marks.offset,
            to_end: marks.to_end,
            to_start,
            between,
        }
    }

    /// The cheapest of one and the first `tried` runs, the first of equals.
    // Kept: the cost itself is asked for only where it can be less, none behind one that costs nothing,
    // since no processor foresees how many regions the second mark passes (S). A function of its own in the
    // machine's code too, so that its loop has the registers to itself (S).
    #[inline(never)]
    pub fn try_first(self, size: u32, tried: usize, before: Run) -> Run
        requires stretch { AreInStretch self }
        requires some { 0 < size }
        requires tried { tried ≤ length (runs_of self size) }
        ensures { result ≡ cheapest_from before (take tried (runs_of self.entry size)) }
    {
        let end = self.from + tried;
        let mut cheapest = before;
        let mut marks = Marks {
            offset: 0,
            to_end: self.from,
            to_start: self.from,
            between: 0,
        };
        while marks.to_end < end {
            marks = marks.past(region_at(self.words, marks.to_end));
            if marks.between < cheapest.cost {
                marks = self.reach(marks, size);
                if marks.between < cheapest.cost {
                    cheapest = Run {
                        offset: marks.offset,
                        cost: marks.between,
                    };
                    if marks.between == 0 {
                        return cheapest;
                    }
                }
            }
        }
        cheapest
    }

    /// Whether one of the runs behind the first `tried` of `count` costs nothing: the next used region, if
    /// there is one, starts at its end or behind.
    pub fn has_free(self, size: u32, tried: usize, count: usize) -> bool
        requires stretch { AreInStretch self }
        requires some { 0 < size }
        requires count { count ≡ length (runs_of self size) }
        requires tried { tried ≤ count }
        ensures { result ≡ list_any (λ run. run.cost == 0) (drop tried (runs_of self.entry size)) }
    {
        let end = self.from + count;
        let mut k = self.from + tried;
        while k < end {
            let run_end = region_at(self.words, k).end() + u64::from(size);
            k += 1;
            if k == self.to || run_end <= u64::from(region_at(self.words, k).offset) {
                return true;
            }
        }
        false
    }
}
