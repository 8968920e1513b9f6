// The cheapest run of so many bytes.
ghost use Rattle.std.specs.Prelude.{◌≡◌, ◌-◌, ◌<◌, ◌++◌, ℕ, List, length, max};
ghost use Rattle.space.specs.Used.{total_size};
ghost use Rattle.opened.specs.Opening.{zeros};
ghost use Rattle.opened.specs.Inner.Disc.{Means};
ghost use Rattle.clearing.specs.Clearing.{occupancy_of, free_by, clear_answer};
ghost use Rattle.clearing.specs.Clearing as clearing;
ghost use Rattle.clearing.specs.Inner.Marks.{candidate_runs};
ghost use Rattle.clearing.specs.Inner.Stretches.{AreInStretch, runs_of};

use crate::stretch::{Run, Stretch, region_at};
use opened::{Lent, OpenDisc};
use refusal::Refusal;

/// The cheapest of the runs that were tried.
#[repr(C)]
#[derive(Clone, Copy, PartialEq, Eq, Debug)]
pub struct CheapestRun {
    /// How many were tried.
    pub tried: u32,
    /// The byte at which it starts.
    pub offset: u32,
    /// The sizes in bytes of the files that it touches, each whole: what has to be moved away.
    pub cost: u32,
    /// No run, wherever it starts, costs less than `cost - bound`.
    pub bound: u32,
}

// What no run costs less than, where none costs nothing.
fn floor(disc: &OpenDisc<'_>, size: u32) -> u32
    ensures { (image : List ℕ) → Means image disc.now →
        result ≡ max (size - total_size (free_by (occupancy_of image))) 1 }
{
    // How much is used is known of an open disc.
    let _ = &disc.words;
    let free = disc.end() - disc.used_size();
    size.saturating_sub(free).max(1)
}

// The used regions of a disc in two.
#[derive(Clone, Copy, Debug, PartialEq, Eq)]
struct Stretches<'a> {
    // Those before the program.
    before: Stretch<'a>,
    // The program and those behind it; all where there is none.
    behind: Stretch<'a>,
}

// A run has no byte of the program: it ends before that starts, or starts where that ends or behind.
fn split<'a>(disc: &OpenDisc<'a>) -> Stretches<'a>
    ensures before { AreInStretch result.before }
    ensures behind { AreInStretch result.behind }
    ensures runs { (image : List ℕ) → Means image disc.now → (size : ℕ) → 0 < size →
        candidate_runs (occupancy_of image) size ≡
        runs_of result.before size ++ runs_of result.behind size }
{
    let mut first = 0;
    if disc.own.size > 0 {
        while first < disc.used && region_at(disc.words, first).offset < disc.own.offset {
            first += 1;
        }
    }
    Stretches {
        before: Stretch {
            words: disc.words,
            from: 0,
            to: first,
            limit: disc.own.offset,
        },
        behind: Stretch {
            words: disc.words,
            from: first,
            to: disc.used,
            limit: disc.end(),
        },
    }
}

// The cheapest run on an open disc.
fn cheapest_run(disc: &OpenDisc<'_>, size: u32, budget: u32) -> Result<Option<CheapestRun>, Refusal>
    ensures { (image : List ℕ) → Means image disc.now →
        result ≡ clearing.cheapest_run (occupancy_of image) size budget }
{
    if size == 0 {
        return Err(Refusal::NotEnoughSpace);
    }
    let Stretches { before, behind } = split(disc);
    let count_before = before.count(size);
    let count_behind = behind.count(size);
    let count = count_before + count_behind;
    if count == 0 {
        return Err(Refusal::NotEnoughSpace);
    }
    if budget == 0 {
        return Ok(None);
    }
    let tried = count.min(budget as usize);
    let tried_before = tried.min(count_before);
    let tried_behind = tried - tried_before;
    // Every run costs less than this.
    let dearest = Run {
        offset: 0,
        cost: u32::MAX,
    };
    let cheapest = before.try_first(size, tried_before, dearest);
    let cheapest = behind.try_first(size, tried_behind, cheapest);
    let bound = if tried == count || cheapest.cost == 0 {
        0
    } else if before.has_free(size, tried_before, count_before)
        || behind.has_free(size, tried_behind, count_behind)
    {
        // So many free bytes stand in a row: the floor is 0.
        cheapest.cost
    } else {
        // No candidate costs nothing, and the floor is this.
        cheapest.cost.saturating_sub(floor(disc, size))
    };
    Ok(Some(CheapestRun {
        tried: tried as u32,
        offset: cheapest.offset,
        cost: cheapest.cost,
        bound,
    }))
}

/// Finds the run of `size` bytes in a row, between the table's end and the disc's end and off the
/// program, for which the least bytes of files have to be moved away: of the runs that start at the end
/// of a used region the first `budget` are tried. `None` if the budget is 0. Refuses 21 if `size` is 0
/// or there is no run at all.
#[tactic(auto, using(crate::proofs::Asked::not_asked), unfolding(crate::specs::Clearing::clear_answer))]
pub fn clear_run(
    image: &[u8],
    words: &mut [u32],
    size: u32,
    budget: u32,
) -> Result<Option<CheapestRun>, Refusal>
    ensures answer { result ≡ clear_answer image.now (length words.old) size budget }
    ensures words_zero { words.new ≡ zeros words.old }
{
    let lent = Lent::new(words);
    let disc = OpenDisc::of_image(image, lent.memory)?;
    cheapest_run(&disc, size, budget)
}
