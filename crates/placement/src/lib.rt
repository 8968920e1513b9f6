// Where the files of a new master lie, and whether they fit.
#![tactic(auto)]

mod need;
mod placing;

ghost use Rattle.placement.specs.Theorem.{Complete, Sound, Exactly, EndsLeast};
ghost use Rattle.placement.specs.Theorem.{EmptyAtZero, LastLargest, PassesLayout};

pub use placing::{is_placeable, place};

// ---- Theorems, each the promise of a function that does nothing: what they say is in specs/Theorem.antt,
// and why they hold in proofs/Laws/.

// Files that are placed, however they are placed, fit.
pub fn complete()
    ensures { Complete }
{}

// Where the files fit, they are placed.
pub fn sound()
    ensures { Sound }
{}

// They do not fit if and only if no offsets at all will do.
pub fn exactly()
    ensures { Exactly }
{}

// No placement ends before the least disc end, and one ends there.
pub fn ends_least()
    ensures { EndsLeast }
{}

// An empty file has offset 0.
pub fn empty_at_zero()
    ensures { EmptyAtZero }
{}

// The file that lies last is one with the largest unused rest.
pub fn last_largest()
    ensures { LastLargest }
{}

// What is placed passes the layout test of opening; and what passes it, each file on a cluster, is placed.
pub fn passes_layout()
    ensures { PassesLayout }
{}
