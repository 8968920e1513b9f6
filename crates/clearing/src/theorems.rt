// What an answer says of every run. Each theorem is the promise of a function that does nothing, so that a
// crate whose contracts hold is one in which they hold: what they say is in specs/Theorem.antt, and why they
// hold in proofs/Laws/.
ghost use Rattle.clearing.specs.Theorem.{NoRun, NoneTried, RunFound, AsCheapAsAny};
ghost use Rattle.clearing.specs.Theorem.{EachCandidate, FloorOfAll, InTheWay};

// Refused for room exactly if no byte is asked for or no start at all gives a run.
pub fn no_run()
    ensures { NoRun }
{}

// None is tried exactly if the budget is 0 and there is a run.
pub fn none_tried()
    ensures { NoneTried }
{}

// With any other budget a run is told exactly if there is one.
pub fn run_found()
    ensures { RunFound }
{}

// A run that is told is as cheap as any, wherever that starts, but for the bound.
pub fn as_cheap_as_any()
    ensures { AsCheapAsAny }
{}

// The candidates are the runs that start where a used region ends, rising.
pub fn each_candidate()
    ensures { EachCandidate }
{}

// The floor is 0 where so many free bytes stand in a row, else what is wanted beyond all free bytes, 1 at
// least.
pub fn floor_of_all()
    ensures { FloorOfAll }
{}

// The files that a run costs are those in its way: all of them, and no other.
pub fn in_the_way()
    ensures { InTheWay }
{}
