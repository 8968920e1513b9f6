// What holds of the three calls in their order. Each theorem is the promise of a function that does nothing,
// so that a crate whose contracts hold is one in which they hold: what they say is in specs/Theorem.antt, and
// why they hold in proofs/Laws/.
ghost use Rattle.steps.specs.Theorem.{ThreeCalls, CutsKept};

// After each call the image opens, to the old tree and then to the new one, and all three are the single
// edit.
pub fn three_calls()
    ensures { ThreeCalls }
{}

// What holds after any list of edits holds of an image that was cut off between two of the calls.
pub fn cuts_kept()
    ensures { CutsKept }
{}
