// What holds of every sheet. Each theorem is the promise of a function that does nothing, so that a crate
// whose contracts hold is one in which they hold: what they say is in specs/Theorem.antt, and why they hold
// in proofs/Laws/.
ghost use Rattle.sheet.specs.Theorem.{CheckedWhole, ReadsBack};

// One bad line anywhere, and there are no lines; else there are all of them.
pub fn checked_whole()
    ensures { CheckedWhole }
{}

// A sheet written from lines reads back as these.
pub fn reads_back()
    ensures { ReadsBack }
{}
