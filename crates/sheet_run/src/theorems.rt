// What holds of every run. Each theorem is the promise of a function that does nothing, so that a crate
// whose contracts hold is one in which they hold: what they say is in specs/Theorem.antt, and why they hold
// in proofs/Laws/.
ghost use Rattle.sheet_run.specs.Theorem.{LinesInTurn, InParts, BadLineAnywhere};

// Of a sheet that is read, on an image that opens, by any of the 16 teams: each line that ran is its edit on
// what the lines before left, accepted; the first that did not is told.
pub fn lines_in_turn()
    ensures { LinesInTurn }
{}

// A sheet may be run in parts: a sheet of its first lines, and then one of the others on what that one left.
pub fn in_parts()
    ensures { InParts }
{}

// One bad line anywhere, and none is run.
pub fn bad_line_anywhere()
    ensures { BadLineAnywhere }
{}
