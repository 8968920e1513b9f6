// What holds of the shapes and their tables. Each theorem is the promise of a function that does nothing, so
// that a crate whose contracts hold is one in which they hold: what they say is in specs/Theorem.antt, and
// why they hold in proofs/Laws/.
ghost use Rattle.small_tables.specs.Theorem.{EachShape, EachOnce, Numbers, ReadBack};
ghost use Rattle.small_tables.specs.Theorem.{NoneMissing, EachInItsPlace, EachOpens};

// The list has exactly the shapes: lists of entries whose directories nest.
pub fn each_shape()
    ensures { EachShape }
{}

// Each is earlier than all behind it, and no other list of exactly these is so.
pub fn each_once()
    ensures { EachOnce }
{}

// How many there are, by what the first entry is: 1, 2, 6, 22, 90, 394, 1806, 8558.
pub fn numbers()
    ensures { Numbers }
{}

// Each table is accepted, reads as its shape, and written anew is what it was.
pub fn read_back()
    ensures { ReadBack }
{}

// Whatever table opening accepts, its shape is in the list.
pub fn none_missing()
    ensures { NoneMissing }
{}

// Each table has as many bytes, and stands behind those before it.
pub fn each_in_its_place()
    ensures { EachInItsPlace }
{}

// Each table, put into an image with its size set, opens.
pub fn each_opens()
    ensures { EachOpens }
{}
