// Same tree, same table. Each theorem is the promise of a function that does nothing, so that a
// crate whose contracts hold is one in which they hold: what they say is in specs/Theorem.antt, and
// why they hold in proofs/Laws/.
#![tactic(auto)]

ghost use Rattle.same_table.specs.Theorem.{WholeTree, WrittenTable, SameTable, SameTree};
ghost use Rattle.same_table.specs.Theorem.{SecondRewrite, WrittenStays};
ghost use Rattle.same_table.specs.Theorem.{NoInfluence, NoInfluenceAlong};

// Names, order, kinds, nesting, offsets and sizes are the whole tree.
pub fn whole_tree()
    ensures { WholeTree }
{}

// An edit that writes a table leaves the written table of its tree.
pub fn written_table()
    ensures { WrittenTable }
{}

// Two images with the same tree get the same table from an edit whose tree that fixes.
pub fn same_table()
    ensures { SameTable }
{}

// Equal tables written anew are of the same tree.
pub fn same_tree()
    ensures { SameTree }
{}

// A second rewrite alters no byte.
pub fn second_rewrite()
    ensures { SecondRewrite }
{}

// A rewrite of an image that has the written table of its tree alters no byte.
pub fn written_stays()
    ensures { WrittenStays }
{}

// No stored parent has an influence on an edit, nor has the root's name offset.
pub fn no_influence()
    ensures { NoInfluence }
{}

// Nor along any list of edits.
pub fn no_influence_along()
    ensures { NoInfluenceAlong }
{}
