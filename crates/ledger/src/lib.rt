// The theorems about any list of edits. Each is the promise of a function that does nothing, so that a crate
// whose contracts hold is one in which they hold: what they say is in specs/Theorem.antt, and why they hold
// in proofs/Laws/.
#![tactic(auto)]

ghost use Rattle.ledger.specs.Theorem.{AnyList, UnnamedStays, FillReads, RecordTells, TeamsServed};
ghost use Rattle.ledger.specs.Theorem.{MaximumKept};

// After any list of calls the image opens, the ledger holds, and no two used regions share a byte.
pub fn any_list()
    ensures { AnyList }
{}

// A file that no accepted edit named lies where it lay, byte for byte.
pub fn unnamed_stays()
    ensures { UnnamedStays }
{}

// After an accepted fill, reading the file gives the clip and no more.
pub fn fill_reads()
    ensures { FillReads }
{}

// A record handed on through the list is that of the last image, and tells what each team has taken, in how
// many edits.
pub fn record_tells()
    ensures { RecordTells }
{}

// Teams that start with nothing taken and their shares free have their shares throughout, and none passes its
// limit.
pub fn teams_served()
    ensures { TeamsServed }
{}

// No edit writes a table above the stated maximum.
pub fn maximum_kept()
    ensures { MaximumKept }
{}
