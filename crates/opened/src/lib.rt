// An image opened: from its parts (the header, the file table, the executable's header and the
// image's length; the rest is not there to be read), or from a slice that holds it all, of which
// the parts are cut.
#![tactic(auto)]

mod conflicts;
mod cut;
mod faults;
mod lent;
mod open_disc;
mod parts;
mod regions;
mod summary;
mod whole;

pub use cut::parts_of;
pub use faults::{About, Fault, Owner, subject};
pub use lent::{Lent, Zero};
pub use open_disc::OpenDisc;
pub use parts::Parts;
pub use summary::{Summary, told};
