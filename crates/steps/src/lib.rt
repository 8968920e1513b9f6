// A move or a resize in three calls, so that an image which was cut off between two of them opens: the copy,
// the table, the zeros.
#![tactic(auto)]

mod span;
mod steps;
mod theorems;

pub use edit::PlaceEdit;
pub use steps::{copy, write_table, zero};
pub use theorems::{cuts_kept, three_calls};
