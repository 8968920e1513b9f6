// A sheet run on an image: line by line, each as an edit of a list of edits, up to the first that is refused.
#![tactic(auto)]

mod line_edit;
mod run;
mod theorems;

pub use run::{Refused, run_sheet};
pub use theorems::{bad_line_anywhere, in_parts, lines_in_turn};
