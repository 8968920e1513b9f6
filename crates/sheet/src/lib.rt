// An edit sheet, read: judged whole, then its lines one after another. What holds of every sheet.
#![tactic(auto)]

mod line;
mod lines;
mod theorems;

pub use line::{Asked, Line};
pub use lines::Lines;
pub use theorems::{checked_whole, reads_back};
