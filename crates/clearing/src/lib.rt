// A run of bytes for a large file: where the least bytes of files have to be moved away for it.
#![tactic(auto)]

mod clear;
mod stretch;
mod theorems;

pub use clear::{CheapestRun, clear_run};
pub use theorems::{
    as_cheap_as_any, each_candidate, floor_of_all, in_the_way, no_run, none_tried, run_found,
};
