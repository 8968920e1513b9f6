// The calls that read an image. Each opens it anew, and leaves the working words zero. Beside them three on a
// text alone.
#![tactic(auto)]

mod answers;
mod dol;
mod faults;
mod lookups;
mod names;
mod regions;
mod rows;

pub use answers::{DiscTotals, DolFile, FirstUnit};
pub use dol::open_dol;
pub use faults::fault;
pub use lookups::{entry, lookup, max_file_size, open_file};
pub use names::{component_length, first_unit, judge_name};
pub use regions::{
    allocate, free_clusters, free_regions, make_record, max_region_size, open, program, totals,
};
pub use rows::entries;
