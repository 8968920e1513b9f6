// A file table as it is written: measured, written anew, and then changed in place: the place of a file, one
// entry more.
#![tactic(auto)]

mod growing;
mod kind;
mod patch;
mod raising;
mod record;
mod size;
mod source;
mod writer;

pub use growing::Growing;
pub use kind::Kind;
pub use patch::set_place;
pub use record::Record;
pub use size::measure;
pub use writer::write_table;
