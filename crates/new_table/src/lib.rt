// The file table of a new master: measured, and written from its paths.
#![tactic(auto)]

mod draft;
mod measured;
mod path;
mod size;

pub use measured::NewTable;
