// The executable: the header of a DOL file, which section it is refused for, and the program that the disc
// header means.
#![tactic(auto)]

pub mod dol;
pub mod program;

pub use dol::{DOL_HEADER_LEN, DolAnswer, DolHeader, refused_section, size};
pub use program::{Program, own_region};
