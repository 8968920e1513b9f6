// The listing of an image as text.
#![tactic(auto)]

mod buffer;
mod calls;
mod entries;
mod lines;
mod regions;

pub use buffer::TextBuffer;
pub use calls::{list, report};
