//! The conversation with the program in front: its requests, each read from a line of words, and the answers, each
//! written as a line of JSON. No file is touched here.
#![tactic(auto)]

mod asked;
mod hexadecimal;
mod reading;
mod telling;
#[cfg(test)]
mod tests;

pub use asked::{Asked, Named, What};
pub use reading::read_request;
pub use telling::{Failing, Told};
