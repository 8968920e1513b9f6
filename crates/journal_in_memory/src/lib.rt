//! The engine of the journal run over files in memory, of which each crash is known: tests alone.
#![tactic(auto)]

mod done;
#[cfg(test)]
mod left;
#[cfg(test)]
mod memory;
#[cfg(test)]
mod tests;

pub use done::{Contents, Event};
