//! An edit of an image file, written down in a journal before it is carried out, so that a crash at any moment
//! leaves files of which recovery makes the image before it or the image after it, every byte.
#![tactic(auto)]

mod draft;
mod files;
mod head;
mod noting;
mod pieces;
mod plan;
mod recovery;
mod steps;
mod sum;
mod whole;

pub use draft::{Bytes, Draft, Span};
pub use files::{Fault, Files, On};
pub use head::{HEAD, HEADER};
pub use plan::{Copying, Step};
pub use recovery::{Found, resume};
pub use whole::{Stopped, edit};
