//! An edit of an image file: decided from what is read of it, and made through its journal. A crash at any moment
//! leaves files of which recovery makes the image before it, or exactly the image that the edit's rules define.
#![tactic(auto)]

mod deciding;
mod drafting;
mod making;
mod maximum;
mod reading;
mod request;
mod running;
mod theorems;

pub use making::{Answer, Decided, Watch};
pub use maximum::state_maximum;
pub use request::{Order, Request};
pub use running::run;
pub use theorems::any_events;
