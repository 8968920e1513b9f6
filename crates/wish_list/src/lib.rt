// The wish list of a new master: its paths judged. The tree that they make is in specs/Tree.antt.
#![tactic(auto)]

mod earlier;
mod list;
mod paths;

pub use list::WishList;
