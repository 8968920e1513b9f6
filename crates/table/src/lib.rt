// A file table as it is read: its texts, whether it is accepted, and its entries by number, by name, by path
// and all at once.
#![tactic(auto)]

mod acceptance;
mod children;
mod components;
mod entries;
pub mod fields;
mod marks;
mod name;
mod name_tests;
mod passing;
mod path;
mod rows;
mod stack;
mod text;
mod units;

pub use acceptance::{check, refused_entry};
pub use components::Components;
pub use entries::Table;
pub use name::text_length;
pub use name_tests::{is_plain, is_safe, units_verdict};
pub use path::{find, is_going_back, is_staying, lookup};
pub use rows::list_entries;
pub use units::{Unit, Units};
