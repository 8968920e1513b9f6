// Every small file table: one for each shape of so many entries, in order.
#![tactic(auto)]

mod shape;
mod tables;
mod theorems;

pub use shape::Entry;
pub use tables::small_tables;
pub use theorems::{
    each_in_its_place, each_once, each_opens, each_shape, none_missing, numbers, read_back,
};
