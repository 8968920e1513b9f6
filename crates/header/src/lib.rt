// The disc header: what its fields say and whether they pass the tests; and the header as a value.
#![tactic(auto)]

mod fields;
mod value;

pub use fields::{
    Field, GCN_MAGIC, HEADER_LEN, WII_MAGIC, check, check_bounds, check_bounds_within, disc_end,
    dol_offset, fst_max_size, fst_offset, fst_size, table_end,
};
pub use value::DiscHeader;
