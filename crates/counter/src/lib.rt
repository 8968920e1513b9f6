// The C face of Counter (host/include/counter.h): every public call as a function on numbers,
// slices and slots of fixed length. Each returns 0 where it is accepted, and else the number of the
// refusal; an answer goes into the memory that is lent for it.
#![tactic(auto)]

mod answer;
mod editing;
mod headers;
mod masters;
mod names;
mod reading;
mod regions;
mod runs;
mod sheets;
mod slots;
mod tables;
mod text;
mod three_calls;
mod windows;

pub use editing::{
    counter_fill_file, counter_insert_directory, counter_insert_file, counter_make_directories,
    counter_move_file, counter_resize_file, counter_rewrite,
};
pub use headers::{counter_header, counter_open_dol};
pub use masters::counter_master;
pub use names::{counter_component, counter_name, counter_unit};
pub use reading::{
    counter_entries, counter_entry, counter_fault, counter_lookup, counter_make_record,
    counter_open, counter_program, counter_table_anew, counter_totals,
};
pub use regions::{
    counter_allocate, counter_free_clusters, counter_free_regions, counter_max_file_size,
    counter_max_region_size,
};
pub use runs::counter_clear;
pub use sheets::counter_sheet;
pub use tables::counter_small_tables;
pub use text::{counter_list, counter_report};
pub use three_calls::{
    counter_move_copy, counter_move_table, counter_resize_copy, counter_resize_table, counter_zero,
};
pub use windows::{
    counter_open_file, counter_read, counter_seek_current, counter_seek_end, counter_seek_start,
};
