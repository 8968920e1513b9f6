// The edits of an image: each is decided on an open disc, judged, entered in the record that is lent, and
// carried out.
#![tactic(auto)]

mod account;
mod anew;
mod calls;
mod carry_out;
mod decision;
mod directories;
mod file;
mod filling;
mod finding;
mod insertion;
mod list;
mod making;
mod moving;
mod new_entry;
mod pipeline;
mod place;
mod place_edit;
mod resizing;
mod table_only;
mod trouble;
mod walk;

pub use anew::table_anew;
pub use calls::{
    fill_file, insert_directory, insert_file, make_directories, move_file, resize_file, rewrite,
};
pub use decision::{Decision, Span, Writing, finish};
pub use list::{Turn, apply_all};
pub use new_entry::NewEntry;
pub use pipeline::{
    Edit, copy_part, decide, done, enter, enter_fill, judge, judge_image, run, table_part,
};
pub use place_edit::PlaceEdit;
pub use table_writing::Kind;
