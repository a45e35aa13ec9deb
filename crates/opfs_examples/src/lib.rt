//! Worked examples: histories that are legal, their transcripts, and an answer that each of them refuses. Each is the
//! contract of a function that does nothing.
//!
//! It stands on `opfs_image` and `opfs_script_run`.
#![tactic(auto)]

pub mod alone;
pub mod buckets;
pub mod charges;
pub mod clearing;
pub mod determined;
pub mod directories;
pub mod faults;
pub mod handles;
mod images;
pub mod judging;
pub mod kinds;
pub mod locks;
pub mod names;
pub mod nobody;
pub mod parties;
pub mod positions;
pub mod room;
mod script_runs;
pub mod stored;
pub mod streams;
pub mod tags;
pub mod times;
pub mod usage;

pub use images::{
    a_record_builds_a_note, an_image_with_a_note_stands_for_it, damaged_images_are_refused,
};
pub use script_runs::{
    a_cut_run_ends_what_is_open, a_cut_run_has_its_end, a_run_ends_once, a_run_ends_what_is_open,
    a_run_has_its_end, a_wait_is_for_its_await, each_row_ends_once, rows_end_in_their_order,
};
