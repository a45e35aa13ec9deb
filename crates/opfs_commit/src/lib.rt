//! Changes that are committed to a journal.
//!
//! It stands on `opfs_image`; on it stands `opfs_books`.
#![tactic(auto)]

mod commits;
mod laws;

pub use commits::Commits;
pub use laws::{
    a_change_is_kept_back, a_doubt_ends, a_run_begins_with_its_image, a_trail_grows,
    an_image_shows_a_front, changes_go_through_filling, moments_follow_each_other,
    other_calls_leave_the_images, records_are_to_be_stored, records_are_written,
    the_rows_hold_what_was_told,
};
