//! The books of a run: its history, the shared state, what is kept back of the changes, and the place of a doubt. Each call
//! keeps them in step with the images that a crash may leave.
//!
//! It stands on `opfs_commit` and `opfs_state`; on it stands `opfs_desk_steps`.
#![tactic(auto)]

mod books;
mod clearing;
mod committing;
mod entering;
mod keeping;
pub mod laws;
mod opening;
pub mod openings;
mod settling;
pub mod sharing;
pub mod stored;
mod storing;

pub use books::Books;
pub use entering::{Entering, EntryWithRoom};
pub use laws::{
    a_fault_is_counted, a_last_content_stands, commit_laws, commits_alone_keep_the_books,
    commits_keep_the_books, keeping_back_keeps_the_books, pages_beside_leave_the_books,
    reads_leave_the_books, settling_keeps_the_books, state_laws, telling_keeps_the_books,
    the_books_show_their_images, the_books_stand_at_rest, the_state_is_kept,
};
pub use openings::{a_recovered_image_opens_a_run, limits_of};
pub use sharing::Shared;
pub use stored::{calls_are_spelled, calls_may_fail};
