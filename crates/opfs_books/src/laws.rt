//! What the books of a run keep: the history, the images that a crash may leave, and the counts of faults. Laws alone; each
//! is the contract of a function that does nothing.
mod laws;

pub use laws::{
    a_fault_is_counted, a_last_content_stands, commit_laws, commits_alone_keep_the_books,
    commits_keep_the_books, keeping_back_keeps_the_books, pages_beside_leave_the_books,
    reads_leave_the_books, settling_keeps_the_books, state_laws, telling_keeps_the_books,
    the_books_show_their_images, the_books_stand_at_rest, the_state_is_kept,
};
