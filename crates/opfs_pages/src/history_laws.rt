//! The facts that tie pages of open rows and data blocks to a history, and how they go through each kind of entry. Laws
//! alone; each is the contract of a function that does nothing.
mod rows;
mod spaces;
mod steady;

pub use rows::{calls_change_their_row, copies_stand_for_their_row};
pub use spaces::{blocks_go_on, blocks_tell_a_file, trees_keep_their_blocks};
pub use steady::{
    calls_leave_other_rows, handles_stay_whole, pages_are_left, pages_go_on_telling,
    pages_that_were_put_tell_the_row, what_is_laid_goes_on,
};
