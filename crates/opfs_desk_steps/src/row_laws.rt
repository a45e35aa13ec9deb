//! How the pages of open rows and the data blocks stand to a call, over parts that are kept. Laws alone; each is the contract
//! of a function that does nothing.
mod laws;

pub use laws::{
    calls_open_rows, copies_are_stored, files_are_stored, opened_rows_are_laid, parts_lie_inside,
    puts_have_room, rows_in_hand_are_laid,
};
