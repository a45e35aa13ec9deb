//! Pages between a working copy, its row in the store of pages, and the disk.
//!
//! It stands on `opfs_space` and `opfs_store`; on it stands `opfs_desk_steps`.
#![tactic(auto)]

mod bytes;
mod calls;
pub mod history_laws;
mod laws;
mod leaving;
mod reading;
pub mod row_calls;
mod row_put;
mod stages;
mod staging;
mod wide;
mod writing;

pub use bytes::{cut_page, overlay};
pub use calls::stage_changes;
pub use history_laws::{
    blocks_go_on, blocks_tell_a_file, calls_change_their_row, calls_leave_other_rows,
    copies_stand_for_their_row, handles_stay_whole, pages_are_left, pages_go_on_telling,
    pages_that_were_put_tell_the_row, trees_keep_their_blocks, what_is_laid_goes_on,
};
pub use laws::{a_call_changes_as_it_says, pages_at_rest_go_on, untouched_pages_go_on};
pub use leaving::{leave_size, leave_write};
pub use reading::{fill_page, read_page};
pub use row_calls::{
    Planned, after_flush, after_size, after_write, bring_near, collect_blocks, find_blocks,
    open_row, page_after, plan_call, plan_put, read_handle, read_row,
};
pub use row_put::{PagePut, PageSource, Planning, RowSource, StoredRow};
pub use wide::{read_bytes, read_stored};
pub use writing::{Put, RowPages, planned_pages_get_their_blocks};
