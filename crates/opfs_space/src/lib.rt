//! Which data blocks are free, and which one page alone has.
//!
//! It stands on `opfs_data` and `opfs_records`; on it stands `opfs_pages`.
#![tactic(auto)]

mod files;
mod laws;
mod plans;
mod putting;
mod room;
mod space;
mod staying;

pub use files::{changes_leave_other_files, files_have_the_named_blocks};
pub use laws::{a_sweep_finds_what_is_used, covered_blocks_leave_room};
pub use putting::{own_blocks_may_be_written, planned_pages_may_be_written};
pub use room::{a_look_knows_own_blocks, a_sweep_leaves_blocks_enough};
pub use space::Space;
pub use staying::{
    blocks_given_back_are_right, fewer_files_keep_blocks_right, fewer_pages_keep_blocks_right,
    first_blocks_are_right, opened_rows_keep_blocks_right, stored_contents_keep_blocks_right,
    sweeps_keep_blocks_right, taken_blocks_are_right, written_pages_keep_blocks_right,
};
