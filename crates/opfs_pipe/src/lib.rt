//! A pipe between two agents: a range of one agent's snapshot becomes the content of another agent's file, over a ring of pieces,
//! while both work.
//!
//! It stands on `opfs_sync_files`.
#![tactic(auto)]

mod draining;
mod ending;
mod filling;
mod moving;
mod opening;
mod pieces;
mod piping;
mod ranges;
mod rounds;
mod writing;

pub use opening::open_target;
pub use piping::pipe;
pub use ranges::Range;
