//! The rows that the records of a journal build, and the body of a checkpoint's one record, which builds the same.
//!
//! It stands on `opfs_machine`, `opfs_blocks`, `opfs_tree`, `opfs_shed` and `opfs_codec`; on it stand `opfs_space` and
//! `opfs_image`.
#![tactic(auto)]

pub mod checkpoint;
pub mod replay;

pub use checkpoint::{are_writable, snapshot, snapshot_after};
pub use replay::{Rebuilt, Replay};
