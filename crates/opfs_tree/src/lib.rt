//! The rows of the store as a tree: a finite map from places to directories and files, closed under parents.
//!
//! It stands on `opfs_base` and `opfs_locks`; on it stand `opfs_state_rows` and `opfs_records`.
#![tactic(auto)]

mod counted;
mod given;
mod paths;
pub mod ready;
mod row;
mod sums;
mod tree;
mod unit;
mod walk;

pub use ready::ReadyTree;
pub use row::{FileRow, Row};
pub use sums::Sums;
pub use tree::Tree;
pub use walk::Walk;
