//! Shared calls that open a row, read its bytes or put bytes into it, under the turn (File System: createWritable, createSyncAccessHandle,
//! getFile, FileSystemSyncAccessHandle's read, write and truncate, and write a chunk).
//!
//! It stands on `opfs_desk_steps`; on it stands `opfs_desk_contents`.
#![tactic(auto)]

mod opening;
pub mod reading;
mod writing;

pub use opening::act_open;
pub use reading::{act_get_file, act_sync_read, fail_reading, handles_go_on};
pub use writing::act_put;
