//! Access handles of an agent (File System: FileSystemSyncAccessHandle).
mod ending;
mod handle;
mod opening;
mod reading;
mod writing;

pub use handle::{ClosedSync, SyncHandle};
