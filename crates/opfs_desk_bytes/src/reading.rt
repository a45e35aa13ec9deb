//! Shared calls that read the bytes of files under the turn (File System: getFile, FileSystemSyncAccessHandle's read).
mod bytes;
mod failing;
mod files;
mod getting;
mod laws;
mod syncing;

pub use failing::fail_reading;
pub use getting::act_get_file;
pub use laws::handles_go_on;
pub use syncing::act_sync_read;
