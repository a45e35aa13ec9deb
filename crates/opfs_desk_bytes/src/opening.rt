//! createWritable and createSyncAccessHandle under the turn (File System: createWritable, createSyncAccessHandle).
mod opening;
mod pages;

pub use opening::act_open;
