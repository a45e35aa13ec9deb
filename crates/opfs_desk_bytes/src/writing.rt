//! write, truncate, and an access handle's write and truncate under the turn (File System: write a chunk;
//! FileSystemSyncAccessHandle's write and truncate).
mod acting;
mod calling;
mod entering;
mod leaving;
mod putting;
mod target;

pub use calling::act_put;
