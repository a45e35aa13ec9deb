//! The outside in memory: sources, sinks, disks and hosts whose calls fail where they are told to.
//!
//! It stands on `opfs_outside`; on it stand `opfs_desk_runs` and `opfs_notebook_run`.
#![tactic(auto)]

mod bytes;
mod mem_disk;
mod mem_host;
mod place;
mod ram_disk;
mod sink;
mod source;

pub use mem_disk::MemDisk;
pub use mem_host::MemHost;
pub use ram_disk::RamDisk;
pub use sink::MemSink;
pub use source::MemSource;
