//! The outside as the system has it: a file as a disk, the files of the system, by path, as a host of disks, and the standard
//! streams as a source and a sink.
//!
//! It stands on `opfs_outside`; on it stand `opfs` and `opfs_serve`.
#![tactic(auto)]

mod dir_host;
mod file_disk;
mod paths;
mod streams;

pub use dir_host::DirHost;
pub use file_disk::FileDisk;
pub use streams::{StdinSource, StdoutSink};
