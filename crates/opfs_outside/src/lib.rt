//! The traits of the outside: sources, sinks, disks, hosts and gates, and what each promises.
//!
//! It stands on no other crate of this repository; on it stand `opfs_memory`, `opfs_files`, `opfs_port`, `opfs_store`
//! and `opfs_journal`.
#![tactic(auto)]

mod disk;
mod gate;
mod host;
mod output;
mod stream;

pub use disk::Disk;
pub use gate::Gate;
pub use host::{Host, HostStop};
pub use output::put_all;
pub use stream::{Failed, Sink, Source};
