//! Agents: what a page calls, by the names of the Standards, over any store that serves shared calls.
//!
//! It stands on `opfs_turns`; on it stand `opfs_runner` and `opfs_sync_files`.
#![tactic(auto)]

mod agent;
mod buckets;
mod entries;
pub mod handle_calls;
mod iteration;
mod locals;
mod snapshots;
pub mod stream_calls;

pub use agent::Agent;
pub use handle_calls::{ClosedSync, SyncHandle};
pub use iteration::Iter;
pub use opfs_turns::{AwaitTurn, Stop, a_told_fault_has_its_rise};
pub use snapshots::Snapshot;
pub use stream_calls::{ClosedStream, Writable};
