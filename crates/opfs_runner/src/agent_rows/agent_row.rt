//! An agent's rows.

use opfs_agent::{ClosedStream, ClosedSync, Iter, Snapshot, SyncHandle, Writable};

/// A row of an agent: what its call gave. An open stream or access handle has to be spent.
pub enum AgentRow {
    Stream(Writable),
    ClosedStream(ClosedStream),
    Handle(SyncHandle),
    ClosedHandle(ClosedSync),
    Snapshot(Snapshot),
    /// A snapshot's row that no variable names: its bytes are not held.
    Gone,
    Iterator(Iter),
    /// It is in a call's hands.
    Taken,
}
