//! Ranges of a snapshot.

use opfs_agent::Snapshot;

/// A range of a snapshot: its bytes from a place on, so many.
#[derive(Clone, Copy)]
pub struct Range<'a> {
    pub from: &'a Snapshot,
    pub at: u64,
    pub len: u64,
}

/// The bytes of a snapshot from a place up to an end.
#[derive(Clone, Copy)]
pub(crate) struct Span<'a> {
    pub from: &'a Snapshot,
    pub at: u64,
    pub end: u64,
}

/// Such bytes of which those from `next` on are left.
#[derive(Clone, Copy)]
pub(crate) struct Rest<'a> {
    pub from: &'a Snapshot,
    pub at: u64,
    pub next: u64,
    pub end: u64,
}
