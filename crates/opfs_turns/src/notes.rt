//! What an agent notes of itself between its turns.

use opfs_base::{Key, Text};
use opfs_hall::Pass;
use opfs_hist::Pending;
use opfs_store::Store;

/// What an agent knows of itself beside its pass.
#[derive(Drop)]
pub struct Notes {
    /// Its local calls that are not entered yet.
    pub pending: Pending,
    pub key: Option<Key>,
    /// The number of its next entry.
    pub number: u32,
    /// How many entries it has, waits among them.
    pub entries: u32,
    /// How many streams, access handles, snapshots and iterators it has made.
    pub rows: u32,
    /// The tag that it waits for.
    pub waiting: Option<Text>,
}

/// An agent between its calls: its pass, and what it notes of itself.
#[derive(Drop)]
pub(crate) struct Caller<S: Store> {
    pub pass: Pass<S>,
    pub notes: Notes,
}
