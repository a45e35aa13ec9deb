//! A call under the turn that was judged.

use opfs_base::Key;
use opfs_books::EntryWithRoom;
use opfs_hist::{Op, Room};
use opfs_machine::Sizes;

/// A unit that is cleared for a call, and the entry of its eviction with the memory for it.
#[derive(Drop)]
pub struct Eviction {
    pub unit: Key,
    pub gone: EntryWithRoom,
}

/// A call that is not refused, and for which all of the shared state stands ready: its words, the sizes of the row that it
/// names, the units that are cleared for it, in order, and the memory for its entry.
#[derive(Drop)]
pub struct ReadyCall {
    pub room: Room,
    pub agent: u32,
    pub number: u32,
    pub op: Op,
    pub sizes: Sizes,
    pub clearing: Vec<Eviction>,
}
