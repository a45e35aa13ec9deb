//! The agents of a conversation, and how far it is told.

use crate::progress::Progress;
use crate::seat::Seat;
use opfs_store::Store;

/// The seats of a conversation's agents, in the order of their numbers, and how far it is told.
pub struct Table<S: Store> {
    pub seats: Vec<Seat<S>>,
    pub progress: Progress,
}
