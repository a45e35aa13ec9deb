//! abort, discard and the close of a read-only access handle under the turn: the row leaves its pages and its lock, and nothing is
//! stored.
mod leaving;

pub use leaving::act_close_without_store;
