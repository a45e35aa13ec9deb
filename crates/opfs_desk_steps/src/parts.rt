//! The parts of the shared store, and what is kept of them between calls and within one: the history, images and counts; the
//! pages of open rows and the data blocks; and what ties these. What a call leaves of them, as records that each kind of call
//! keeps.
mod call;
mod parts;

pub use call::{Eviction, ReadyCall};
pub use parts::{DeskParts, Ledger, OpenPages};
