//! What agents ask of the store, what it answers, and the history of both.
//!
//! It stands on `opfs_base` and `opfs_locks`; on it stand `opfs_print`, `opfs_script` and `opfs_machine`.
#![tactic(auto)]

pub mod entry;
mod front;
pub mod history;
pub mod op;
pub mod reply;

pub use entry::Entry;
pub use history::{Entries, Given, History, Pending, PendingSum, Room};
pub use op::{Mode, Op, Word};
pub use reply::{Refusal, Reply};
