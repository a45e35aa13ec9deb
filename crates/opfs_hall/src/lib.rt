//! A lock that hands a value on in ticket order, and whose history is proved.
//!
//! The value stands for a history: a list of entries, each with an owner. A call takes a turn with its pass, sees
//! the history that stands at that moment, adds entries and hands the turn on. However threads are scheduled there is
//! one history: what a pass has seen stays a prefix of it, and between two turns of a pass it grows by others alone.
//!
//! It stands on no other crate of this repository; on it stand `opfs_port` and `opfs_store`.
#![tactic(auto)]

mod board;
mod chronicle;
mod hall;
mod pass;
mod plays;
mod steps;
mod told;
mod watch;

pub use chronicle::Chronicle;
pub use hall::{Hall, Turn};
pub use pass::Pass;
pub use told::Told;
pub use watch::Watch;
