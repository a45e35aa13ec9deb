//! The shared state without bytes: it judges each shared call, clears units for it, and changes by it, as the machine says.
//!
//! It stands on `opfs_state_rows`; on it stands `opfs_books`.
#![tactic(auto)]

mod applying;
mod judging;
pub mod laws;
mod making;
mod performing;
mod preparing;
mod readers;
mod state;
mod verdicts;

pub use state::State;
pub use verdicts::{judge, room_for, ruling};
