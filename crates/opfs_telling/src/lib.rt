//! A store whose history is told to a sink while it grows, so that what was told is let go.
//!
//! It stands on `opfs_print` and `opfs_store`; on it stands `opfs_desk_runs`.
#![tactic(auto)]

mod standing;
mod teller;
mod telling;

pub use standing::Began;
pub use teller::{Ended, Parts, Teller};
pub use telling::{Progress, State, end_telling, put_out, tell};
