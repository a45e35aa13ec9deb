//! A conversation with a store: its agents make the step of each line once it is heard, and the answer is told before the next line.
//!
//! It stands on `opfs_runner` and `opfs_port`; on it stands `opfs_serve_runs`.
#![tactic(auto)]

mod answering;
mod asking;
mod conversing;
mod ending;
mod looking;
mod polling;
mod progress;
mod refusal;
mod requests;
mod seat;
mod serving;
mod table;
mod telling;
mod texts;

pub use progress::{Progress, State};
pub use refusal::LineRefusal;
pub use serving::{Served, serve};
