//! A script that is run over a store: its agents, their threads, and the history that they make.
mod agents;
mod running;

pub use running::{Ran, Started, begin_agents, run_scripts};
