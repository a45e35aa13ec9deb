//! Runs of scripts: what a step asks, with its variables replaced by what they name; with what a script's agents begin, and what one history
//! of them is, of which the crates that run, try, judge and make scripts speak.
//!
//! It stands on `opfs_print`, `opfs_script` and `opfs_machine`; on it stand `opfs_transcripts`, `opfs_runner` and
//! `opfs_examples`.
#![tactic(auto)]

pub mod runs;
mod stage;

pub use runs::{Bindings, Hand, Named, Open, Opened};
