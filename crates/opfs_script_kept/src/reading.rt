//! The reader of scripts that keeps each step as its text: it goes over the tokens of a JSON text once, and holds no tree of it.
mod agent;
mod agents;
mod kept;
mod members;
mod reading;
mod steps;
mod sums;
mod value;

pub use kept::{KeptScript, read_kept};
