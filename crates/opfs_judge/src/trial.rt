//! Trials: what a script's agents begin with, over an empty store.
pub mod opening;
