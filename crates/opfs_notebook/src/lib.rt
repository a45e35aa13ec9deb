//! A library to be copied: two agents of a store, each on a thread of its own, keep notes in a key-value file of their own.
//!
//! It stands on `opfs_kv`; on it stands `opfs_notebook_run`.
#![tactic(auto)]

pub mod agents;
pub mod files;
pub mod notes;
pub mod visits;
