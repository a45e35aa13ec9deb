//! The code of docs/LIBRARY.md: a key-value file and a pipe between two agents, over desks on disks in memory.
//!
//! It stands on `opfs_memory`, `opfs_desk`, `opfs_pipe` and `opfs_notebook`.
#![tactic(auto)]

mod kv;
pub mod pipe;
