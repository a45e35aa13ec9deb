//! Tests of a checkpoint's record, of changes that are committed, and of images as texts and back.
//!
//! It stands on `opfs_memory`, `opfs_commit` and `opfs_dump`.
#![tactic(auto)]

#[cfg(test)]
mod commits;
#[cfg(test)]
mod dumps;
#[cfg(test)]
mod snapshots;
