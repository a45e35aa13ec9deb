//! Tests of disks over real files and in memory, the journal, changes as bytes, sets of blocks, the tree, the shed, the pool, working
//! copies, and bytes and pages in blocks.
//!
//! It stands on `opfs_memory`, `opfs_files`, `opfs_blocks`, `opfs_tree`, `opfs_shed`, `opfs_pool`, `opfs_codec`,
//! `opfs_work` and `opfs_data`.
#![tactic(auto)]

#[cfg(test)]
mod codec;
#[cfg(test)]
mod data;
#[cfg(test)]
mod files;
#[cfg(test)]
mod journal;
#[cfg(test)]
mod stores;
#[cfg(test)]
mod tree;
