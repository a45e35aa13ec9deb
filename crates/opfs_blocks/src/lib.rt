//! A disk's data blocks as a set of used ones.
//!
//! It stands on `opfs_base`; on it stands `opfs_records`.
#![tactic(auto)]

mod bits;
mod map;
mod runs;

pub use map::BlockMap;
