//! The shared store without bytes: its rows, buckets, shares and agents as one machine, with the counts that its rulings ask for; and what
//! each shared call that is not refused changes of it. No call takes memory.
//!
//! It stands on `opfs_laws`, `opfs_tree`, `opfs_shed`, `opfs_pool` and `opfs_register`; on it stands `opfs_state`.
#![tactic(auto)]

pub mod changes;
pub mod standing;

pub use standing::Standing;
