//! The data blocks as a pool: what each unit keeps of them, and which units are cleared where they are too few.
//!
//! It stands on `opfs_base`; on it stands `opfs_state_rows`.
#![tactic(auto)]

pub mod pool;
pub mod shares;
pub mod victims;

pub use pool::{Pool, Share};
pub use victims::Keys;
