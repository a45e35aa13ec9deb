//! Laws over every legal history. They speak of the definitions of `opfs_machine` alone; each is the contract of a
//! function that does nothing.
//!
//! It stands on `opfs_machine`; on it stand `opfs_transcripts`, `opfs_rulings`, `opfs_store` and `opfs_state_rows`.
#![tactic(auto)]

pub mod charges;
pub mod closes;
pub mod counted;
pub mod files;
pub mod going_on;
pub mod histories;
pub mod lengths;
pub mod locked;
pub mod owned;
pub mod reserves;
pub mod separation;
pub mod steady;
pub mod stored;
pub mod whole;
