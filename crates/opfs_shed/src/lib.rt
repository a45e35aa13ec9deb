//! The quota, and of each unit its bucket mode and what it uses of the quota.
//!
//! It stands on `opfs_base`; on it stand `opfs_state_rows` and `opfs_records`.
#![tactic(auto)]

pub mod shed;
pub mod totals;

pub use shed::{Bucket, QuotaHit, Shed};
