//! Changes of the store as bytes and back.
//!
//! It stands on `opfs_base`; on it stand `opfs_kv` and `opfs_records`.
#![tactic(auto)]

mod change;
mod fields;
mod lengths;
mod miss;
mod reading;
mod writing;

pub use change::{Change, ChangeRef, Format};
pub use lengths::{bucket_of, charge};
pub use reading::{one_spelling, read, read_old};
pub use writing::write;
