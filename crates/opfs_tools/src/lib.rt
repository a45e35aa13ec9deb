//! Texts about an image: what it has, and the digests of its files.
//!
//! It stands on `opfs_image` and `opfs_print`; on it stands `opfs_dump`.
#![tactic(auto)]

mod checking;
mod counts;
mod digests;
mod gathering;
mod laws;
mod lines;
mod listing;
mod sights;
mod units;

pub use checking::check;
pub use laws::all_is_listed;
pub use listing::list;
