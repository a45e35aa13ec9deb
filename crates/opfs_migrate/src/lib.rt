//! Images of format 1 made images of format 2.
//!
//! It stands on `opfs_image`; on it stands `opfs_commands`.
#![tactic(auto)]

mod counting;
mod migrating;
mod planning;
mod raising;

pub use migrating::migrate;
