//! The working copy of a stream or an access handle, in pages of 4,096 bytes.
//!
//! It stands on `opfs_splice`; on it stands `opfs_store`.
#![tactic(auto)]

pub mod buffer;
pub mod pages;
pub mod sizes;
pub mod span;
pub mod spares;
pub mod table;
pub mod work;

pub use pages::Page;
pub use work::Work;
