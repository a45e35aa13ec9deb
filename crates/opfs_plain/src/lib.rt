//! The plain machine: a list of rows that calls change, and the history of these calls. It is the reference that faster
//! stores are compared with.
//!
//! It stands on `opfs_rulings`; on it stands `opfs_judge`.
#![tactic(auto)]

mod effects;
mod entries;
pub mod faults;
mod files;
mod handles;
pub mod machine;
mod marks;
pub mod plain;
mod splicing;
mod streams;

pub use faults::fault;
pub use machine::enter;
pub use plain::Plain;
