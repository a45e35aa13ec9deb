//! The machine that the store is: what it holds, and what each call does. It is definitions (`specs/`); the types
//! here are the shapes that they speak of, and the functions read what a call says by its own words.
//!
//! It stands on `opfs_splice` and `opfs_hist`; on it stand `opfs_laws`, `opfs_script_run`, `opfs_register` and
//! `opfs_records`.
#![tactic(auto)]

pub mod many;
pub mod naming;
pub mod own;
pub mod state;

pub use many::Many;
pub use naming::{child_place, root_of, row_named, size_written, want_of};
pub use own::{HandleOutline, HandleRow, IteratorRow, Outline, Own, StreamOutline, StreamRow};
pub use state::{Agent, FileRow, Limits, Need, Party, Place, Posted, Row, Ruled, Sizes, State};
