//! The body of a checkpoint's one record.
mod after;
mod body;
mod checks;
mod content;
mod rows;
mod rows_after;
mod units;

pub use after::snapshot_after;
pub use body::snapshot;
pub use checks::are_writable;
