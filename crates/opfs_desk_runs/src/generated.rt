//! The run of a script that a number makes, and its summary.
mod generating;

pub use generating::generate;
