//! Tests of changes that are committed.
mod stops;
pub mod works;
