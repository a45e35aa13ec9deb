//! The rows that the records of a journal build.
mod charges;
mod places;
mod replay;
mod stores;
mod usages;

pub use replay::{Rebuilt, Replay};
