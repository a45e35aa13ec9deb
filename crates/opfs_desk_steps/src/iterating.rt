//! What an iterator has given of a directory, and how long that is known.
pub mod going_on;
mod iterators;
mod words;

pub use iterators::{Followed, Iterators};
pub use words::{asked_row, may_make};
