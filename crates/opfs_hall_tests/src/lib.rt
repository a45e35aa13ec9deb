//! Agents that leave marks in a hall, each on a thread of its own.
//!
//! It stands on `opfs_hall`.
#![tactic(auto)]

#[cfg(test)]
mod agents;
mod marks;
#[cfg(test)]
mod meeting;
#[cfg(test)]
mod tests;

pub use marks::{Mark, Marks, Start};
