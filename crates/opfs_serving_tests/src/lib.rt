//! Conversations over a disk in memory: what is heard and what is told, in one order.
//!
//! It stands on `opfs_serve_runs`.
#![tactic(auto)]

#[cfg(test)]
mod stops;
#[cfg(test)]
mod talking;
#[cfg(test)]
mod tests;
