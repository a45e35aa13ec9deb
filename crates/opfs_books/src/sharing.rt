//! The shared state as the books of a run use it, and that it serves them.
mod shared;
mod state;

pub use shared::Shared;
