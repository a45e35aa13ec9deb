//! Runs of scripts: what a step asks, with its variables replaced by what they name.
mod asking;
pub mod bindings;
mod entries;
pub mod hand;
mod kinds;
mod noting;
mod rows;

pub use bindings::Bindings;
pub use hand::{Hand, Named, Open, Opened};
