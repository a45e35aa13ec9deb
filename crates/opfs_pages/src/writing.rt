//! Pages of an open row on their way to the disk: memory first, then blocks, then the bytes.
mod laws;
mod put;

pub use laws::planned_pages_get_their_blocks;
pub use put::{Put, RowPages};
