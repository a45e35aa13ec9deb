//! An image as one JSON text, put out piece by piece.
mod dumping;
mod files;
mod output;
mod pieces;
mod rows;
mod stop;

pub use dumping::dump;
pub use stop::DumpStop;
