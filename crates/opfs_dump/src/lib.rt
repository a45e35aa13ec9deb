//! An image as one JSON text: what its map is as a text, put out piece by piece; what bytes read as, and why they are refused; and an
//! image that stands for such a text.
//!
//! It stands on `opfs_script` and `opfs_tools`; on it stands `opfs_commands`.
#![tactic(auto)]

mod dumping;
mod loading;
pub mod text;

pub use dumping::{DumpStop, dump};
pub use loading::{LayStop, lay, read_dump};
pub use text::{DumpRefusal, Dumped, DumpedFile, DumpedRow, loaded_line, refused_line};
