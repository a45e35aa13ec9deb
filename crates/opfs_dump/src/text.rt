//! Images as one JSON text: what an image's map is as a text, what bytes read as, and why they are refused.
pub mod dumped;
pub mod lines;
pub mod refusal;

pub use dumped::{Dumped, DumpedFile, DumpedRow};
pub use lines::{loaded_line, refused_line};
pub use refusal::DumpRefusal;
