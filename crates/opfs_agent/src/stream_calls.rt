//! Writable streams of an agent (File System: FileSystemWritableFileStream).
mod ending;
mod opening;
mod stream;
mod writing;

pub use stream::{ClosedStream, Writable};
