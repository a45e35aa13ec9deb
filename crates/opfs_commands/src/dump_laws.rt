//! A law of dumps: what is dumped of an image is read back as the image's sizes and what it stands for.
mod laws;

pub use laws::dumps_are_read_back;
