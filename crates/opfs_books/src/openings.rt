//! A run that begins over a recovered image: what its machine begins with, and that the books may be opened on it.
mod opening;

pub use opening::{a_recovered_image_opens_a_run, limits_of};
