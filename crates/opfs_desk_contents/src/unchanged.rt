//! The flush and the close of an access handle that put no pages: of one that may not write, and of one that keeps fewer blocks than
//! its file has, so that nothing of the file waits for a flush.
mod again;
mod idle;
mod laws;
mod planning;
mod words;

pub use again::act_store_same_blocks;
pub use idle::act_idle_flush;
