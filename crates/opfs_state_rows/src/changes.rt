//! What each shared call that is not refused changes of the shared store: the machine and the rows of the tree with their
//! blocks. No call takes memory.
pub mod agents;
mod caller;
pub mod handles;
pub mod opening;
pub mod rows;
mod storing;
pub mod streams;

pub use caller::Caller;
