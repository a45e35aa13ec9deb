//! A list of commands on a key-value file, which answers them as a map does.
mod commands;
mod each;
mod running;

pub use commands::{KvOp, KvReplies, KvReply};
pub use running::kv_run;
