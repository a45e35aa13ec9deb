//! Commands on a key-value file, and what they answer.

use crate::KvStop;
use opfs_base::Bytes;

/// A command.
#[derive(Drop)]
pub enum KvOp {
    Get(Bytes),
    Put(Bytes, Bytes),
    Delete(Bytes),
    Flush,
    Compact,
}

/// What a command answered.
#[derive(Drop)]
pub enum KvReply {
    Done,
    Value(Option<Bytes>),
    Was(bool),
    No(KvStop),
}

/// What commands answered, in their order.
#[derive(Drop)]
pub struct KvReplies {
    pub list: Vec<KvReply>,
}
