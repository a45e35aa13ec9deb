//! Commands as a test writes them, and what a map answers to them.

use opfs_base::Bytes;
use opfs_kv::{KvOp, KvReply};
use std::alloc::{AllocError, Global};

/// A command.
#[derive(Clone, Copy)]
pub enum Step {
    Get(&'static str),
    Put(&'static str, &'static str),
    Delete(&'static str),
    Flush,
    Compact,
}

// The bytes of a text.
fn bytes_of(alloc: Global, text: &str) -> Result<Bytes, AllocError> {
    let bytes = Bytes::copy_of(alloc, text.as_bytes())?;
    Ok(bytes)
}

// The command that gives a key a value.
fn put_of(alloc: Global, key: &str, value: &str) -> Result<KvOp, AllocError> {
    let key = bytes_of(alloc, key)?;
    let value = bytes_of(alloc, value)?;
    Ok(KvOp::Put(key, value))
}

// A command.
fn op_of(alloc: Global, step: Step) -> Result<KvOp, AllocError> {
    match step {
        Step::Get(key) => Ok(KvOp::Get(bytes_of(alloc, key)?)),
        Step::Put(key, value) => put_of(alloc, key, value),
        Step::Delete(key) => Ok(KvOp::Delete(bytes_of(alloc, key)?)),
        Step::Flush => Ok(KvOp::Flush),
        Step::Compact => Ok(KvOp::Compact),
    }
}

/// The commands of steps.
pub fn ops_of(alloc: Global, steps: &[Step]) -> Result<Vec<KvOp>, AllocError> {
    let mut ops = Vec::new(alloc);
    for step in steps {
        ops.push(op_of(alloc, *step)?)?;
    }
    Ok(ops)
}

/// What a map has of a key after steps: the last one on the key decides.
pub fn found_after(steps: &[Step], key: &str) -> Option<&'static str> {
    let mut found = None;
    for step in steps {
        match step {
            Step::Put(other, value) if *other == key => found = Some(*value),
            Step::Delete(other) if *other == key => found = None,
            _ => {}
        }
    }
    found
}

/// Whether a reply is this value, or that there is none.
pub fn is_value(reply: Option<&KvReply>, value: Option<&str>) -> bool {
    match (reply, value) {
        (Some(KvReply::Value(Some(bytes))), Some(text)) => bytes.as_slice() == text.as_bytes(),
        (Some(KvReply::Value(None)), None) => true,
        _ => false,
    }
}
