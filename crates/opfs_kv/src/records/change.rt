//! A change of one key.

use opfs_base::Bytes;

/// A key with its new value, or a key that is taken out.
#[derive(Drop)]
pub struct Change {
    pub key: Bytes,
    pub value: Option<Bytes>,
}
