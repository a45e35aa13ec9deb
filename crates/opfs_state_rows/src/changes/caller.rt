//! Whose call it is.

use opfs_machine::Sizes;

/// The agent whose call it is, and the sizes of the row that the call names.
#[derive(Clone, Copy)]
pub struct Caller {
    pub agent: u32,
    pub sizes: Sizes,
}
