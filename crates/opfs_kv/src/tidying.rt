//! When a key-value file compacts by itself.

/// When a key-value file compacts by itself.
#[derive(Clone, Copy, PartialEq, Eq)]
pub enum Tidying {
    /// Never.
    Never,
    /// Before a flush, where more than half of the live bytes are dead.
    AtFlush,
}
