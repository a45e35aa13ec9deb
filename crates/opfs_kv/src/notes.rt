//! What is kept in memory of a key-value file.

use crate::records::Index;
use crate::tidying::Tidying;

/// What is kept in memory of a key-value file beside its handle.
#[derive(Drop)]
pub struct Notes {
    /// Where each value is.
    pub index: Index,
    /// How many bytes of the file are live.
    pub live: u32,
    /// Whether other bytes stand behind them still.
    pub tail: bool,
    /// When the file compacts by itself.
    pub tidying: Tidying,
}
