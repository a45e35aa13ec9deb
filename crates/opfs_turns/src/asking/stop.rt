//! Why a call of an agent gives nothing.

use opfs_hist::Refusal;

/// Why a call gives nothing.
#[derive(Clone, Copy, PartialEq, Eq)]
pub enum Stop {
    /// It was refused. Its entry says so.
    No(Refusal),
    /// There was no memory. It has no entry.
    NoMemory,
}
