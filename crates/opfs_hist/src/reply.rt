//! What a call answers.

use opfs_base::{Bytes, Key, Kind, Name, Path};
use opfs_locks::LockValue;

/// Why a call is refused. The first eight are names of errors that the Standards' methods give; the others, and
/// what a refusal carries, are this project's own.
#[derive(Clone, Copy, PartialEq, Eq)]
pub enum Refusal {
    TypeError,
    NotFoundError,
    TypeMismatchError,
    InvalidModificationError,
    /// The lock that refused, and its count.
    NoModificationAllowedError(LockValue, u32),
    InvalidStateError,
    SecurityError,
    /// Usage, need and quota, in blocks.
    QuotaExceededError(u64, u64, u64),
    NameLimit,
    /// Charge, its growth and the area's size, in bytes.
    MetaFull(u64, u64, u64),
    /// Pool, need and data blocks, in blocks.
    DataFull(u64, u64, u64),
    DiskFault,
    Stuck,
    Unbound,
}

/// What a call answers.
#[derive(Drop)]
pub enum Reply {
    Done,
    /// A number of bytes.
    Length(u64),
    Flag(bool),
    /// The next child of a directory.
    Child(Kind, Name),
    /// There is no further child.
    Last,
    /// The entry is not in the directory.
    NoPath,
    /// The names from the directory to the entry.
    Names(Path),
    /// A file's length in bytes and its time stamp in milliseconds.
    FileInfo(u64, u64),
    Read(Bytes),
    /// Usage and quota in bytes.
    Estimate(u64, u64),
    /// The unit that was cleared.
    Gone(Key),
    No(Refusal),
}
