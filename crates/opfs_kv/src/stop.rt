//! Why a call on a key-value file gives nothing.

use opfs_turns::Stop;

/// Why a call on a key-value file gives nothing.
#[derive(Clone, Copy, PartialEq, Eq)]
pub enum KvStop {
    /// No record is spelled at this place.
    BadFile(u64),
    /// The live bytes, this many, leave no room for so many more.
    Full(u64, u64),
    /// A call of the agent gave nothing.
    Agent(Stop),
}
