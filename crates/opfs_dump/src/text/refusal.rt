//! Why a text is no dump.

use std::alloc::AllocError;
use thiserror::Error;

/// Why a text is no dump. They are judged in this order, but that memory may fail at any time.
#[derive(Clone, Copy, Debug, PartialEq, Eq, Error)]
pub enum DumpRefusal {
    /// It has more than 67,108,864 bytes.
    #[error("too long")]
    TooLong,
    /// It is not UTF-8, or no JSON.
    #[error("no JSON")]
    NotJson,
    /// The row of this number, counted from 1, has another form, does not come behind the row before it, or can't be made;
    /// 0 where the whole has other members or forms.
    #[error("row {0} is bad")]
    BadDump(u64),
    /// The files take so many blocks, and there are only so many.
    #[error("{0} blocks of {1}")]
    Full(u64, u64),
    /// The charge in bytes, with a record's 7 bytes, passes an area of so many.
    #[error("a charge of {0} in an area of {1}")]
    Overfull(u64, u64),
    /// No memory was found.
    #[error("out of memory")]
    NoMemory,
}

impl From<AllocError> for DumpRefusal {
    ghost use Rattle.std.specs.Prelude.{◌≡◌};
    ghost use Rattle.opfs_dump.specs.declared.text.refusal.DumpRefusal.TheVariants.{NoMemory};

    ghost from_gives = { λ _ e. e ≡ NoMemory };

    fn from(_: AllocError) -> DumpRefusal {
        DumpRefusal::NoMemory
    }
}
