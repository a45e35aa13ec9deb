//! What a journal answers besides Ok.

ghost use Rattle.std.specs.Prelude.{◌≡◌};
ghost use Rattle.opfs_journal.specs.declared.refusal.JournalRefusal.TheVariants.{DiskFault};
ghost use Rattle.opfs_journal.specs.declared.refusal.OpenRefusal.TheVariants.{DiskFault as OpenFault};

use opfs_outside::Failed;
use thiserror::Error;

/// The disk failed: its count has risen.
#[derive(Clone, Copy, Debug, PartialEq, Eq, Error)]
#[error("the disk failed")]
pub struct DiskFault;

/// Why a journal took no record.
#[derive(Clone, Copy, Debug, PartialEq, Eq, Error)]
pub enum JournalRefusal {
    /// The record with the next gate passes the area's end.
    #[error("the record has no room")]
    NoRoom,
    /// The disk failed: its count has risen.
    #[error("the disk failed")]
    DiskFault,
}

/// Why a disk's areas are no journal.
#[derive(Clone, Copy, Debug, PartialEq, Eq, Error)]
pub enum OpenRefusal {
    /// Both first gates are not open.
    #[error("no area begins with an open gate")]
    NoArea,
    /// The gate at this byte of the disk is bad, and no earlier one.
    #[error("a bad record at byte {0}")]
    BadRecord(u64),
    /// The disk failed: its count has risen.
    #[error("the disk failed")]
    DiskFault,
    /// No memory was found.
    #[error("out of memory")]
    NoMemory,
}

impl From<Failed> for DiskFault {
    fn from(_failed: Failed) -> DiskFault {
        DiskFault
    }
}

impl From<Failed> for JournalRefusal {
    ghost from_gives = { λ _ refusal. refusal ≡ DiskFault };

    fn from(_failed: Failed) -> JournalRefusal {
        JournalRefusal::DiskFault
    }
}

impl From<Failed> for OpenRefusal {
    ghost from_gives = { λ _ refusal. refusal ≡ OpenFault };

    fn from(_failed: Failed) -> OpenRefusal {
        OpenRefusal::DiskFault
    }
}
