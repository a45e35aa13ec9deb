//! What calls on bytes and pages answer besides Ok.

ghost use Rattle.std.specs.Prelude.{◌≡◌};
ghost use Rattle.opfs_data.specs.declared.refusal.DataRefusal.TheVariants.{DiskFault as Fault, NoMemory as NoRoomLeft};

use opfs_journal::DiskFault;
use std::alloc::AllocError;
use thiserror::Error;

/// Why no bytes were read.
#[derive(Clone, Copy, Debug, PartialEq, Eq, Error)]
pub enum DataRefusal {
    /// The disk failed: its count has risen.
    #[error("the disk failed")]
    DiskFault,
    /// No memory was found.
    #[error("out of memory")]
    NoMemory,
}

impl From<DiskFault> for DataRefusal {
    ghost from_gives = { λ _ refusal. refusal ≡ Fault };

    fn from(_fault: DiskFault) -> DataRefusal {
        DataRefusal::DiskFault
    }
}

impl From<AllocError> for DataRefusal {
    ghost from_gives = { λ _ refusal. refusal ≡ NoRoomLeft };

    fn from(_error: AllocError) -> DataRefusal {
        DataRefusal::NoMemory
    }
}
