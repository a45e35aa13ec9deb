//! Why an image is not made.

use opfs_journal::DiskFault;
use std::alloc::AllocError;
use thiserror::Error;

/// Why an image was not made.
#[derive(Clone, Copy, Debug, PartialEq, Eq, Error)]
pub enum LayStop {
    /// The disk failed: its count has risen.
    #[error("the disk failed")]
    DiskFault,
    /// No memory was found.
    #[error("out of memory")]
    NoMemory,
}

impl From<DiskFault> for LayStop {
    ghost use Rattle.std.specs.Prelude.{◌≡◌};
    ghost use Rattle.opfs_dump.specs.declared.loading.stop.LayStop.TheVariants.{DiskFault};

    ghost from_gives = { λ _ e. e ≡ DiskFault };

    fn from(_: DiskFault) -> LayStop {
        LayStop::DiskFault
    }
}

impl From<AllocError> for LayStop {
    ghost use Rattle.std.specs.Prelude.{◌≡◌};
    ghost use Rattle.opfs_dump.specs.declared.loading.stop.LayStop.TheVariants.{NoMemory};

    ghost from_gives = { λ _ e. e ≡ NoMemory };

    fn from(_: AllocError) -> LayStop {
        LayStop::NoMemory
    }
}
