//! Why a dump ends early.

use opfs_journal::DiskFault;
use opfs_outside::Failed;
use std::alloc::AllocError;
use thiserror::Error;

/// Why a dump ended early.
#[derive(Clone, Copy, Debug, PartialEq, Eq, Error)]
pub enum DumpStop {
    /// The disk failed: its count has risen.
    #[error("the disk failed")]
    DiskFault,
    /// The sink failed: its count has risen.
    #[error("the sink failed")]
    SinkFault,
    /// No memory was found.
    #[error("out of memory")]
    NoMemory,
}

impl From<DiskFault> for DumpStop {
    ghost use Rattle.std.specs.Prelude.{◌≡◌};
    ghost use Rattle.opfs_dump.specs.declared.dumping.stop.DumpStop.TheVariants.{DiskFault};

    ghost from_gives = { λ _ e. e ≡ DiskFault };

    fn from(_: DiskFault) -> DumpStop {
        DumpStop::DiskFault
    }
}

impl From<Failed> for DumpStop {
    ghost use Rattle.std.specs.Prelude.{◌≡◌};
    ghost use Rattle.opfs_dump.specs.declared.dumping.stop.DumpStop.TheVariants.{SinkFault};

    ghost from_gives = { λ _ e. e ≡ SinkFault };

    fn from(_: Failed) -> DumpStop {
        DumpStop::SinkFault
    }
}

impl From<AllocError> for DumpStop {
    ghost use Rattle.std.specs.Prelude.{◌≡◌};
    ghost use Rattle.opfs_dump.specs.declared.dumping.stop.DumpStop.TheVariants.{NoMemory};

    ghost from_gives = { λ _ e. e ≡ NoMemory };

    fn from(_: AllocError) -> DumpStop {
        DumpStop::NoMemory
    }
}
