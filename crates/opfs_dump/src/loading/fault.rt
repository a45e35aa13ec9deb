//! Why a part of a text is not read.

use std::alloc::{AllocError, AllocFailed};

/// Why a part is not read.
#[derive(Clone, Copy, PartialEq, Eq)]
pub enum Fault {
    /// It is of another form, or may not stand there.
    Form,
    /// No memory was found.
    Memory,
}

impl From<AllocError> for Fault {
    ghost use Rattle.std.specs.Prelude.{◌≡◌};
    ghost use Rattle.opfs_dump.specs.declared.loading.fault.Fault.TheVariants.{Memory};

    ghost from_gives = { λ _ e. e ≡ Memory };

    fn from(_: AllocError) -> Fault {
        Fault::Memory
    }
}

impl<T: Drop> From<AllocFailed<T>> for Fault {
    ghost use Rattle.std.specs.Prelude.{◌≡◌};
    ghost use Rattle.opfs_dump.specs.declared.loading.fault.Fault.TheVariants.{Memory};

    ghost from_gives = { λ _ e. e ≡ Memory };

    fn from(_: AllocFailed<T>) -> Fault {
        Fault::Memory
    }
}
