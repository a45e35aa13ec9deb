//! Why records were not read.

ghost use Rattle.std.specs.Prelude.{◌≡◌};
ghost use Rattle.opfs_kv.specs.declared.records.miss.Miss.TheVariants.{Memory};

use std::alloc::{AllocError, AllocFailed};

/// Why records were not read.
#[derive(Clone, Copy, PartialEq, Eq)]
pub enum Miss {
    /// There is no memory.
    Memory,
    /// No record is spelled at this place.
    Bad(u32),
}

impl From<AllocError> for Miss {
    ghost from_gives = { λ _ e. e ≡ Memory };

    fn from(_e: AllocError) -> Miss {
        Miss::Memory
    }
}

impl<T: Drop> From<AllocFailed<T>> for Miss {
    ghost from_gives = { λ _ e. e ≡ Memory };

    fn from(_e: AllocFailed<T>) -> Miss {
        Miss::Memory
    }
}
