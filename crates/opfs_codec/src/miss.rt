//! Why no change was read.

ghost use Rattle.std.specs.Prelude.{◌≡◌};
ghost use Rattle.opfs_codec.specs.declared.miss.Miss.TheVariants.{Memory};

use std::alloc::{AllocError, AllocFailed};

/// Why no change was read.
#[derive(Drop)]
pub enum Miss {
    /// There is no memory.
    Memory,
    /// No change is spelled there.
    Spelling,
}

impl From<AllocError> for Miss {
    ghost from_gives = { λ _ e. e ≡ Memory };

    fn from(_e: AllocError) -> Miss {
        Miss::Memory
    }
}

impl<T: Drop> From<AllocFailed<T>> for Miss {
    ghost from_gives = { λ _ e. e ≡ Memory };

    fn from(_e: AllocFailed<T>) -> Miss {
        Miss::Memory
    }
}
