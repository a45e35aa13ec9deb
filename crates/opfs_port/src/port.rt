//! What is heard and told, in its order.

ghost use Rattle.std.specs.Prelude.{◌≡◌, ◌-◌, ◌^◌, ◌<◌, ◌≤◌, ◌⊎◌, ℕ, List, [], length, IfOk, OnOk, OnErr, IsErrOf};
ghost use Rattle.opfs_outside.specs.Faults.{Rose};
ghost use Rattle.opfs_port.specs.Said.{Said, CameIn, WentOut};

use opfs_hall::Told;
use std::alloc::{AllocError, AllocFailed};
use thiserror::Error;

/// Why a port heard no line, or told none.
#[derive(Clone, Copy, Debug, PartialEq, Eq, Error)]
pub enum PortFault {
    /// A call of the port failed: its count has risen.
    #[error("a call of the port failed")]
    Stream,
    /// No memory was found.
    #[error("out of memory")]
    NoMemory,
}

impl From<AllocError> for PortFault {
    ghost use Rattle.std.specs.Prelude.{◌≡◌};
    ghost use Rattle.opfs_port.specs.declared.port.PortFault.TheVariants.{NoMemory};

    ghost from_gives = { λ _ e. e ≡ NoMemory };

    fn from(_: AllocError) -> PortFault {
        PortFault::NoMemory
    }
}

impl<X: Drop> From<AllocFailed<X>> for PortFault {
    ghost use Rattle.std.specs.Prelude.{◌≡◌};
    ghost use Rattle.opfs_port.specs.declared.port.PortFault.TheVariants.{NoMemory};

    ghost from_gives = { λ _ e. e ≡ NoMemory };

    fn from(_: AllocFailed<X>) -> PortFault {
        PortFault::NoMemory
    }
}

/// What was heard.
#[derive(Clone, Copy, Debug, PartialEq, Eq)]
pub enum Heard {
    /// A line.
    Line,
    /// A line that is too long. Nothing of it is kept.
    TooLong,
    /// No line comes any more.
    End,
}

/// Lines that come in and lines that go out. In which order they did is a fact of this one object, and so is what stood when
/// a line was told: a `T`, which proofs alone remember.
pub trait Port<T> {
    /// Whether it tells what was said and what is to come. It is no function of the value.
    ghost tells: { Type 0 };

    /// All that was heard and told, in order.
    ghost said: { Self → List (Said T) };

    /// The lines that are still to come.
    ghost rest: { Self → List (List ℕ) };

    /// How often it has failed.
    ghost faults: { Self → ℕ };

    /// Waits for a line, and puts it into `line` without its line feed, which the last line may lack. A line of more than
    /// `most` bytes is heard to its end and dropped. After an error the place in the line may be lost: hear no more.
    fn hear(&mut self, line: &mut Vec<u8>, most: usize) -> Result<Heard, PortFault>
        ensures came { IfOk result (λ h. h ≡ Heard.Line → tells → CameIn line.new.items (said self.old) (said self.new) (rest self.old) (rest self.new)) }
        ensures short { IfOk result (λ h. h ≡ Heard.Line → length line.new.items ≤ most) }
        ensures long { IfOk result (λ h. h ≡ Heard.TooLong → tells → (text : List ℕ) × (most < length text)
            × CameIn text (said self.old) (said self.new) (rest self.old) (rest self.new)) }
        ensures dropped { IfOk result (λ h. h ≡ Heard.TooLong → line.new.items ≡ []) }
        ensures end { IfOk result (λ h. h ≡ Heard.End → tells → (said self.new ≡ said self.old) × (rest self.old ≡ []) × (rest self.new ≡ [])) }
        ensures stays { OnErr result (tells → (said self.new ≡ said self.old) × (rest self.new ≡ rest self.old)) }
        ensures later { faults self.old ≤ faults self.new }
        ensures cause { IsErrOf result PortFault.Stream → Rose (faults self.old) (faults self.new) };

    /// Tells a line, and a line feed behind it, at once: nothing waits in a buffer. `at` is what stands now. After an error the
    /// line may have gone out, whole or in part: tell no more.
    fn tell(&mut self, line: &[u8], at: Told<T>) -> Result<(), PortFault>
        ensures went { OnOk result (tells → WentOut line.now at.value (said self.old) (said self.new)) }
        ensures may_have { OnErr result (tells → (said self.new ≡ said self.old) ⊎ WentOut line.now at.value (said self.old) (said self.new)) }
        ensures stays { tells → rest self.new ≡ rest self.old }
        ensures later { faults self.old ≤ faults self.new }
        ensures cause { IsErrOf result PortFault.Stream → Rose (faults self.old) (faults self.new) };

    /// The count is that of a `u64`.
    ghost counted: { (port : Self) → faults port ≤ 2 ^ 64 - 1 };
}
