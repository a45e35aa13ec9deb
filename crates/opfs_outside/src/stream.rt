//! Streams of bytes that come in and go out.

ghost use Rattle.std.specs.Prelude.{◌≡◌, ◌++◌, ◌-◌, ◌^◌, ◌<◌, ◌≤◌, ℕ, List, [], length, take, IfOk, OnErr};
ghost use Rattle.opfs_outside.specs.Faults.{Rose};

use thiserror::Error;

/// A call of the outside failed. The count of the object that was asked has risen.
#[derive(Clone, Copy, Debug, PartialEq, Eq, Error)]
#[error("a call of the outside failed")]
pub struct Failed;

/// Bytes that come in. Where the source tells, `rest` is what is still to come.
pub trait Source {
    /// Whether it tells what is to come. It is no function of the value.
    ghost tells: { Type 0 };

    /// What is still to come.
    ghost rest: { Self → List ℕ };

    /// How often it has failed.
    ghost faults: { Self → ℕ };

    /// Reads into the front of `buf`, and answers how many bytes. 0 for a buffer that is not empty means the end.
    fn read(&mut self, buf: &mut [u8]) -> Result<usize, Failed>
        ensures within { IfOk result (λ n. n ≤ length buf.new) }
        ensures front { IfOk result (λ n. tells → rest self.old ≡ take n buf.new ++ rest self.new) }
        ensures end { IfOk result (λ n. tells → n ≡ 0 → 0 < length buf.new → rest self.old ≡ []) }
        ensures stays { OnErr result (tells → rest self.new ≡ rest self.old) }
        ensures later { faults self.old ≤ faults self.new }
        ensures cause { OnErr result (Rose (faults self.old) (faults self.new)) };

    /// The count is that of a `u64`.
    ghost counted: { (source : Self) → faults source ≤ 2 ^ 64 - 1 };
}

/// Bytes that go out. Where the sink tells, `written` is all that it took.
pub trait Sink {
    /// Whether it tells what it took. It is no function of the value.
    ghost tells: { Type 0 };

    /// All that it took, in order.
    ghost written: { Self → List ℕ };

    /// How often it has failed.
    ghost faults: { Self → ℕ };

    /// Takes a front of `bytes`, and answers how many. Of a piece that is not empty it takes one byte at least, or fails.
    fn write(&mut self, bytes: &[u8]) -> Result<usize, Failed>
        ensures within { IfOk result (λ n. n ≤ length bytes.now) }
        ensures some { IfOk result (λ n. 0 < length bytes.now → 0 < n) }
        ensures taken { IfOk result (λ n. tells → written self.new ≡ written self.old ++ take n bytes.now) }
        ensures stays { OnErr result (tells → written self.new ≡ written self.old) }
        ensures later { faults self.old ≤ faults self.new }
        ensures cause { OnErr result (Rose (faults self.old) (faults self.new)) };

    /// The count is that of a `u64`.
    ghost counted: { (sink : Self) → faults sink ≤ 2 ^ 64 - 1 };
}
