//! A disk that may stop at any moment.

ghost use Rattle.std.specs.Prelude.{◌≡◌, ◌+◌, ◌-◌, ◌^◌, ◌<◌, ◌≤◌, ℕ, List, length, OnOk, OnErr};
ghost use Rattle.opfs_outside.specs.Bytes.{Same, window, Beside};
ghost use Rattle.opfs_outside.specs.Faults.{Rose};
ghost use Rattle.opfs_outside.specs.Moments.{Elapses};

use crate::Failed;

/// Bytes by place, of a length that never changes. Between two syncs each range that was written may hold any
/// bytes after a crash, also where the write failed; elsewhere it has what the last successful sync left.
pub trait Disk {
    /// Whether it tells its content and the images of a crash. It is no function of the value.
    ghost tells: { Type 0 };

    /// Whether, besides, a crash may come at all: then the disk as it reads is one of its images.
    ghost crashes: { Type 0 };

    /// Its length in bytes.
    ghost size: { Self → ℕ };

    /// What a read gives.
    ghost content: { Self → List ℕ };

    /// The moment, as a number that doesn't fall.
    ghost moment: { Self → ℕ };

    /// What a crash at some moment from that one on may have left, or may leave now.
    ghost since: { Self → ℕ → List ℕ → Type 0 };

    /// How often it has failed.
    ghost faults: { Self → ℕ };

    /// The length in bytes.
    fn len(&self) -> u64
        ensures { result ≡ size self.now };

    /// Fills `buf` from the bytes at `at`.
    fn read(&mut self, at: u64, buf: &mut [u8]) -> Result<(), Failed>
        requires { at + length buf.old ≤ size self.old }
        ensures size { size self.new ≡ size self.old }
        ensures bytes { OnOk result (tells → buf.new ≡ window (content self.old) at (length buf.new)) }
        ensures same { tells → content self.new ≡ content self.old }
        ensures time { tells → Elapses moment since self.old self.new }
        ensures moments { tells → (c : List ℕ) → since self.new (moment self.old) c → since self.old (moment self.old) c }
        ensures later { faults self.old ≤ faults self.new }
        ensures cause { OnErr result (Rose (faults self.old) (faults self.new)) };

    /// Writes over the bytes at `at`. Until a sync a crash may leave any bytes there, also after a failure.
    fn write(&mut self, at: u64, bytes: &[u8]) -> Result<(), Failed>
        requires { at + length bytes.now ≤ size self.old }
        ensures size { size self.new ≡ size self.old }
        ensures written { OnOk result (tells → window (content self.new) at (length bytes.now) ≡ bytes.now) }
        ensures elsewhere { tells → Same (Beside at (length bytes.now)) (content self.new) (content self.old) }
        ensures time { tells → Elapses moment since self.old self.new }
        ensures moments { tells → (c : List ℕ) → since self.new (moment self.old) c
            → (d : List ℕ) × since self.old (moment self.old) d × Same (Beside at (length bytes.now)) c d }
        ensures later { faults self.old ≤ faults self.new }
        ensures cause { OnErr result (Rose (faults self.old) (faults self.new)) };

    /// After it a crash leaves what a read gives. A failure changes nothing.
    fn sync(&mut self) -> Result<(), Failed>
        ensures size { size self.new ≡ size self.old }
        ensures same { tells → content self.new ≡ content self.old }
        ensures durable { OnOk result (tells → (c : List ℕ) → since self.new (moment self.new) c → c ≡ content self.new) }
        ensures time { tells → Elapses moment since self.old self.new }
        ensures moments { tells → (c : List ℕ) → since self.new (moment self.old) c → since self.old (moment self.old) c }
        ensures later { faults self.old ≤ faults self.new }
        ensures cause { OnErr result (Rose (faults self.old) (faults self.new)) };

    /// The count is that of a `u64`.
    ghost counted: { (disk : Self) → faults disk ≤ 2 ^ 64 - 1 };

    /// The content has the disk's length.
    ghost full: { tells → (disk : Self) → length (content disk) ≡ size disk };

    /// And so has each image.
    ghost whole: { tells → (disk : Self) (t : ℕ) (c : List ℕ) → since disk t c → length c ≡ size disk };

    /// What was left since a moment was left since an earlier one.
    ghost falls: { tells → (disk : Self) (t u : ℕ) (c : List ℕ) → t ≤ u → since disk u c → since disk t c };

    /// The disk as it reads is one of its images.
    ghost reads: { crashes → (disk : Self) → since disk (moment disk) (content disk) };
}
