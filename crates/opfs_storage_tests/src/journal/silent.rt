//! A disk that tells nothing, as a real one.

ghost use Rattle.std.specs.Prelude.{◌≡◌, ◌+◌, ◌≤◌, ℕ, length, OnErr};

use opfs_memory::RamDisk;
use opfs_outside::{Disk, Failed};

/// A disk in memory that tells nothing of what it holds.
#[derive(Drop)]
pub struct SilentDisk(pub RamDisk);

impl Disk for SilentDisk {
    ghost use Rattle.std.specs.Prelude.{[], length, ◌≤◌, ◌-◌, ◌^◌};
    ghost use Rattle.std.proofs.Common.{arith};

    ghost tells = { ⊥ };

    ghost crashes = { ⊥ };

    ghost size = { λ disk. length disk.0 };

    ghost content = { λ _. [] };

    ghost moment = { λ _. 0 };

    ghost since = { λ _ _ _. ⊥ };

    ghost faults = { λ _. 0 };

    fn len(&self) -> u64 {
        self.0.len()
    }

    fn read(&mut self, at: u64, buf: &mut [u8]) -> Result<(), Failed> {
        self.0.read(at, buf)
    }

    fn write(&mut self, at: u64, bytes: &[u8]) -> Result<(), Failed> {
        self.0.write(at, bytes)
    }

    fn sync(&mut self) -> Result<(), Failed> {
        self.0.sync()
    }

    ghost counted = { λ _. Prim.omega arith };

    ghost full = { λ never _. absurd never };

    ghost whole = { λ never _ _ _ _. absurd never };

    ghost falls = { λ never _ _ _ _ _ _. absurd never };

    ghost reads = { λ never _. absurd never };
}
