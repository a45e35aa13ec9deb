//! A disk in memory that never fails.

ghost use Rattle.std.specs.Prelude.{◌≡◌, ◌+◌, ◌-◌, ◌^◌, ◌<◌, ◌≤◌, ℕ, List, length, replicate, IfOk, IsOk, OnOk, OnErr};
ghost use Rattle.opfs_outside.specs.Bytes.{window};
ghost use Rattle.opfs_memory.specs.Disks.{Overwritten};

use crate::bytes::{lengthen, overwrite};
use opfs_outside::{Disk, Failed};
use std::alloc::{AllocError, Global};
use std::marker::Model;

/// Bytes in memory that are first zeros. It tells its content, never fails and has no crash. Memory for all of them is taken when it
/// is made, but none is touched behind the last place that was read or written.
#[derive(Drop)]
pub struct RamDisk {
    // The bytes up to that place. All behind them are zeros.
    bytes: Vec<u8>,
    len: usize,
}

impl Model for RamDisk {
    ghost use Rattle.std.specs.Prelude.{◌≤◌, List, ℕ, length};
    ghost use Rattle.std.specs.Vec.{vec_capacity};
    ghost use Rattle.opfs_memory.specs.Lengthened.{with_zeros};

    ghost Value = { List ℕ };

    ghost view = { λ disk. with_zeros disk.len disk.bytes.items };

    ghost invariant = { λ disk. (length disk.bytes.items ≤ disk.len) × (disk.len ≤ vec_capacity disk.bytes) };
}

impl RamDisk {
    /// A disk of so many zeros.
    pub fn make(alloc: Global, len: u64) -> Result<RamDisk, AllocError>
        ensures { IfOk result (λ disk. disk ≡ replicate len 0) }
    {
        let len = len as usize;
        Ok(RamDisk {
            bytes: Vec::with_capacity(alloc, len)?,
            len,
        })
    }
}

impl Disk for RamDisk {
    ghost use Rattle.std.specs.Prelude.{length};

    ghost tells = { Unit {0} };

    ghost crashes = { ⊥ };

    ghost size = { length };

    ghost content = { λ disk. disk };

    ghost moment = { λ _. 0 };

    ghost since = { λ _ _ _. ⊥ };

    ghost faults = { λ _. 0 };

    fn len(&self) -> u64
        ensures { result ≡ length self.now }
    {
        self.len as u64
    }

    fn read(&mut self, at: u64, buf: &mut [u8]) -> Result<(), Failed>
        requires { at + length buf.old ≤ length self.old }
        ensures bytes { buf.new ≡ window self.old at (length buf.new) }
        ensures same { self.new ≡ self.old }
        ensures reads { IsOk result }
    {
        let at = at as usize;
        lengthen(&mut self.bytes, at + buf.len());
        buf.copy_from_slice(&self.bytes[at..at + buf.len()]);
        Ok(())
    }

    fn write(&mut self, at: u64, bytes: &[u8]) -> Result<(), Failed>
        requires { at + length bytes.now ≤ length self.old }
        ensures written { Overwritten at bytes.now self.old self.new }
        ensures writes { IsOk result }
    {
        let at = at as usize;
        lengthen(&mut self.bytes, at + bytes.len());
        overwrite(&mut self.bytes, at, bytes);
        Ok(())
    }

    fn sync(&mut self) -> Result<(), Failed>
        ensures same { self.new ≡ self.old }
        ensures syncs { IsOk result }
    {
        Ok(())
    }

    ghost use Rattle.std.specs.Prelude.{refl};
    ghost use Rattle.opfs_memory.specs.Laws.{capped};

    ghost counted = { λ _. capped 0 };

    ghost full = { λ _ _. refl };

    ghost whole = { λ _ _ _ _ left. absurd left };

    ghost falls = { λ _ _ _ _ _ _ left. left };

    ghost reads = { λ never _. absurd never };
}
