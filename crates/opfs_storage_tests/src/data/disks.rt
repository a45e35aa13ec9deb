//! A journal over five blocks: both areas lie in the first one, and the data begins at the second.

ghost use Rattle.std.specs.Prelude.{◌≡◌, false, length, IfOk};

use opfs_journal::{Areas, Journal, OpenRefusal};
use opfs_memory::MemDisk;
use std::alloc::{AllocError, Global};

/// The byte where the data begins.
pub const BASE: u64 = 4096;

fn formatted(alloc: Global) -> Result<Vec<u8>, AllocError>
    ensures { IfOk result (λ bytes. length bytes.items ≡ 20480) }
{
    let mut bytes = vec![in alloc; 0u8; 20480]?;
    bytes[0] = 0xA5;
    bytes[1] = 1;
    bytes[5] = 16;
    Ok(bytes)
}

/// The disk. Its calls of these numbers fail; to begin takes four calls.
pub fn disk(alloc: Global, fails: &[u64]) -> Result<MemDisk, AllocError>
    ensures { IfOk result (λ disk. length disk.first ≡ 20480) }
{
    MemDisk::make(
        alloc,
        formatted(alloc)?,
        fails.to_vec(alloc)?,
        None,
        64,
        65536,
    )
}

/// The journal that the disk holds.
pub fn begun(alloc: Global, fails: &[u64]) -> Result<Journal<MemDisk>, OpenRefusal>
    ensures sure { IfOk result (λ journal. journal.in_doubt ≡ false) }
    ensures areas { IfOk result (λ journal. journal.areas ≡ record { first = 0; bytes = 32 }) }
    ensures size { IfOk result (λ journal. length journal.disk.first ≡ 20480) }
{
    let Ok(disk) = disk(alloc, fails) else {
        return Err(OpenRefusal::NoMemory);
    };
    let areas = Areas {
        first: 0,
        bytes: 32,
    };
    match Journal::begin(alloc, disk, areas) {
        Ok(journal) => Ok(journal),
        Err((_, refusal)) => Err(refusal),
    }
}
