//! Bytes over runs of data blocks.

ghost use Rattle.std.specs.Prelude.{◌≡◌, ◌+◌, ◌*◌, ◌^◌, ◌<◌, ◌≤◌, ℕ, List, true, false, length, IfOk, OnOk, OnErr, IsErrOf};
ghost use Rattle.opfs_outside.specs.Bytes.{Same};
ghost use Rattle.opfs_outside.specs.Faults.{Rose};
ghost use Rattle.opfs_outside.specs.Moments.{Elapses};
ghost use Rattle.opfs_journal.specs.Clauses.{Before};
ghost use Rattle.opfs_journal.specs.Format.{records_of};
ghost use Rattle.opfs_journal.specs.Seen.{Stays, kept};
ghost use Rattle.opfs_data.specs.Calls.{OutsideRuns, Reads, Writes};
ghost use Rattle.opfs_data.specs.Places.{room_of, bytes_of, AllLie, Aside, AreApart};

use crate::DataRefusal;
use opfs_base::{BLOCK_SIZE, Bytes, Extent};
use opfs_journal::{DiskFault, Journal};
use opfs_outside::Disk;
use std::alloc::Global;

// Writes the bytes into the blocks of the runs, one after another.
fn write_runs<D: Disk>(
    journal: &mut Journal<D>,
    base: u64,
    extents: &[Extent],
    bytes: &[u8],
) -> Result<(), DiskFault>
    requires settled { journal.old.in_doubt ≡ false }
    requires fits { length bytes.now ≤ room_of extents.now }
    requires lies { AllLie base (D.size journal.old.disk) extents.now }
    requires behind { journal.old.areas.first + 2 * journal.old.areas.bytes ≤ base }
    requires small { base < 2 ^ 63 }
    ensures writes { Writes D.Disk base extents.now journal.old journal.new }
    ensures written { OnOk result (D.tells → AreApart extents.now → bytes_of (D.content journal.new.disk) base extents.now (length bytes.now) ≡ bytes.now) }
    ensures cause { OnErr result (Rose (D.faults journal.old.disk) (D.faults journal.new.disk)) }
{
    // No gate is in doubt, so this calls no disk.
    journal.settle()?;
    let mut rest = bytes;
    for extent in extents {
        let count = (u64::from(extent.count) * BLOCK_SIZE).min(rest.len() as u64) as usize;
        let (here, more) = rest.split_at(count);
        journal.put(base + u64::from(extent.start) * BLOCK_SIZE, here)?;
        rest = more;
    }
    Ok(())
}

// Reads bytes from the blocks of the runs, one after another.
fn read_runs<D: Disk>(
    journal: &mut Journal<D>,
    base: u64,
    extents: &[Extent],
    into: &mut [u8],
) -> Result<(), DiskFault>
    requires fits { length into.old ≤ room_of extents.now }
    requires lies { AllLie base (D.size journal.old.disk) extents.now }
    requires behind { journal.old.areas.first + 2 * journal.old.areas.bytes ≤ base }
    requires small { base < 2 ^ 63 }
    ensures reads { Reads D.Disk journal.old journal.new }
    ensures read { OnOk result (D.tells → into.new ≡ bytes_of (D.content journal.old.disk) base extents.now (length into.old)) }
    ensures cause { OnErr result (Rose (D.faults journal.old.disk) (D.faults journal.new.disk)) }
{
    let mut from = 0;
    for extent in extents {
        let count = (u64::from(extent.count) * BLOCK_SIZE).min((into.len() - from) as u64) as usize;
        let here = &mut into[from..from + count];
        journal.get(base + u64::from(extent.start) * BLOCK_SIZE, here)?;
        from += count;
    }
    Ok(())
}

/// Writes bytes into the blocks of runs, one after another, by one put for each run. Block 0 begins at byte `base` of
/// the disk. Until a sync a crash may leave any bytes in the runs, also after a failure. Takes no memory.
pub fn store<D: Disk>(
    journal: &mut Journal<D>,
    base: u64,
    extents: &[Extent],
    bytes: &[u8],
) -> Result<(), DiskFault>
    requires settled { journal.old.in_doubt ≡ false }
    requires fits { length bytes.now ≤ room_of extents.now }
    requires lies { AllLie base (D.size journal.old.disk) extents.now }
    requires behind { journal.old.areas.first + 2 * journal.old.areas.bytes ≤ base }
    requires small { base < 2 ^ 63 }
    ensures stays { Stays D.size journal.old journal.new }
    ensures tail { journal.new.tail ≡ journal.old.tail }
    ensures format { journal.new.format ≡ journal.old.format }
    ensures sure { journal.new.in_doubt ≡ false }
    ensures records { D.tells → journal.new.records ≡ journal.old.records }
    ensures written { OnOk result (D.tells → AreApart extents.now → bytes_of (D.content journal.new.disk) base extents.now (length bytes.now) ≡ bytes.now) }
    ensures elsewhere { D.tells → Same (Aside base extents.now) (D.content journal.new.disk) (D.content journal.old.disk) }
    ensures time { D.tells → Elapses D.moment D.since journal.old.disk journal.new.disk }
    ensures moments { D.tells → (c : List ℕ) → D.since journal.new.disk (D.moment journal.old.disk) c
        → Before (records_of journal.old.areas) (kept journal.old) (D.since journal.old.disk (D.moment journal.old.disk)) (OutsideRuns journal.old.areas base extents.now) c }
    ensures later { D.faults journal.old.disk ≤ D.faults journal.new.disk }
    ensures cause { OnErr result (Rose (D.faults journal.old.disk) (D.faults journal.new.disk)) }
{
    write_runs(journal, base, extents, bytes)?;
    Ok(())
}

/// Reads so many bytes from the blocks of runs, one after another, by one get for each run. Block 0 begins at byte
/// `base` of the disk. Takes its memory before its first get.
pub fn load<D: Disk>(
    alloc: Global,
    journal: &mut Journal<D>,
    base: u64,
    extents: &[Extent],
    len: u64,
) -> Result<Bytes, DataRefusal>
    requires fits { len ≤ room_of extents.now }
    requires lies { AllLie base (D.size journal.old.disk) extents.now }
    requires behind { journal.old.areas.first + 2 * journal.old.areas.bytes ≤ base }
    requires small { base < 2 ^ 63 }
    ensures length { IfOk result (λ bytes. length bytes ≡ len) }
    ensures bytes { IfOk result (λ bytes. D.tells → bytes ≡ bytes_of (D.content journal.old.disk) base extents.now len) }
    ensures reads { Reads D.Disk journal.old journal.new }
    ensures unread { IsErrOf result DataRefusal.NoMemory → journal.new ≡ journal.old }
    ensures cause { IsErrOf result DataRefusal.DiskFault → Rose (D.faults journal.old.disk) (D.faults journal.new.disk) }
{
    let mut items = vec![in alloc; 0u8; len as usize]?;
    read_runs(journal, base, extents, &mut items)?;
    Ok(Bytes::from_vec(items))
}
