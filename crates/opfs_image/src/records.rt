//! The records of the area that rules.

ghost use Rattle.std.specs.Prelude.{◌≡◌, ◌⊎◌, ◌+◌, ◌-◌, ◌*◌, ◌^◌, ◌<◌, ◌≤◌, ℕ, true, false, length, drop, Some, None, Ok, Err, IfOk, IfErr, IfSome, OnErr, IsErrOf};
ghost use Rattle.std.specs.Option.{IfNone};
ghost use Rattle.opfs_outside.specs.Faults.{Rose};
ghost use Rattle.opfs_outside.specs.Bytes.{window};
ghost use Rattle.opfs_journal.specs.Format.{is_open, number_at};
ghost use Rattle.opfs_journal.specs.Walking.{OnlyRead};
ghost use Rattle.opfs_image.specs.Walking.{Yields, IsRecord, IsTooLong};
ghost use Rattle.opfs_records.specs.Replay.Applying.{built_by};

use crate::ImageRefusal;
use opfs_codec::Format;
use opfs_journal::read_gate;
use opfs_outside::Disk;
use opfs_records::Replay;
use std::alloc::Global;

// Reads a record's body into the buffer, in the place of what it had.
fn read_body<D: Disk>(
    disk: &mut D,
    at: u64,
    len: u64,
    buffer: &mut Vec<u8>,
) -> Result<(), ImageRefusal>
    requires { at + len ≤ D.size disk.old }
    ensures only { OnlyRead D.Disk disk.old disk.new }
    ensures bytes { IfOk result (λ _. D.tells → buffer.new.items ≡ window (D.content disk.old) at len) }
    ensures refused { IfErr result (λ e. (e ≡ ImageRefusal.DiskFault) ⊎ (e ≡ ImageRefusal.NoMemory)) }
    ensures cause { IsErrOf result ImageRefusal.DiskFault → Rose (D.faults disk.old) (D.faults disk.new) }
{
    buffer.resize(len as usize, 0)?;
    disk.read(at, buffer)?;
    Ok(())
}

// What stands behind the first bytes.
fn behind(bytes: &[u8], skip: usize) -> &[u8]
    ensures { result.now ≡ drop skip bytes.now }
{
    let from = skip.min(bytes.len());
    &bytes[from..]
}

// Reads the record behind a gate into the buffer, and gives the length of its body; None where the gate is not open.
fn read_record<D: Disk>(
    disk: &mut D,
    gate: u64,
    stop: u64,
    buffer: &mut Vec<u8>,
) -> Result<Option<u64>, ImageRefusal>
    requires inside { gate < stop }
    requires lies { stop ≤ D.size disk.old }
    ensures only { OnlyRead D.Disk disk.old disk.new }
    ensures shut { IfOk result (λ found. D.tells → IfNone found (is_open (D.content disk.old) gate ≡ false)) }
    ensures fits { IfOk result (λ found. IfSome found (λ len. gate + 6 + len ≤ stop)) }
    ensures record { IfOk result (λ found. D.tells → IfSome found (λ len. IsRecord (D.content disk.old) gate len buffer.new.items)) }
    ensures refused { IfErr result (λ e. (e ≡ ImageRefusal.DiskFault) ⊎ (e ≡ ImageRefusal.NoMemory) ⊎ ((e ≡ ImageRefusal.BadRecord gate) × (D.tells → IsTooLong (D.content disk.old) gate stop))) }
    ensures cause { IsErrOf result ImageRefusal.DiskFault → Rose (D.faults disk.old) (D.faults disk.new) }
{
    let Some(len) = read_gate(disk, gate, stop)? else {
        return Ok(None);
    };
    if stop - gate < 6 + len {
        return Err(ImageRefusal::BadRecord(gate));
    }
    read_body(disk, gate + 5, len, buffer)?;
    Ok(Some(len))
}

// What is built with the body of the record behind a gate more.
fn add_body(
    alloc: Global,
    replay: Replay,
    format: Format,
    bytes: &[u8],
    gate: u64,
) -> Result<Replay, ImageRefusal>
    ensures built { IfOk result (λ next. built_by format replay.size bytes.now replay.built ≡ Some next.built) }
    ensures same { IfOk result (λ next. (next.size ≡ replay.size) × (next.quota ≡ replay.quota)) }
    ensures refused { IfErr result (λ e. (e ≡ ImageRefusal.NoMemory) ⊎ ((e ≡ ImageRefusal.BadRecord gate) × (built_by format replay.size bytes.now replay.built ≡ None))) }
{
    match replay.body(alloc, format, bytes) {
        Ok(Some(next)) => Ok(next),
        Ok(None) => Err(ImageRefusal::BadRecord(gate)),
        Err(_) => Err(ImageRefusal::NoMemory),
    }
}

/// Replays the records from a gate on, up to the first gate that is not open. The first one's generation byte is left
/// out.
pub fn replay_records<D: Disk>(
    alloc: Global,
    disk: &mut D,
    format: Format,
    begin: u64,
    stop: u64,
    replay: Replay,
) -> Result<Replay, ImageRefusal>
    requires inside { begin < stop }
    requires lies { stop ≤ D.size disk.old }
    ensures only { OnlyRead D.Disk disk.old disk.new }
    ensures built { IfOk result (λ all. D.tells → Yields format replay.size (D.content disk.old) stop 1 begin replay.built (Ok all.built)) }
    ensures same { IfOk result (λ all. (all.size ≡ replay.size) × (all.quota ≡ replay.quota)) }
    ensures refused { IfErr result (λ e. (e ≡ ImageRefusal.DiskFault) ⊎ (e ≡ ImageRefusal.NoMemory)
        ⊎ ((gate : ℕ) × (e ≡ ImageRefusal.BadRecord gate) × (D.tells → Yields format replay.size (D.content disk.old) stop 1 begin replay.built (Err gate)))) }
    ensures cause { IsErrOf result ImageRefusal.DiskFault → Rose (D.faults disk.old) (D.faults disk.new) }
{
    let mut buffer = Vec::new(alloc);
    let mut replay = replay;
    let mut gate = begin;
    let mut skip = 1;
    'gates: loop {
        let Some(len) = read_record(disk, gate, stop, &mut buffer)? else {
            return Ok(replay);
        };
        replay = add_body(alloc, replay, format, behind(&buffer, skip), gate)?;
        skip = 0;
        gate += 5 + len;
    }
}
