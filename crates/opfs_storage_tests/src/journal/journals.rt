//! The journal's calls on concrete disks.

ghost use Rattle.std.specs.Prelude.{◌≡◌, ◌≤◌, [], ◌∷◌, false, Some, length, IfOk};
ghost use Rattle.opfs_journal.specs.Format.{records_of};
ghost use Rattle.opfs_memory.specs.Drives.{content_of};

use crate::journal::{FORMAT_1, FORMAT_2, SilentDisk, areas_of_both, format_1};
use opfs_journal::{DiskFault, Journal, JournalRefusal, OpenRefusal};
use opfs_memory::{MemDisk, RamDisk};
use opfs_outside::Disk;
use std::alloc::{AllocError, Global};
use std::test::Fail;

fn disk_of(alloc: Global, bytes: &[u8], fails: &[u64]) -> Result<MemDisk, AllocError>
    ensures { IfOk result (λ disk. (disk.first ≡ bytes.now) × (disk.log ≡ [])) }
{
    MemDisk::make(
        alloc,
        bytes.to_vec(alloc)?,
        fails.to_vec(alloc)?,
        None,
        64,
        256,
    )
}

// The journal that these bytes hold, on a disk whose calls of these numbers fail. To begin takes four calls, and one more for each record behind the first.
fn begun(alloc: Global, bytes: &[u8], fails: &[u64]) -> Result<Journal<MemDisk>, OpenRefusal>
    requires lies { 28 ≤ length bytes.now }
    ensures sure { IfOk result (λ journal. journal.in_doubt ≡ false) }
    ensures areas { IfOk result (λ journal. journal.areas ≡ record { first = 0; bytes = 14 }) }
    ensures size { IfOk result (λ journal. length journal.disk.first ≡ length bytes.now) }
{
    let Ok(disk) = disk_of(alloc, bytes, fails) else {
        return Err(OpenRefusal::NoMemory);
    };
    match Journal::begin(alloc, disk, areas_of_both()) {
        Ok(journal) => Ok(journal),
        Err((_, refusal)) => Err(refusal),
    }
}

// Why these bytes are no journal on such a disk; none where they are.
fn refusal(alloc: Global, bytes: &[u8], fails: &[u64]) -> Option<OpenRefusal>
    requires { 28 ≤ length bytes.now }
{
    begun(alloc, bytes, fails).err()
}

// Whether the disk of a journal has so many bytes, and these from a place on.
fn holds(journal: Journal<MemDisk>, len: usize, at: usize, bytes: &[u8]) -> bool {
    let disk = journal.give_back();
    let content = disk.content();
    match content.get(at..) {
        Some(rest) => content.len() == len && rest.starts_with(bytes),
        None => false,
    }
}

#[test]
fn damaged_areas_are_refused_at_their_place(rt: HostRuntime) -> Result<(), Fail> {
    // Byte `at` of the example in format 2 is changed.
    for (at, byte, want) in [
        (0, 0, OpenRefusal::NoArea),
        (1, 0, OpenRefusal::BadRecord(0)),
        (1, 10, OpenRefusal::BadRecord(0)),
        (1, 9, OpenRefusal::BadRecord(0)),
        (5, 3, OpenRefusal::BadRecord(0)),
        (7, 3, OpenRefusal::BadRecord(6)),
        (13, 0xA5, OpenRefusal::BadRecord(13)),
        (14, 0xA5, OpenRefusal::BadRecord(14)),
    ] {
        let mut bytes = FORMAT_2;
        if at < 28 {
            bytes[at] = byte;
        }
        assert_eq!(rt; refusal(rt.alloc(), &bytes, &[]), Some(want), "byte {at}");
    }
    Ok(())
}

#[test]
fn a_failing_disk_refuses_to_begin(rt: HostRuntime) -> Result<(), Fail> {
    for call in 1..6 {
        assert_eq!(rt;
            refusal(rt.alloc(), &FORMAT_2, &[call]),
            Some(OpenRefusal::DiskFault)
        );
    }
    Ok(())
}

// What a record too long for its area, a checkpoint too long for one, and a checkpoint answer.
fn replaced(journal: &mut Journal<MemDisk>) -> Result<[Result<(), JournalRefusal>; 3], Fail>
    requires settled { journal.old.in_doubt ≡ false }
{
    journal.reserve(8)?;
    let appended = journal.append(&[]);
    journal.settle()?;
    journal.reserve(8)?;
    let long = journal.checkpoint(&[0; 8]);
    journal.settle()?;
    journal.reserve(8)?;
    let short = journal.checkpoint(&[4]);
    Ok([appended, long, short])
}

#[test]
fn format_2_is_begun_and_replaced(rt: HostRuntime) -> Result<(), Fail> {
    let mut journal = begun(rt.alloc(), &FORMAT_2, &[])?;
    let no_room = Err(JournalRefusal::NoRoom);
    assert_eq!(rt; replaced(&mut journal)?, [no_room, no_room, Ok(())]);
    assert!(rt; holds(journal, 28, 14, &[0xA5, 2, 0, 0, 0, 17, 4, 0]));
    Ok(())
}

fn disk_in_format_1(alloc: Global) -> Result<MemDisk, AllocError>
    ensures size { IfOk result (λ disk. length disk.first ≡ 28) }
    ensures records { IfOk result (λ disk. records_of (record { first = 0; bytes = 14 }) (content_of disk) ≡ Some (record { format = 1; records = (5 ∷ []) ∷ [] })) }
{
    let bytes = format_1();
    MemDisk::make(alloc, bytes.to_vec(alloc)?, Vec::new(alloc), None, 64, 256)
}

fn begin_in_format_1(
    alloc: Global,
    disk: MemDisk,
) -> Result<Journal<MemDisk>, (MemDisk, OpenRefusal)>
    requires size { length disk.first ≡ 28 }
    requires records { records_of (record { first = 0; bytes = 14 }) (content_of disk) ≡ Some (record { format = 1; records = (5 ∷ []) ∷ [] }) }
    ensures format { IfOk result (λ journal. journal.format ≡ 1) }
    ensures sure { IfOk result (λ journal. journal.in_doubt ≡ false) }
{
    Journal::begin(alloc, disk, areas_of_both())
}

#[test]
fn format_1_is_raised(rt: HostRuntime) -> Result<(), Fail> {
    let disk = disk_in_format_1(rt.alloc())?;
    let mut journal = match begin_in_format_1(rt.alloc(), disk) {
        Ok(journal) => journal,
        Err((_, refusal)) => return Err(refusal.into()),
    };
    journal.reserve(1)?;
    journal.raise(&[6])?;
    assert!(rt; holds(journal, 28, 0, &[0xA5, 2, 0, 0, 0, 17, 6, 0]));
    Ok(())
}

// Adds an empty record, and then puts one of one byte in the place of all.
fn add_and_replace(journal: &mut Journal<MemDisk>) -> Result<(), Fail>
    requires settled { journal.old.in_doubt ≡ false }
{
    journal.reserve(1)?;
    journal.append(&[])?;
    journal.reserve(1)?;
    journal.checkpoint(&[6])?;
    Ok(())
}

#[test]
fn format_1_is_begun_and_kept(rt: HostRuntime) -> Result<(), Fail> {
    // What stands in area 0 behind the record of the checkpoint, and in area 1 the record that was added.
    for (at, bytes) in [
        (0, [0xA5, 2, 0, 0, 0, 1, 6, 0].as_slice()),
        (21, [0xA5, 0, 0, 0, 0, 0].as_slice()),
    ] {
        let mut journal = begun(rt.alloc(), &FORMAT_1, &[])?;
        add_and_replace(&mut journal)?;
        assert!(rt; holds(journal, 28, at, bytes), "byte {at}");
    }
    Ok(())
}

// Two areas, of which the second rules and has no record, and four bytes behind them.
fn with_bytes_behind(first: u8) -> [u8; 32] {
    let mut bytes = [0; 32];
    bytes[14] = 0xA5;
    bytes[15] = 1;
    bytes[28] = first;
    bytes
}

#[test]
fn bytes_are_read_beside_the_areas(rt: HostRuntime) -> Result<(), Fail> {
    let mut journal = begun(rt.alloc(), &with_bytes_behind(3), &[])?;
    let mut into = [0; 1];
    journal.get(28, &mut into)?;
    assert_eq!(rt; into, [3]);
    Ok(())
}

#[test]
fn bytes_are_put_beside_the_areas(rt: HostRuntime) -> Result<(), Fail> {
    let mut journal = begun(rt.alloc(), &with_bytes_behind(0), &[])?;
    journal.put(28, &[3])?;
    assert!(rt; holds(journal, 32, 28, &[3]));
    Ok(())
}

#[test]
fn a_disk_fault_is_told(rt: HostRuntime) -> Result<(), Fail> {
    let mut journal = begun(rt.alloc(), &with_bytes_behind(0), &[5, 6])?;
    let mut into = [0; 1];
    let put = journal.put(28, &[3]);
    let got = journal.get(28, &mut into);
    assert_eq!(rt; (put, got), (Err(DiskFault), Err(DiskFault)));
    Ok(())
}

// What adding a record whose gate fails and settling it answer; then it is settled, and the record added.
fn in_doubt(
    journal: &mut Journal<MemDisk>,
) -> Result<(Result<(), JournalRefusal>, Result<(), DiskFault>), Fail>
    requires settled { journal.old.in_doubt ≡ false }
{
    journal.reserve(1)?;
    let appended = journal.append(&[8]);
    let settled = journal.settle();
    journal.settle()?;
    journal.reserve(1)?;
    journal.append(&[8])?;
    Ok((appended, settled))
}

#[test]
fn a_gate_in_doubt_is_settled(rt: HostRuntime) -> Result<(), Fail> {
    // The seventh call is the gate's write of the append.
    let mut journal = begun(rt.alloc(), &with_bytes_behind(0), &[7, 8])?;
    assert_eq!(rt;
        in_doubt(&mut journal)?,
        (Err(JournalRefusal::DiskFault), Err(DiskFault))
    );
    let gates = [0xA5, 1, 0, 0, 0, 0, 0xA5, 1, 0, 0, 0, 8, 0];
    assert!(rt; holds(journal, 32, 14, &gates));
    Ok(())
}

// A disk of 28 bytes that tells nothing, with the example in format 1.
fn silent_disk(alloc: Global) -> Result<SilentDisk, Fail>
    ensures { IfOk result (λ disk. length disk.0 ≡ 28) }
{
    let mut disk = SilentDisk(RamDisk::make(alloc, 28)?);
    disk.write(0, &FORMAT_1)?;
    Ok(disk)
}

// Adds an empty record on a silent disk, and gives the disk back.
fn append_in_silence(alloc: Global) -> Result<SilentDisk, Fail>
    ensures { IfOk result (λ disk. length disk.0 ≡ 28) }
{
    let disk = silent_disk(alloc)?;
    let mut journal = match Journal::begin(alloc, disk, areas_of_both()) {
        Ok(journal) => journal,
        Err((_, refusal)) => return Err(refusal.into()),
    };
    journal.reserve(1)?;
    journal.append(&[])?;
    Ok(journal.give_back())
}

#[test]
fn a_disk_that_tells_nothing_serves_too(rt: HostRuntime) -> Result<(), Fail> {
    let mut disk = append_in_silence(rt.alloc())?;
    let mut bytes = [0; 1];
    disk.read(21, &mut bytes)?;
    assert_eq!(rt; (disk.len(), bytes), (28, [0xA5]));
    Ok(())
}
