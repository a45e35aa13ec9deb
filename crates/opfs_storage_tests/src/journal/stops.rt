//! A disk that stops within each call of three appends and a checkpoint, and is begun again.

ghost use Rattle.std.specs.Prelude.{◌≡◌, ◌≤◌, ◌<◌, false, length, IfOk};

use opfs_journal::{Areas, Journal, JournalRefusal, OpenRefusal};
use opfs_memory::MemDisk;
use opfs_outside::Disk;
use std::alloc::{AllocError, Global};
use std::test::Fail;

const AREAS: Areas = Areas {
    first: 0,
    bytes: 32,
};

// Area 0 has the first record of an empty map, with nothing behind it.
fn formatted(alloc: Global) -> Result<Vec<u8>, AllocError>
    ensures { IfOk result (λ bytes. length bytes.items ≡ 64) }
{
    let mut bytes = [0; 64];
    bytes[0] = 0xA5;
    bytes[1] = 1;
    bytes[5] = 16;
    bytes.to_vec(alloc)
}

fn work(journal: &mut Journal<MemDisk>) -> Result<(), JournalRefusal>
    requires settled { journal.old.in_doubt ≡ false }
    requires spare { 1 ≤ journal.old.spare }
{
    journal.append(&[1])?;
    journal.append(&[2])?;
    journal.append(&[3])?;
    journal.checkpoint(&[9])
}

// The journal that a disk of at least 64 bytes holds.
fn begun(alloc: Global, disk: MemDisk) -> Result<Journal<MemDisk>, OpenRefusal>
    requires { 64 ≤ length disk.first }
    ensures { IfOk result (λ journal. journal.in_doubt ≡ false) }
{
    match Journal::begin(alloc, disk, AREAS) {
        Ok(journal) => Ok(journal),
        Err((_, refusal)) => Err(refusal),
    }
}

// The disk after the work, whose calls after the stop fail. To begin takes four calls, and each step four more.
fn run(alloc: Global, stop: u64) -> Result<MemDisk, Fail> {
    let image = formatted(alloc)?;
    let disk = MemDisk::make(alloc, image, Vec::new(alloc), Some(stop), 64, 256)?;
    let mut journal = begun(alloc, disk)?;
    journal.reserve(1)?;
    let _ = work(&mut journal);
    Ok(journal.give_back())
}

// Adds a record.
fn add(journal: &mut Journal<MemDisk>) -> Result<(), Fail> {
    journal.reserve(1)?;
    journal.settle()?;
    journal.append(&[7])?;
    Ok(())
}

// Whether a gate of an image is closed, and opens where a record is added after the image is begun again.
fn is_next_gate(alloc: Global, image: Vec<u8>, gate: usize) -> Result<bool, Fail> {
    if image.len() != 64 || image.get(gate) == Some(&0xA5) {
        return Ok(false);
    }
    let disk = MemDisk::make(alloc, image, Vec::new(alloc), None, 64, 256)?;
    let mut journal = begun(alloc, disk)?;
    add(&mut journal)?;
    let disk = journal.give_back();
    let content = disk.content();
    Ok(content.len() == 64 && opens(content, gate))
}

// Whether an open gate stands at a place, and five bytes behind it the byte of the record.
fn opens(content: &[u8], gate: usize) -> bool {
    match content.get(gate..) {
        Some([0xA5, _, _, _, _, 7, ..]) => true,
        _ => false,
    }
}

// The gate behind the records before and after each step.
const GATES: [(usize, usize); 4] = [(6, 12), (12, 18), (18, 24), (24, 39)];

// The image that a crash after so many calls leaves, of a disk that made them.
fn image(
    alloc: Global,
    disk: &MemDisk,
    calls: u64,
    choice: &[u8],
) -> Result<Option<Vec<u8>>, AllocError> {
    if disk.calls() < calls || choice.len() as u64 != disk.len() {
        return Ok(None);
    }
    let image = disk.image(alloc, calls, choice)?;
    Ok(Some(image))
}

// Whether a disk that stopped with these bytes of choice has records up to this gate.
fn left_up_to(
    alloc: Global,
    stopped: &MemDisk,
    calls: u64,
    choice: &[u8],
    gate: usize,
) -> Result<bool, Fail> {
    match image(alloc, stopped, calls, choice)? {
        Some(image) => is_next_gate(alloc, image, gate),
        None => Ok(false),
    }
}

// Whether a stop within the next call leaves the records up to the first gate where that call writes nothing, and up to the second where it writes all, or
// as much as opens each gate.
fn leaves(alloc: Global, done: u64, before: usize, opened: usize) -> Result<[bool; 3], Fail>
    requires { done < 64 }
{
    let stopped = run(alloc, done)?;
    let next = run(alloc, done + 1)?;
    let open = vec![in alloc; 0xA5; 64]?;
    let none = left_up_to(alloc, &stopped, done + 1, stopped.synced(), before)?;
    let whole = left_up_to(alloc, &stopped, done + 1, next.content(), opened)?;
    let torn = left_up_to(alloc, &stopped, done + 1, open.as_slice(), opened)?;
    Ok([none, whole, torn])
}

#[test]
fn a_stop_within_each_call_leaves_the_records_or_one_step_more(
    rt: HostRuntime,
) -> Result<(), Fail> {
    let mut done = 4;
    for (before, after) in GATES {
        for phase in 0..4 {
            assert!(rt; done < 64);
            // The gate's byte is in play once the record behind it is durable.
            let opened = if phase < 2 { before } else { after };
            assert_eq!(rt;
                leaves(rt.alloc(), done, before, opened)?,
                [true; 3],
                "call {done}"
            );
            done += 1;
        }
    }
    Ok(())
}
