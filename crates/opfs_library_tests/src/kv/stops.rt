//! A disk that stops within each call: the file then stands for the map after a front of the commands, with each flush that was done.

use crate::kv::steps::{Step, found_after, is_value, ops_of};
use crate::kv::visits::{Ending, Visit, run_visit};
use opfs_image::{Geometry, format};
use opfs_kv::KvReply;
use opfs_memory::MemDisk;
use opfs_outside::Disk;
use std::alloc::{AllocError, Global};
use std::sync::Wait;
use std::test::Fail;

const COMMANDS: [Step; 40] = [
    Step::Put("a", "1"),
    Step::Flush,
    Step::Put("b", "2"),
    Step::Put("c", "3"),
    Step::Get("a"),
    Step::Delete("a"),
    Step::Flush,
    Step::Put("a", "4"),
    Step::Put("d", "5"),
    Step::Compact,
    Step::Get("d"),
    Step::Flush,
    Step::Delete("b"),
    Step::Put("e", "6"),
    Step::Put("e", "7"),
    Step::Flush,
    Step::Delete("c"),
    Step::Get("c"),
    Step::Put("c", "8"),
    Step::Compact,
    Step::Flush,
    Step::Put("b", "9"),
    Step::Delete("d"),
    Step::Flush,
    Step::Put("d", "10"),
    Step::Get("b"),
    Step::Put("a", "11"),
    Step::Flush,
    Step::Delete("e"),
    Step::Delete("e"),
    Step::Put("b", "12"),
    Step::Flush,
    Step::Compact,
    Step::Put("e", "13"),
    Step::Flush,
    Step::Delete("a"),
    Step::Put("c", "14"),
    Step::Flush,
    Step::Get("c"),
    Step::Flush,
];

const KEYS: [&str; 5] = ["a", "b", "c", "d", "e"];

const LOOKS: [Step; 5] = [
    Step::Get("a"),
    Step::Get("b"),
    Step::Get("c"),
    Step::Get("d"),
    Step::Get("e"),
];

// The bytes of an image that holds nothing, of 11 blocks.
fn first_image(alloc: Global) -> Result<Vec<u8>, AllocError> {
    let zeros = vec![in alloc; 0u8; 45_056]?;
    let mut disk = MemDisk::make(alloc, zeros, Vec::new(alloc), None, 64, 65_536)?;
    let sizes = Geometry {
        areas: 1,
        blocks: 8,
        quota: 8,
    };
    match format(&mut disk, sizes) {
        Ok(()) => disk.content().to_vec(alloc),
        Err(_) => Err(AllocError),
    }
}

// A disk of an image that stops after so many calls.
fn disk_of(alloc: Global, image: Vec<u8>, stop: Option<u64>) -> Result<MemDisk, AllocError> {
    MemDisk::make(alloc, image, Vec::new(alloc), stop, 1024, 1_048_576)
}

// The disk after the commands, and what they were answered as long as the file was open.
fn run<R: AllocGlobal + Wait>(
    rt: &R,
    stop: Option<u64>,
) -> Result<(MemDisk, Vec<KvReply>), AllocError> {
    let alloc = rt.alloc();
    let disk = disk_of(alloc, first_image(alloc)?, stop)?;
    let ops = ops_of(alloc, &COMMANDS)?;
    let Visit { disk, found, .. } = match run_visit(rt, disk, &ops, Ending::Close) {
        Ok(visit) => visit,
        Err(disk) => return Ok((disk, Vec::new(alloc))),
    };
    match found {
        Ok(replies) => Ok((disk, replies.list)),
        Err(_) => Ok((disk, Vec::new(alloc))),
    }
}

// How many commands there are up to the last flush that was done.
fn flushed(replies: &[KvReply]) -> usize {
    let mut count = 0;
    for (i, step) in COMMANDS.iter().enumerate() {
        if let (Step::Flush, Some(KvReply::Done)) = (step, replies.get(i)) {
            count = i.saturating_add(1);
        }
    }
    count
}

// Whether what was found of the keys is the map after these steps.
fn is_map(found: &[KvReply], steps: &[Step]) -> bool {
    for (i, key) in KEYS.iter().enumerate() {
        if !is_value(found.get(i), found_after(steps, key)) {
            return false;
        }
    }
    true
}

// Whether it is the map after a front of so many commands or more.
fn is_front(found: &[KvReply], floor: usize) -> bool {
    for count in floor..COMMANDS.len() + 1 {
        if is_map(found, COMMANDS.get(..count).unwrap_or(&[])) {
            return true;
        }
    }
    false
}

// Whether the file of an image stands for the map after such a front.
fn shows_front<R: AllocGlobal + Wait>(
    rt: &R,
    image: Vec<u8>,
    floor: usize,
) -> Result<bool, AllocError> {
    let alloc = rt.alloc();
    let ops = ops_of(alloc, &LOOKS)?;
    let disk = disk_of(alloc, image, None)?;
    let Ok(Visit { found, .. }) = run_visit(rt, disk, &ops, Ending::GiveUp) else {
        return Ok(false);
    };
    match found {
        Ok(found) => Ok(is_front(&found.list, floor)),
        Err(_) => Ok(false),
    }
}

// The same of the image that is left after so many calls, with the bytes of `choice` where no sync came.
fn leaves_front<R: AllocGlobal + Wait>(
    rt: &R,
    disk: &MemDisk,
    calls: u64,
    choice: &[u8],
    floor: usize,
) -> Result<bool, AllocError> {
    if choice.len() as u64 != disk.len() {
        return Ok(false);
    }
    let image = disk.image(rt.alloc(), calls.min(disk.calls()), choice)?;
    shows_front(rt, image, floor)
}

// The same of a disk that stops within a call: the bytes since the last sync are not there, are there, or are others.
fn stops_at_front<R: AllocGlobal + Wait>(rt: &R, stop: u64) -> Result<bool, AllocError> {
    let (disk, replies) = run(rt, Some(stop))?;
    let floor = flushed(&replies);
    let within = stop.saturating_add(1);
    let others = vec![in rt.alloc(); 0xA5u8; 45_056]?;
    let old = leaves_front(rt, &disk, within, disk.synced(), floor)?;
    let new = leaves_front(rt, &disk, within, disk.content(), floor)?;
    let other = leaves_front(rt, &disk, within, &others, floor)?;
    Ok(old && new && other)
}

// How many calls the commands take, if all are done and stored.
fn calls<R: AllocGlobal + Wait>(rt: &R) -> Result<u64, AllocError> {
    let (disk, replies) = run(rt, None)?;
    let content = disk.content().to_vec(rt.alloc())?;
    if flushed(&replies) == 40 && shows_front(rt, content, 40)? {
        Ok(disk.calls())
    } else {
        Err(AllocError)
    }
}

#[test]
fn a_stop_within_each_call_leaves_a_front(rt: HostRuntime) -> Result<(), Fail> {
    for stop in 0..calls(&rt)? {
        assert!(rt; stops_at_front(&rt, stop)?, "{stop}");
    }
    Ok(())
}
