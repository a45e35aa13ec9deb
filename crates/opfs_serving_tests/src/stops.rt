//! A disk that stops or fails within each call of a conversation: what was answered until then is in each image.

use crate::talking::{disk_of, lines_of};
use opfs_codec::{Change, Format, read};
use opfs_desk::Desk;
use opfs_image::{Geometry, format, recover};
use opfs_memory::MemDisk;
use opfs_outside::Disk;
use opfs_port::{MemoryPort, Spoken};
use opfs_serve_runs::{ServedRun, first_agents, serve_disk};
use std::alloc::{AllocError, Global};
use std::sync::Wait;
use std::test::Fail;

const FIRST: &str = r#"{"agents":[{"origin":"https://a.example"}]}"#;

// Four times a file is stored, with the stamps 1 to 4: by a close, a flush, the close of an access handle and another close. In between entries are
// made, which are kept back.
const LINES: &str = r#"1 {"do":"getDirectory","as":"d"}
1 {"do":"getFileHandle","dir":"d","name":"f","create":true,"as":"f"}
1 {"do":"moment","ms":1}
1 {"do":"createWritable","file":"f","as":"w"}
1 {"do":"write","stream":"w","data":"one"}
1 {"do":"close","stream":"w"}
1 {"do":"getDirectoryHandle","dir":"d","name":"g","create":true,"as":"g"}
1 {"do":"moment","ms":2}
1 {"do":"createSyncAccessHandle","file":"f","as":"h"}
1 {"do":"syncWrite","sync":"h","data":{"fill":65,"count":5000},"at":0}
1 {"do":"syncFlush","sync":"h"}
1 {"do":"moment","ms":3}
1 {"do":"syncTruncate","sync":"h","size":7}
1 {"do":"syncClose","sync":"h"}
1 {"do":"removeEntry","dir":"d","name":"g"}
1 {"do":"moment","ms":4}
1 {"do":"createWritable","file":"f","as":"w"}
1 {"do":"write","stream":"w","data":"four"}
1 {"do":"close","stream":"w"}
"#;

// The answers by which a stamp is acknowledged, in order.
const ANSWERS: [&str; 4] = [
    "1.6 close ok",
    "1.11 syncFlush ok",
    "1.14 syncClose ok",
    "1.19 close ok",
];

// The change that makes the file, as it is spelled.
const FILE: &[u8] =
    b"\x03\x11\x00https://a.example\x07default\x01\x01f\x00\x00\x00\x00\x00\x00\x00\x00";

// An image that holds nothing.
fn image(alloc: Global) -> Result<Vec<u8>, AllocError> {
    let zeros = vec![in alloc; 0u8; 102400]?;
    let mut disk = MemDisk::make(alloc, zeros, Vec::new(alloc), None, 64, 262144)?;
    let sizes = Geometry {
        areas: 4,
        blocks: 16,
        quota: 16,
    };
    match format(&mut disk, sizes) {
        Ok(()) => disk.content().to_vec(alloc),
        Err(_) => Err(AllocError),
    }
}

// The stamp that a line acknowledges, or the one that is acknowledged already.
fn later(stamp: u64, line: &[u8]) -> u64 {
    match ANSWERS.iter().position(|answer| line == answer.as_bytes()) {
        Some(at) => at as u64 + 1,
        None => stamp,
    }
}

// The last stamp that is acknowledged in a conversation, 0 where none is.
fn last_stamp(spoken: &[Spoken<Desk<MemDisk>>]) -> u64 {
    let mut stamp = 0;
    for word in spoken {
        if word.is_told() {
            stamp = later(stamp, word.line());
        }
    }
    stamp
}

// The conversation over a disk: the last stamp that is acknowledged, 0 where none is, and the disk then.
fn talk<R: AllocGlobal + Wait>(rt: &R, disk: MemDisk) -> Result<(u64, MemDisk), AllocError> {
    let alloc = rt.alloc();
    let lines = lines_of(alloc, LINES)?;
    let Ok(script) = first_agents(alloc, FIRST.as_bytes()) else {
        return Err(AllocError);
    };
    let mut port = MemoryPort::<Desk<MemDisk>>::make(alloc, lines, Vec::new(alloc));
    let left = match serve_disk(rt, disk, script.agents(), &mut port) {
        Ok(ServedRun { run, state: _ }) => disk_of(run),
        Err((disk, _)) => disk,
    };
    Ok((last_stamp(port.spoken()), left))
}

// The same over a disk whose calls of these numbers fail, and those after `stop`.
fn run<R: AllocGlobal + Wait>(
    rt: &R,
    fails: &[u64],
    stop: Option<u64>,
) -> Result<(u64, MemDisk), AllocError> {
    let alloc = rt.alloc();
    let disk = MemDisk::make(
        alloc,
        image(alloc)?,
        fails.to_vec(alloc)?,
        stop,
        256,
        262144,
    )?;
    talk(rt, disk)
}

// The stamp of the file in an image: 0 where it is not there or was never stored; None where the image is refused.
fn stamp_in(alloc: Global, image: Vec<u8>) -> Result<Option<u64>, AllocError> {
    let Some((Change::MakeFile(unit, path, _), _)) = read(alloc, FILE, 0)? else {
        return Ok(None);
    };
    let disk = MemDisk::make(alloc, image, Vec::new(alloc), None, 64, 64)?;
    let Ok(found) = recover(alloc, disk) else {
        return Ok(None);
    };
    Ok(match found.tree.file(&unit, &path) {
        Some(file) => Some(file.stamp),
        None => Some(0),
    })
}

// Whether a stamp, or a later one, was found.
fn is_kept(stamp: u64, found: Option<u64>) -> bool {
    match found {
        Some(found) => stamp <= found,
        None => false,
    }
}

// Whether what a crash leaves of a disk after so many calls has a stamp, or a later one.
fn has<R: AllocGlobal>(
    rt: &R,
    disk: &MemDisk,
    calls: u64,
    choice: &[u8],
    stamp: u64,
) -> Result<bool, AllocError> {
    if choice.len() as u64 != disk.len() {
        return Ok(false);
    }
    let image = disk.image(rt.alloc(), calls.min(disk.calls()), choice)?;
    let found = stamp_in(rt.alloc(), image)?;
    Ok(is_kept(stamp, found))
}

// The same of a disk that stops within a call: the bytes written since the last sync are not there, are there, or are others.
fn stands<R: AllocGlobal + Wait>(rt: &R, fails: &[u64], stop: u64) -> Result<bool, AllocError> {
    let within = stop.saturating_add(1);
    let (stamp, disk) = run(rt, fails, Some(stop))?;
    let (_, next) = run(rt, fails, Some(within))?;
    let others = vec![in rt.alloc(); 0xA5; 102400]?;
    let old = has(rt, &disk, within, disk.synced(), stamp)?;
    let new = has(rt, &disk, within, next.content(), stamp)?;
    let other = has(rt, &disk, within, &others, stamp)?;
    Ok(old && new && other)
}

#[test]
fn what_is_answered_stands_where_the_disk_stops(rt: HostRuntime) -> Result<(), Fail> {
    let (stamp, disk) = run(&rt, &[], None)?;
    assert!(rt; stamp == 4);
    for stop in 0..disk.calls() {
        assert!(rt; stands(&rt, &[], stop)?, "{stop}");
    }
    Ok(())
}

// Whether the image that a disk has behind a call that failed, and those behind a stop that follows, have what was answered.
fn keeps<R: AllocGlobal + Wait>(rt: &R, call: u64) -> Result<[bool; 2], AllocError> {
    let (stamp, disk) = run(rt, &[call], None)?;
    let left = disk.content().to_vec(rt.alloc())?;
    let found = stamp_in(rt.alloc(), left)?;
    let stands = stands(rt, &[call], call.saturating_add(3))?;
    Ok([is_kept(stamp, found), stands])
}

#[test]
fn what_is_answered_stands_where_a_call_fails(rt: HostRuntime) -> Result<(), Fail> {
    let (_, whole) = run(&rt, &[], None)?;
    for call in 1..whole.calls() {
        assert_eq!(rt; keeps(&rt, call)?, [true; 2], "{call}");
    }
    Ok(())
}
