//! A disk that stops or fails within each call of a work: each image shows a front of its changes, with each content that is
//! committed.

use crate::commits::works::{CHANGES, change, first_image, journal_of, work};
use opfs_base::Path;
use opfs_codec::Change;
use opfs_image::{Recovered, recover};
use opfs_memory::MemDisk;
use opfs_outside::Disk;
use std::alloc::{AllocError, Global};
use std::test::Fail;

// Whether an image shows a change of the work.
fn has(image: &Recovered<MemDisk>, root: &Path, change: &Change) -> bool {
    match change {
        Change::MakeRoot(unit) => image.tree.kind(unit, root).is_some(),
        Change::MakeDir(unit, path) => image.tree.kind(unit, path).is_some(),
        Change::MakeFile(unit, path, _) => image.tree.kind(unit, path).is_some(),
        Change::Content(unit, path, stamp, _, _) => match image.tree.file(unit, path) {
            Some(file) => file.stamp >= *stamp,
            None => false,
        },
        Change::Persist(unit) => image.shed.is_persistent(unit),
        _ => false,
    }
}

// Whether an image shows the change of the work that bytes spell.
fn has_spelled(
    alloc: Global,
    image: &Recovered<MemDisk>,
    root: &Path,
    bytes: &[u8],
) -> Result<bool, AllocError> {
    let own = change(alloc, bytes)?;
    let has = has(image, root, &own);
    drop(own);
    Ok(has)
}

// How many changes of the work an image that is read shows, if they are the first ones.
fn shown_in(
    alloc: Global,
    image: &Recovered<MemDisk>,
    root: &Path,
) -> Result<Option<usize>, AllocError> {
    let mut shown = 0;
    for (i, bytes) in CHANGES.iter().enumerate() {
        if has_spelled(alloc, image, root, bytes)? {
            if shown != i {
                return Ok(None);
            }
            shown = i + 1;
        }
    }
    Ok(Some(shown))
}

// How many changes of the work an image shows, if it is one and they are the first ones.
fn shown(alloc: Global, image: Vec<u8>) -> Result<Option<usize>, AllocError> {
    let disk = MemDisk::make(alloc, image, Vec::new(alloc), None, 64, 64)?;
    match recover(alloc, disk) {
        Ok(image) => {
            let shown = shown_in(alloc, &image, &Path::root(alloc));
            drop(image);
            shown
        }
        Err(_) => Ok(None),
    }
}

// The disk after the work, how many changes are committed up to the last content that is, and how many are told.
fn run(
    alloc: Global,
    fails: &[u64],
    stop: Option<u64>,
) -> Result<(MemDisk, usize, usize), AllocError> {
    let fails = fails.to_vec(alloc)?;
    let image = first_image(alloc)?;
    let disk = MemDisk::make(alloc, image, fails, stop, 256, 65536)?;
    work(alloc, disk)
}

// Whether what a crash leaves of a disk after so many calls shows a front that is long enough.
fn is_front(
    alloc: Global,
    disk: &MemDisk,
    calls: u64,
    choice: &[u8],
    floor: usize,
    told: usize,
) -> Result<bool, AllocError> {
    if choice.len() as u64 != disk.len() {
        return Ok(false);
    }
    let image = disk.image(alloc, calls.min(disk.calls()), choice)?;
    Ok(match shown(alloc, image)? {
        Some(n) => floor <= n && n <= told,
        None => false,
    })
}

// The same, where the bytes written since the last sync are not there, are there, or are others.
fn are_seen(
    alloc: Global,
    disk: &MemDisk,
    calls: u64,
    written: &[u8],
    floor: usize,
    told: usize,
) -> Result<bool, AllocError> {
    let others = vec![in alloc; 0xA5; 20480]?;
    let old = is_front(alloc, disk, calls, disk.synced(), floor, told)?;
    let new = is_front(alloc, disk, calls, written, floor, told)?;
    let other = is_front(alloc, disk, calls, &others, floor, told)?;
    Ok(old && new && other)
}

// What a disk that stops after so many calls holds after the work.
fn content_after(alloc: Global, fails: &[u64], stop: u64) -> Result<Vec<u8>, AllocError> {
    let (disk, _, _) = run(alloc, fails, Some(stop))?;
    let content = disk.content().to_vec(alloc);
    drop(disk);
    content
}

// Whether a disk that stops within a call shows fronts.
fn are_fronts(alloc: Global, fails: &[u64], stop: u64) -> Result<bool, AllocError> {
    let within = stop.saturating_add(1);
    let written = content_after(alloc, fails, within)?;
    let (disk, floor, told) = run(alloc, fails, Some(stop))?;
    let seen = are_seen(alloc, &disk, within, &written, floor, told);
    drop(disk);
    seen
}

// Each of the four commits makes a write of its record, a sync, a write of its gate and a sync.
const CALLS: u64 = 16;

// How many calls the recovery of the first image and the work take.
fn calls_of_all(alloc: Global) -> Result<u64, AllocError> {
    let (disk, _, _) = run(alloc, &[], None)?;
    let calls = disk.calls();
    drop(disk);
    Ok(calls)
}

// How many calls the recovery of the first image takes.
fn calls_of_recovery(alloc: Global) -> Result<u64, AllocError> {
    let image = first_image(alloc)?;
    let disk = MemDisk::make(alloc, image, Vec::new(alloc), None, 64, 64)?;
    let disk = journal_of(alloc, disk)?.give_back();
    let calls = disk.calls();
    drop(disk);
    Ok(calls)
}

// After how many calls the image is recovered, if the work then takes so many.
fn begun(alloc: Global) -> Result<Option<u64>, AllocError> {
    let all = calls_of_all(alloc)?;
    let begun = calls_of_recovery(alloc)?;
    Ok(if begun.saturating_add(CALLS) == all {
        Some(begun)
    } else {
        None
    })
}

// The first call of the work at which a stop shows no front; 0 if the work takes other calls, and none if each shows one.
fn first_without_front(alloc: Global) -> Result<Option<u64>, AllocError> {
    let Some(begun) = begun(alloc)? else {
        return Ok(Some(0));
    };
    for more in 0..17 {
        let stop = begun.saturating_add(more);
        if !are_fronts(alloc, &[], stop)? {
            return Ok(Some(stop));
        }
    }
    Ok(None)
}

#[test]
fn a_stop_within_each_call_shows_a_front(rt: HostRuntime) -> Result<(), Fail> {
    assert_eq!(rt; first_without_front(rt.alloc())?, None);
    Ok(())
}

// Whether the work over a disk whose call of this number fails is done in the end.
fn is_made_up_for(alloc: Global, call: u64) -> Result<bool, AllocError> {
    let (disk, floor, told) = run(alloc, &[call], None)?;
    let faults = disk.faults();
    let content = disk.content().to_vec(alloc);
    drop(disk);
    let all = shown(alloc, content?)? == Some(8);
    Ok(faults == 1 && floor == 7 && told == 8 && all)
}

// The first call of the work whose failing is not made up for; 0 if the work takes other calls, and none if each is.
fn first_not_made_up_for(alloc: Global) -> Result<Option<u64>, AllocError> {
    let Some(begun) = begun(alloc)? else {
        return Ok(Some(0));
    };
    for more in 1..17 {
        let call = begun.saturating_add(more);
        if !is_made_up_for(alloc, call)? {
            return Ok(Some(call));
        }
    }
    Ok(None)
}

#[test]
fn a_call_that_fails_once_is_made_up_for(rt: HostRuntime) -> Result<(), Fail> {
    assert_eq!(rt; first_not_made_up_for(rt.alloc())?, None);
    Ok(())
}

// Whether each image that a stop leaves shows a front, where a call before it failed.
fn are_fronts_behind(alloc: Global, call: u64) -> Result<bool, AllocError> {
    for more in 0..20 {
        if !are_fronts(alloc, &[call], call.saturating_add(more))? {
            return Ok(false);
        }
    }
    Ok(true)
}

// The first call of the work behind whose failing an image shows no front; 0 if the work takes other calls, and none if each
// shows one.
fn first_without_front_behind(alloc: Global) -> Result<Option<u64>, AllocError> {
    let Some(begun) = begun(alloc)? else {
        return Ok(Some(0));
    };
    for more in 1..17 {
        let call = begun.saturating_add(more);
        if !are_fronts_behind(alloc, call)? {
            return Ok(Some(call));
        }
    }
    Ok(None)
}

#[test]
fn each_image_after_a_failing_call_shows_a_front(rt: HostRuntime) -> Result<(), Fail> {
    assert_eq!(rt; first_without_front_behind(rt.alloc())?, None);
    Ok(())
}
