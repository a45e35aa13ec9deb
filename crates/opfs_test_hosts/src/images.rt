//! Hosts in memory with an image at the path `I`, and what a crash leaves of their disks.

use crate::asking::{bytes_of, done};
use opfs_memory::{MemDisk, MemHost};
use opfs_outside::Disk;
use std::alloc::{AllocError, Global};

// How many calls a disk keeps, and how many bytes that were written.
const CALLS: u64 = 65_536;

const WRITTEN: u64 = 16_777_216;

/// A host with this image at the path `I`, and others by their paths, whose disks fail these calls, and all behind the stop.
pub fn host_among(
    alloc: Global,
    image: &[u8],
    others: &[(Vec<u8>, Vec<u8>)],
    fails: &[u64],
    stop: Option<u64>,
) -> Result<MemHost, AllocError> {
    let mut images = Vec::from_array(alloc, [(bytes_of(alloc, "I")?, image.to_vec(alloc)?)])?;
    for (path, other) in others {
        images.push((path.to_vec(alloc)?, other.to_vec(alloc)?))?;
    }
    let own = Vec::new(alloc);
    let fails = fails.to_vec(alloc)?;
    MemHost::make(alloc, images, own, fails, stop, CALLS, WRITTEN)
}

/// A host with this image at the path `I`.
pub fn host_with(alloc: Global, image: &[u8]) -> Result<MemHost, AllocError> {
    host_among(alloc, image, &[], &[], None)
}

/// A host without images.
pub fn host(alloc: Global) -> Result<MemHost, AllocError> {
    let images = Vec::new(alloc);
    let own = Vec::new(alloc);
    let fails = Vec::new(alloc);
    MemHost::make(alloc, images, own, fails, None, CALLS, WRITTEN)
}

/// The image at the path `I`; nothing where there is none.
pub fn content(host: &MemHost) -> &[u8] {
    match host.image("I") {
        Some(image) => image,
        None => &[],
    }
}

/// How many calls the disk has kept that came back last for that path.
pub fn calls(host: &MemHost) -> u64 {
    match host.given("I") {
        Some(disk) => disk.calls(),
        None => 0,
    }
}

/// A new image of so many data blocks, blocks of an area, and blocks of quota: three numbers apart by blanks.
pub fn new_image(alloc: Global, numbers: &str) -> Result<Vec<u8>, AllocError> {
    let mut host = host(alloc)?;
    let command = format!(in alloc; "format I {numbers}")?;
    let _ = done(alloc, command.as_str(), &mut host)?;
    content(&host).to_vec(alloc)
}

/// What `check` tells of an image.
pub fn checked(alloc: Global, image: &[u8]) -> Result<String, AllocError> {
    let mut host = host_with(alloc, image)?;
    done(alloc, "check I", &mut host)
}

/// What a crash leaves of a disk after so many calls, with these bytes wherever it was written since the last sync;
/// nothing where there is no such moment.
pub fn image_after(
    alloc: Global,
    disk: &MemDisk,
    calls: u64,
    choice: &[u8],
) -> Result<Vec<u8>, AllocError> {
    if calls > disk.calls() || choice.len() as u64 != disk.len() {
        return Ok(Vec::new(alloc));
    }
    disk.image(alloc, calls, choice)
}
