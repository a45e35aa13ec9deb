//! A host in memory.

use opfs_memory::MemHost;
use opfs_outside::{Disk, Failed, Host, HostStop};
use std::alloc::{AllocError, Global};
use std::test::Fail;

// A host of one image at `a`; its own calls and those of its disks fail where they are named, the disks also from `stop` on.
fn host_of(
    alloc: Global,
    image: &[u8],
    fails: &[u64],
    disk_fails: &[u64],
    stop: Option<u64>,
) -> Result<MemHost, AllocError> {
    let mut images = Vec::new(alloc);
    images.push((b"a".to_vec(alloc)?, image.to_vec(alloc)?))?;
    let fails = fails.to_vec(alloc)?;
    let disk_fails = disk_fails.to_vec(alloc)?;
    MemHost::make(alloc, images, fails, disk_fails, stop, 9, 9)
}

fn given<'a>(host: &'a MemHost, path: &str) -> Option<&'a [u8]> {
    match host.given(path) {
        Some(disk) => Some(disk.content()),
        None => None,
    }
}

// Whether two disks of a path come back one after the other, of which one was changed, and the host has first none of them, and then that one.
fn keeps_the_last(host: &mut MemHost) -> Result<[bool; 9], HostStop> {
    let none = given(host, "a").is_none();
    let first = host.fetch("a")?;
    let mut second = host.fetch("a")?;
    let fetched = first.content() == [1, 2].as_slice();
    let sized = second.len() == 2;
    let written = sized && second.write(1, &[7]).is_ok();
    let both_out = given(host, "a").is_none();
    let second_back = host.give_back("a", second).is_ok();
    let has_second = given(host, "a") == Some([1, 7].as_slice());
    let first_back = host.give_back("a", first).is_ok();
    let has_first = given(host, "a") == Some([1, 2].as_slice());
    Ok([
        none,
        fetched,
        sized,
        written,
        both_out,
        second_back,
        has_second,
        first_back,
        has_first,
    ])
}

// Whether the image at `a` is fetched as these bytes.
fn fetches(host: &mut MemHost, bytes: &[u8]) -> bool {
    match host.fetch("a") {
        Ok(disk) => disk.content() == bytes,
        Err(_) => false,
    }
}

// Whether zeros are made beside an image, and then take its place.
fn makes_zeros(host: &mut MemHost) -> Result<[bool; 6], HostStop> {
    let zeros = host.make("a", 3)?;
    let made = zeros.content() == [0, 0, 0].as_slice();
    let beside = host.image("a") == Some([1, 2].as_slice());
    let old = fetches(host, &[1, 2]);
    let replaced = host.replace("a", zeros).is_ok();
    let has_zeros = given(host, "a") == Some([0, 0, 0].as_slice());
    let placed = host.image("a") == Some([0, 0, 0].as_slice());
    Ok([made, beside, old, replaced, has_zeros, placed])
}

#[test]
fn the_disk_that_was_given_back_last_is_kept(rt: HostRuntime) -> Result<(), Fail> {
    let mut host = host_of(rt.alloc(), &[1, 2], &[], &[], None)?;
    assert_eq!(rt; keeps_the_last(&mut host)?, [true; 9]);
    assert_eq!(rt; makes_zeros(&mut host)?, [true; 6]);
    assert!(rt; given(&host, "").is_none());
    Ok(())
}

// Why a path can't be fetched; none where it can.
fn fetch_stop(host: &mut MemHost, path: &str) -> Option<HostStop> {
    host.fetch(path).err()
}

// Makes a disk of two bytes at `b`, and gives what its three syncs and putting it in place answer; whether it has its size, whether `a` is not fetched,
// whether it then is, and whether nothing stands at `b`.
fn fails_as_named(host: &mut MemHost) -> Result<([Result<(), Failed>; 4], [bool; 4]), HostStop> {
    let mut disk = host.make("b", 2)?;
    let sized = disk.len() == 2;
    let syncs = (disk.sync(), disk.sync(), disk.sync());
    let failed = fetch_stop(host, "a") == Some(HostStop::Failed);
    let fetched = fetches(host, &[5]);
    let replaced = host.replace("b", disk);
    let nothing = given(host, "b").is_none() && host.image("b").is_none();
    Ok((
        [syncs.0, syncs.1, syncs.2, replaced],
        [sized, failed, fetched, nothing],
    ))
}

// Why a disk that was thrown away can't be fetched.
fn thrown_away(host: &mut MemHost) -> Result<Option<HostStop>, HostStop> {
    let disk = host.make("b", 2)?;
    host.discard("b", disk);
    Ok(fetch_stop(host, "b"))
}

// What giving a disk back at another path answers.
fn given_elsewhere(host: &mut MemHost) -> Result<Result<(), Failed>, HostStop> {
    let disk = host.fetch("a")?;
    Ok(host.give_back("c", disk))
}

#[test]
fn a_host_fails_where_it_is_named_or_knows_no_such_path(rt: HostRuntime) -> Result<(), Fail> {
    let mut host = host_of(rt.alloc(), &[5], &[3, 5], &[1], Some(2))?;
    let failed = Some(HostStop::Failed);
    assert_eq!(rt; fetch_stop(&mut host, "b"), failed, "no such path");
    let (answers, facts) = fails_as_named(&mut host)?;
    assert_eq!(rt; answers, [Err(Failed), Ok(()), Err(Failed), Err(Failed)]);
    assert_eq!(rt; facts, [true; 4]);
    assert_eq!(rt; thrown_away(&mut host)?, failed);
    assert_eq!(rt; given_elsewhere(&mut host)?, Err(Failed));
    assert!(rt; given(&host, "c").is_none());
    Ok(())
}
