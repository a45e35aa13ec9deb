//! Disks, sources and sinks in memory.

use opfs_memory::{MemDisk, MemSink, MemSource, RamDisk};
use opfs_outside::{Disk, Failed, Sink, Source};
use std::alloc::{AllocError, Global};
use std::test::Fail;

// What four reads answer, and the bytes that they give.
fn read_all(source: &mut MemSource) -> ([Result<usize, Failed>; 4], [u8; 3]) {
    let mut buf = [0; 2];
    let front = source.read(&mut buf);
    let [first, second] = buf;
    let failed = source.read(&mut buf);
    let rest = source.read(&mut buf);
    let third = buf[0];
    let end = source.read(&mut buf);
    ([front, failed, rest, end], [first, second, third])
}

#[test]
fn a_source_is_read_to_its_end(rt: HostRuntime) -> Result<(), Fail> {
    let alloc = rt.alloc();
    let mut source = MemSource::make([1, 2, 3].to_vec(alloc)?, [2].to_vec(alloc)?);
    assert_eq!(rt;
        read_all(&mut source),
        ([Ok(2), Err(Failed), Ok(1), Ok(0)], [1, 2, 3])
    );
    Ok(())
}

// What five writes answer.
fn write_all(sink: &mut MemSink) -> [Result<usize, Failed>; 5] {
    [
        sink.write(&[1, 2]),
        sink.write(&[3]),
        sink.write(&[3, 4]),
        sink.write(&[]),
        sink.write(&[5]),
    ]
}

#[test]
fn a_sink_takes_what_fits(rt: HostRuntime) -> Result<(), Fail> {
    let alloc = rt.alloc();
    let mut sink = MemSink::make(alloc, 3, [2].to_vec(alloc)?)?;
    assert_eq!(rt;
        write_all(&mut sink),
        [Ok(2), Err(Failed), Ok(1), Ok(0), Err(Failed)]
    );
    assert_eq!(rt; sink.written(), [1, 2, 3].as_slice());
    Ok(())
}

// Whether a thousand bytes can be written, each 29,999 bytes behind the one before.
fn takes_a_thousand(disk: &mut RamDisk) -> bool {
    for at in 0..1_000 {
        if disk.len() != 30_000_000 || disk.write(at * 29_999, &[7]).is_err() {
            return false;
        }
    }
    disk.sync().is_ok()
}

// The second of these bytes, and the one behind it.
fn second_and_next(disk: &mut RamDisk) -> Option<[u8; 2]> {
    let mut buf = [0; 2];
    if disk.len() != 30_000_000 {
        return None;
    }
    disk.read(29_999, &mut buf).ok()?;
    Some(buf)
}

#[test]
fn a_disk_of_zeros_keeps_what_is_written(rt: HostRuntime) -> Result<(), Fail> {
    let mut disk = RamDisk::make(rt.alloc(), 30_000_000)?;
    let taken = takes_a_thousand(&mut disk);
    let found = second_and_next(&mut disk);
    assert_eq!(rt; (taken, found), (true, Some([7, 0])));
    Ok(())
}

// Four bytes on a disk whose third call fails, which stops within the sixth, and has room for five written bytes.
fn four_bytes(alloc: Global) -> Result<MemDisk, AllocError> {
    let content = [1, 2, 3, 4].to_vec(alloc)?;
    let fails = [3].to_vec(alloc)?;
    MemDisk::make(alloc, content, fails, Some(6), 9, 5)
}

// What seven calls answer, the sixth and last but one a read of all, which does not count; and what that read gives.
fn seven_calls(disk: &mut MemDisk) -> Option<([Result<(), Failed>; 7], [u8; 4])> {
    let mut buf = [0; 4];
    if disk.len() != 4 {
        return None;
    }
    let answers = [
        disk.write(0, &[9]),
        disk.sync(),
        disk.write(1, &[8]),
        disk.write(2, &[7]),
        disk.write(0, &[6, 6, 6]),
        disk.read(0, &mut buf),
        disk.sync(),
    ];
    Some((answers, buf))
}

// The image that a crash leaves behind so many calls, where all that was written since a sync is 5.
fn torn(alloc: Global, disk: &MemDisk, calls: u64) -> Result<Option<[u8; 4]>, AllocError> {
    if disk.len() != 4 || disk.calls() < calls {
        return Ok(None);
    }
    let image = disk.image(alloc, calls, &[5, 5, 5, 5])?;
    match image.as_slice() {
        [first, second, third, fourth] => Ok(Some([*first, *second, *third, *fourth])),
        _ => Ok(None),
    }
}

// The images that a crash leaves behind the first, the second and the fourth call.
fn three_torn(alloc: Global, disk: &MemDisk) -> Result<[Option<[u8; 4]>; 3], AllocError> {
    let first = torn(alloc, disk, 1)?;
    let second = torn(alloc, disk, 2)?;
    let fourth = torn(alloc, disk, 4)?;
    Ok([first, second, fourth])
}

#[test]
fn a_crash_leaves_torn_ranges(rt: HostRuntime) -> Result<(), Fail> {
    let mut disk = four_bytes(rt.alloc())?;
    let named = Err(Failed);
    let no_room = Err(Failed);
    let stopped = Err(Failed);
    let answers = [Ok(()), Ok(()), named, Ok(()), no_room, Ok(()), stopped];
    assert_eq!(rt; seven_calls(&mut disk), Some((answers, [9, 2, 7, 4])));
    assert_eq!(rt; disk.calls(), 6);
    assert_eq!(rt; disk.content(), [9, 2, 7, 4].as_slice());
    assert_eq!(rt; disk.synced(), [9, 2, 3, 4].as_slice());
    let torn = three_torn(rt.alloc(), &disk)?;
    assert_eq!(rt;
        torn,
        [Some([5, 2, 3, 4]), Some([9, 2, 3, 4]), Some([9, 5, 5, 4])]
    );
    Ok(())
}
