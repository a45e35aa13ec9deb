//! Hosts over a real folder.

use opfs_files::DirHost;
use opfs_outside::{Disk, Failed, Host, HostStop};
use std::fs::{self, File, Files, OpenFile, Permissions};
use std::io;
use std::os::unix::fs::PermissionsExt;
use std::test::Fail;

const IMAGE: &str = "opfs_files_host.image";

const IMAGE_BESIDE: &str = "opfs_files_host.image.new";

const IMAGE_TO_READ: &str = "opfs_files_read_only.image";

/// All bytes of a disk of three.
fn bytes_of<D: Disk>(disk: &mut D) -> Result<[u8; 3], Failed> {
    let mut bytes = [9; 3];
    if disk.len() != 3 {
        return Err(Failed);
    }
    disk.read(0, &mut bytes)?;
    Ok(bytes)
}

/// A file of three bytes that a host makes.
fn made<H: Host>(host: &mut H) -> Result<(), HostStop> {
    let mut disk = host.make(IMAGE, 3)?;
    let written = disk.write(1, b"ab");
    let placed = host.replace(IMAGE, disk);
    written.and(placed).map_err(|_| HostStop::Failed)
}

/// The bytes of the file at the path, as they are fetched.
fn fetched<H: Host>(host: &mut H) -> Result<[u8; 3], Failed> {
    match host.fetch(IMAGE) {
        Ok(mut disk) => {
            let bytes = bytes_of(&mut disk);
            host.give_back(IMAGE, disk).and(bytes)
        }
        Err(_) => Err(Failed),
    }
}

/// Whether the file at the path has the three bytes that were made.
fn is_as_made(rt: &(impl Files + AllocGlobal), path: &str) -> io::Result<bool> {
    let bytes = fs::read(rt, path)?;
    Ok(bytes.as_slice() == b"\0ab".as_slice())
}

/// Makes three zeros beside the file, and throws them away; gives them, and whether the file is as it was before and behind that.
fn made_and_thrown_away<H: Host, R: Files + AllocGlobal>(
    rt: &R,
    host: &mut H,
) -> Result<([u8; 3], [bool; 2]), Fail> {
    let mut anew = host.make(IMAGE, 3)?;
    let zeros = bytes_of(&mut anew);
    let before = is_as_made(rt, IMAGE);
    host.discard(IMAGE, anew);
    Ok((zeros?, [before?, is_as_made(rt, IMAGE)?]))
}

/// Whether no file can be fetched that is not there.
fn finds_none<H: Host>(host: &mut H) -> bool {
    match host.fetch(IMAGE) {
        Ok(disk) => {
            let _ = host.give_back(IMAGE, disk);
            false
        }
        Err(stop) => stop == HostStop::Failed,
    }
}

/// Whether no file of so many bytes can be made at a path.
fn makes_none<H: Host>(host: &mut H, path: &str, size: u64) -> bool {
    match host.make(path, size) {
        Ok(disk) => {
            host.discard(path, disk);
            false
        }
        Err(stop) => stop == HostStop::Failed,
    }
}

/// What is fetched where a file was made, the zeros that are made beside it, and whether the file stays as it is meanwhile and then.
fn keeps_what_was_made<H: Host, R: Files + AllocGlobal>(
    rt: &R,
    host: &mut H,
) -> Result<([u8; 3], [u8; 3], [bool; 2]), Fail> {
    made(host)?;
    let bytes = fetched(host)?;
    let (zeros, stays) = made_and_thrown_away(rt, host)?;
    Ok((bytes, zeros, stays))
}

/// Whether it is known that nothing stands at a path.
fn is_missing(files: &impl Files, path: &str) -> bool {
    matches!(fs::exists(files, path), Ok(false))
}

/// How often a host or its disks have failed, and how often it has itself.
fn counts<R: Files<File = File>>(host: &DirHost<R>) -> (u64, u64) {
    (host.faults(), host.own_faults())
}

/// Whether a file that is missing is not fetched, none is made in a folder that is missing, and none that is too long; and the counts behind each.
fn fails_three_times<R: Files<File = File>>(host: &mut DirHost<R>) -> [(bool, (u64, u64)); 3] {
    let missing = (finds_none(host), counts(host));
    let nowhere = (
        makes_none(host, "opfs_files_nowhere/image", 3),
        counts(host),
    );
    let long = (makes_none(host, IMAGE, u64::MAX), counts(host));
    [missing, nowhere, long]
}

#[test]
fn a_host_keeps_files_and_counts_those_that_are_missing(rt: HostRuntime) -> Result<(), Fail> {
    let mut host = DirHost::make(&rt);
    let kept = keeps_what_was_made(&rt, &mut host)?;
    assert_eq!(rt; kept, (*b"\0ab", [0, 0, 0], [true; 2]));
    assert!(rt; is_missing(&rt, IMAGE_BESIDE));
    assert_eq!(rt; counts(&host), (0, 0));
    fs::remove_file(&rt, IMAGE)?;
    assert_eq!(rt;
        fails_three_times(&mut host),
        [(true, (1, 1)), (true, (2, 2)), (true, (3, 3))]
    );
    assert!(rt; is_missing(&rt, IMAGE) && is_missing(&rt, IMAGE_BESIDE));
    Ok(())
}

const IMAGE_THAT_IS_OUT: &str = "opfs_files_out.image";

/// Whether a path can be fetched; what is fetched is given back.
fn is_free<H: Host>(host: &mut H, path: &str) -> bool {
    match host.fetch(path) {
        Ok(disk) => host.give_back(path, disk).is_ok(),
        Err(_) => false,
    }
}

/// Whether a file that one host has out is neither fetched by another nor made beside, and has its bytes.
fn is_held<H: Host>(host: &mut H, other: &mut H) -> Result<[bool; 4], HostStop> {
    let mut disk = host.fetch(IMAGE_THAT_IS_OUT)?;
    let fetched = is_free(other, IMAGE_THAT_IS_OUT);
    let made_none = makes_none(other, IMAGE_THAT_IS_OUT, 3);
    let kept = bytes_of(&mut disk) == Ok(*b"abc");
    let given = host.give_back(IMAGE_THAT_IS_OUT, disk).is_ok();
    Ok([!fetched, made_none, kept, given])
}

#[test]
fn a_file_that_is_out_is_not_given_again(rt: HostRuntime) -> Result<(), Fail> {
    let mut host = DirHost::make(&rt);
    let mut other = DirHost::make(&rt);
    fs::write(&rt, IMAGE_THAT_IS_OUT, b"abc")?;
    assert_eq!(rt; is_held(&mut host, &mut other)?, [true; 4]);
    assert_eq!(rt; (other.faults(), other.own_faults()), (2, 2));
    assert!(rt; is_free(&mut other, IMAGE_THAT_IS_OUT));
    fs::remove_file(&rt, IMAGE_THAT_IS_OUT)?;
    Ok(())
}

/// Fetches a file that may only be read, reads and syncs it, and gives its bytes.
fn read_only<H: Host>(host: &mut H) -> Result<[u8; 3], HostStop> {
    let mut disk = host.fetch(IMAGE_TO_READ)?;
    let bytes = bytes_of(&mut disk);
    let synced = disk.sync();
    let given = host.give_back(IMAGE_TO_READ, disk);
    synced.and(given).and(bytes).map_err(|_| HostStop::Failed)
}

#[test]
fn a_file_that_may_only_be_read_is_fetched(rt: HostRuntime) -> Result<(), Fail> {
    let mut host = DirHost::make(&rt);
    fs::write(&rt, IMAGE_TO_READ, b"abc")?;
    let file = File::open(&rt, IMAGE_TO_READ)?;
    file.set_permissions(Permissions::from_mode(0o444))?;
    assert_eq!(rt; read_only(&mut host)?, *b"abc");
    assert_eq!(rt; (host.faults(), host.own_faults()), (0, 0));
    fs::remove_file(&rt, IMAGE_TO_READ)?;
    Ok(())
}

const IMAGE_ANEW: &str = "opfs_files_anew.image";

const IMAGE_LEFT: &str = "opfs_files_anew.image.new";

/// Whether a disk can be made beside a path; what is made is thrown away.
fn can_make<H: Host>(host: &mut H, path: &str) -> bool {
    match host.make(path, 3) {
        Ok(disk) => {
            host.discard(path, disk);
            true
        }
        Err(_) => false,
    }
}

/// Makes three bytes beside what stands there, with what a process left that was killed; they take its place.
fn replaced<H: Host>(host: &mut H, other: &mut H) -> Result<bool, HostStop> {
    let mut disk = host.make(IMAGE_ANEW, 3)?;
    let is_free = is_free(other, IMAGE_ANEW) || can_make(other, IMAGE_ANEW);
    let written = disk.write(0, b"new");
    let placed = host.replace(IMAGE_ANEW, disk);
    written.and(placed).map_err(|_| HostStop::Failed)?;
    Ok(!is_free)
}

/// Lays a file and one that a process left beside it.
fn lay_both(files: &impl Files<File = File>) -> io::Result<()> {
    fs::write(files, IMAGE_ANEW, b"old one")?;
    fs::write(files, IMAGE_LEFT, b"left by a process")
}

/// Whether the file at the path has the new bytes.
fn is_new(rt: &(impl Files + AllocGlobal)) -> io::Result<bool> {
    let bytes = fs::read(rt, IMAGE_ANEW)?;
    Ok(bytes.as_slice() == b"new".as_slice())
}

#[test]
fn a_new_file_takes_the_place_of_the_old_one_and_of_one_that_was_left(
    rt: HostRuntime,
) -> Result<(), Fail> {
    let mut host = DirHost::make(&rt);
    let mut other = DirHost::make(&rt);
    lay_both(&rt)?;
    assert!(rt; replaced(&mut host, &mut other)?);
    assert!(rt; is_new(&rt)? && is_missing(&rt, IMAGE_LEFT));
    assert_eq!(rt; (host.faults(), other.own_faults()), (0, 2));
    assert!(rt; is_free(&mut other, IMAGE_ANEW));
    fs::remove_file(&rt, IMAGE_ANEW)?;
    Ok(())
}
