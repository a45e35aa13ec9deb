//! Disks over real files.

use crate::files::faulty::FaultyFile;
use opfs_files::{DirHost, FileDisk};
use opfs_outside::{Disk, Failed, Host};
use std::fs::{self, File, Files, OpenFile, OpenOptions};
use std::io;
use std::test::Fail;

const IMAGE: &str = "opfs_files_disk.image";

/// Puts 8,192 zeros in place.
fn put_zeros<H: Host>(host: &mut H) -> Result<(), Failed> {
    match host.make(IMAGE, 8192) {
        Ok(disk) => host.replace(IMAGE, disk),
        Err(_) => Err(Failed),
    }
}

/// Writes across the middle, and gives what is read there.
fn write_and_read<D: Disk>(disk: &mut D) -> Result<[u8; 6], Failed> {
    let mut back = [9; 6];
    if disk.len() != 8192 {
        return Err(Failed);
    }
    disk.write(4095, b"edge")?;
    disk.sync()?;
    disk.read(4094, &mut back)?;
    Ok(back)
}

/// What a read across the middle answers.
fn read_middle<D: Disk>(disk: &mut D) -> Result<(), Failed> {
    let mut back = [9; 6];
    if disk.len() != 8192 {
        return Ok(());
    }
    disk.read(4094, &mut back)
}

/// Cuts the file to its first half.
fn cut(files: &impl Files<File = File>) -> io::Result<()> {
    let file = OpenOptions::new().write(true).open(files, IMAGE)?;
    file.set_len(4096)
}

#[test]
fn a_disk_reads_what_was_written_and_counts_where_the_file_was_cut(
    rt: HostRuntime,
) -> Result<(), Fail> {
    let mut host = DirHost::make(&rt);
    put_zeros(&mut host)?;
    let mut disk = host.fetch(IMAGE)?;
    assert_eq!(rt; write_and_read(&mut disk)?, *b"\0edge\0");
    let before = disk.faults();
    cut(&rt)?;
    let cut = read_middle(&mut disk);
    assert_eq!(rt;
        (before, cut, disk.faults(), disk.len()),
        (0, Err(Failed), 1, 8192)
    );
    host.give_back(IMAGE, disk)?;
    assert_eq!(rt; (host.faults(), host.own_faults()), (1, 0));
    fs::remove_file(&rt, IMAGE)?;
    Ok(())
}

/// What two bytes read, two written and two syncs answer.
fn tried<D: Disk>(disk: &mut D) -> [Result<(), Failed>; 4] {
    let mut bytes = [7; 2];
    if disk.len() < 9 {
        return [Ok(()); 4];
    }
    [
        disk.read(7, &mut bytes),
        disk.write(7, &bytes),
        disk.sync(),
        disk.sync(),
    ]
}

#[test]
fn a_disk_counts_each_error_and_fails_each_sync_after_one_that_failed(
    rt: HostRuntime,
) -> Result<(), Fail> {
    assert!(rt; FileDisk::of(FaultyFile::make(), Some(9)).is_err());
    let mut disk = FileDisk::of(FaultyFile::make(), None)?;
    assert_eq!(rt; (disk.len(), disk.faults()), (9, 0));
    assert_eq!(rt; tried(&mut disk), [Err(Failed); 4]);
    assert_eq!(rt; (disk.len(), disk.faults()), (9, 4));
    assert_eq!(rt; disk.write(9, &[]), Ok(()));
    Ok(())
}
