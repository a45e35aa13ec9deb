//! The files of the system as a host of disks. It tells no image, and counts its errors.
ghost use Rattle.std.specs.Prelude.{◌≡◌, ◌+◌, ◌-◌, ◌^◌, ◌≤◌, min, IfOk};
ghost use Rattle.opfs_outside.specs.Faults.{Rose, RoseBy};
ghost use Rattle.opfs_files.specs.Shown.{disk_size, disk_faults, host_faults, host_own_faults};

use crate::FileDisk;
use crate::paths::{Room, beside, open_folder};
use opfs_outside::{Failed, Host, HostStop};
use std::fs::{self, File, Files, Metadata, OpenFile};
use std::io::{self, ErrorKind};
use std::os::unix::fs::MetadataExt;

/// The files of the system by path, where a path is relative to the folder that the process runs in. A file that is out as a
/// disk, of this host or of another process, is not given a second time. A new one is made beside the path, and takes its
/// place by its name; until then the file that stands there stays out with it. The host counts its own
/// errors, and beside them all errors, also those of the disks that came back.
#[derive(Drop)]
pub struct DirHost<R> {
    files: R,
    faults: u64,
    own_faults: u64,
}

/// Whether a file may only be read.
fn is_read_only(kind: ErrorKind) -> bool {
    matches!(
        kind,
        ErrorKind::PermissionDenied | ErrorKind::ReadOnlyFilesystem
    )
}

/// Opens what is at a path for reading, where that is a file: opening a pipe would wait for who writes it.
fn open_to_read<R: Files<File = File>>(files: &R, path: &str) -> io::Result<File> {
    let found = fs::metadata(files, path)?;
    if !found.is_file() {
        return Err(io::Error::from(ErrorKind::InvalidInput));
    }
    File::open(files, path)
}

/// Opens the file at a path for reading and writing. A file that may only be read is opened for reading, and each write to it
/// fails.
fn open_file<R: Files<File = File>>(files: &R, path: &str) -> io::Result<File> {
    match File::options().read(true).write(true).open(files, path) {
        Err(error) if is_read_only(error.kind()) => open_to_read(files, path),
        opened => opened,
    }
}

/// A file, where nobody else has locked it.
fn lock(file: File) -> io::Result<File> {
    match file.try_lock() {
        Ok(()) => Ok(file),
        Err(_) => Err(io::Error::from(ErrorKind::WouldBlock)),
    }
}

/// A file that is locked, where its name was seen to lead to it still: another process may have put another one there before.
fn named(file: File, seen: Metadata) -> io::Result<File> {
    let own = file.metadata()?;
    if own.is_file() && own.ino() == seen.ino() && own.dev() == seen.dev() {
        return Ok(file);
    }
    Err(io::Error::from(ErrorKind::WouldBlock))
}

/// The file at a path, which nobody else has open as a disk.
fn take_file<R: Files<File = File>>(files: &R, path: &str) -> io::Result<File> {
    let file = lock(open_file(files, path)?)?;
    named(file, fs::metadata(files, path)?)
}

/// The file at a path, which nobody else has open as a disk, and which may be written; none where there is none.
fn take_old<R: Files<File = File>>(files: &R, path: &str) -> io::Result<Option<File>> {
    match File::options().read(true).write(true).open(files, path) {
        Ok(file) => {
            let file = named(lock(file)?, fs::metadata(files, path)?)?;
            Ok(Some(file))
        }
        Err(error) if error.kind() == ErrorKind::NotFound => Ok(None),
        Err(error) => Err(error),
    }
}

/// A new file of this name, and no link, which nobody else has open as a disk: one that a process left is emptied.
fn take_new<R: Files<File = File>>(files: &R, name: &str) -> io::Result<File> {
    let opened = File::options()
        .read(true)
        .write(true)
        .create(true)
        .open(files, name)?;
    let file = named(lock(opened)?, fs::symlink_metadata(files, name)?)?;
    file.set_len(0)?;
    Ok(file)
}

/// The disk of a new file, which may be read and written by whom the old one may be, and holds that.
fn fill_new(file: File, old: Option<File>, size: u64) -> io::Result<FileDisk<File>>
    ensures fresh { IfOk result (λ disk. disk_faults disk ≡ 0) }
    ensures size { IfOk result (λ disk. disk_size disk ≡ size) }
{
    if let Some(old) = &old {
        file.set_permissions(old.metadata()?.permissions())?;
    }
    let disk = FileDisk::over(file, old, size)?;
    Ok(disk)
}

/// The disk of a new file beside a path. Where it can't be made nothing is left.
fn make_new<R: Files<File = File>>(
    files: &R,
    path: &str,
    name: &str,
    size: u64,
) -> io::Result<FileDisk<File>>
    ensures fresh { IfOk result (λ disk. disk_faults disk ≡ 0) }
    ensures size { IfOk result (λ disk. disk_size disk ≡ size) }
{
    let old = take_old(files, path)?;
    let file = take_new(files, name)?;
    match fill_new(file, old, size) {
        Ok(disk) => Ok(disk),
        Err(error) => {
            let _ = files.remove_file(name);
            Err(error)
        }
    }
}

/// The same by its path alone.
fn make_beside<R: Files<File = File>>(
    files: &R,
    path: &str,
    size: u64,
) -> io::Result<FileDisk<File>>
    ensures fresh { IfOk result (λ disk. disk_faults disk ≡ 0) }
    ensures size { IfOk result (λ disk. disk_size disk ≡ size) }
{
    let mut room = Room::make();
    let name = beside(path, &mut room)?;
    let disk = make_new(files, path, name, size)?;
    Ok(disk)
}

/// Gives a file that is on the disk the name of a path, and gives the folder that has to be synced.
fn rename<R: Files<File = File>>(
    files: &R,
    name: &str,
    path: &str,
    disk: &FileDisk<File>,
) -> io::Result<File> {
    let folder = open_folder(files, path)?;
    disk.settle()?;
    files.rename(name, path)?;
    Ok(folder)
}

/// Puts the new file into the place of what stands at the path, so that a crash leaves it there. Where that can't be, nothing
/// is left of it.
fn put_in_place<R: Files<File = File>>(
    files: &R,
    path: &str,
    disk: &FileDisk<File>,
) -> io::Result<()> {
    let mut room = Room::make();
    let name = beside(path, &mut room)?;
    match rename(files, name, path, disk) {
        Ok(folder) => folder.sync_all(),
        Err(error) => {
            let _ = files.remove_file(name);
            Err(error)
        }
    }
}

/// Removes the new file beside a path.
fn remove_new<R: Files<File = File>>(files: &R, path: &str) -> io::Result<()> {
    let mut room = Room::make();
    let name = beside(path, &mut room)?;
    files.remove_file(name)
}

/// The disk at a path, whose counts are new.
fn open_disk<R: Files<File = File>>(files: &R, path: &str) -> io::Result<FileDisk<File>>
    ensures fresh { IfOk result (λ disk. disk_faults disk ≡ 0) }
{
    let file = take_file(files, path)?;
    let disk = FileDisk::of(file, None)?;
    Ok(disk)
}

/// Whether what failed is want of memory.
fn is_memory(error: &io::Error) -> bool {
    error.kind() == ErrorKind::OutOfMemory
}

impl<R: Files<File = File>> DirHost<R> {
    /// The host of the files that the runtime opens.
    pub fn make(files: R) -> DirHost<R>
        ensures none { host_faults result ≡ 0 }
        ensures none_of_its_own { host_own_faults result ≡ 0 }
    {
        DirHost {
            files,
            faults: 0,
            own_faults: 0,
        }
    }

    /// How often the host or a disk that came back has failed. At 2^64 - 1 it stands still.
    pub fn faults(&self) -> u64
        ensures { result ≡ host_faults self.now }
    {
        self.faults
    }

    /// How often the host has failed itself. At 2^64 - 1 it stands still.
    pub fn own_faults(&self) -> u64
        ensures { result ≡ host_own_faults self.now }
    {
        self.own_faults
    }

    fn fail(&mut self) -> Failed
        ensures counts { host_faults self.new ≡ min (host_faults self.old + 1) (2 ^ 64 - 1) }
        ensures counts_its_own { host_own_faults self.new ≡ min (host_own_faults self.old + 1) (2 ^ 64 - 1) }
    {
        self.faults = self.faults.saturating_add(1);
        self.own_faults = self.own_faults.saturating_add(1);
        Failed
    }

    // Counts the errors of a disk that came back.
    fn take_faults(&mut self, faults: u64)
        ensures counts { host_faults self.new ≡ min (host_faults self.old + faults) (2 ^ 64 - 1) }
        ensures own { host_own_faults self.new ≡ host_own_faults self.old }
    {
        self.faults = self.faults.saturating_add(faults);
    }

    // Why there is no disk.
    fn stop(&mut self, error: io::Error) -> HostStop
        ensures own_later { host_own_faults self.old ≤ host_own_faults self.new }
        ensures later { RoseBy (host_own_faults self.new - host_own_faults self.old) (host_faults self.old) (host_faults self.new) }
        ensures cause { result ≡ HostStop.Failed → Rose (host_own_faults self.old) (host_own_faults self.new) }
    {
        if is_memory(&error) {
            return HostStop::NoMemory;
        }
        self.fail();
        HostStop::Failed
    }
}

impl<R: Files<File = File>> Host for DirHost<R> {
    type D = FileDisk<File>;

    type Made = FileDisk<File>;

    ghost use Rattle.std.specs.Prelude.{None};
    ghost use Rattle.opfs_files.specs.Counts.{capped};

    ghost tells = { ⊥ };

    ghost image = { λ _ _. None };

    ghost trail = { λ _ _ _. ⊥ };

    ghost moment = { λ _ _. 0 };

    ghost since = { λ _ _ _ _. ⊥ };

    ghost faults = { host_faults };

    ghost own_faults = { host_own_faults };

    fn fetch(&mut self, path: &str) -> Result<FileDisk<File>, HostStop> {
        match open_disk(&self.files, path) {
            Ok(disk) => Ok(disk),
            Err(error) => Err(self.stop(error)),
        }
    }

    fn give_back(&mut self, _path: &str, disk: FileDisk<File>) -> Result<(), Failed> {
        self.take_faults(disk.faults());
        Ok(())
    }

    fn make(&mut self, path: &str, size: u64) -> Result<FileDisk<File>, HostStop> {
        match make_beside(&self.files, path, size) {
            Ok(disk) => Ok(disk),
            Err(error) => Err(self.stop(error)),
        }
    }

    fn replace(&mut self, path: &str, disk: FileDisk<File>) -> Result<(), Failed> {
        self.take_faults(disk.faults());
        match put_in_place(&self.files, path, &disk) {
            Ok(()) => Ok(()),
            Err(_) => Err(self.fail()),
        }
    }

    fn discard(&mut self, path: &str, disk: FileDisk<File>) {
        self.take_faults(disk.faults());
        if remove_new(&self.files, path).is_err() {
            self.fail();
        }
    }

    ghost counted = { λ host. capped host.faults };

    ghost own_counted = { λ host. capped host.own_faults };

    ghost disk_tells = { λ never. never };

    ghost disk_crashes = { λ never. never };

    ghost made_tells = { λ never. never };
}
