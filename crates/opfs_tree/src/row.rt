//! What stands at a place.

ghost use Rattle.std.specs.Prelude.{◌≡◌, ◌<◌, true, false, option_map, IsSome, IfSome};
ghost use Rattle.std.specs.Option.{option_copied};
ghost use Rattle.opfs_locks.specs.Taking.{taken, is_open};
ghost use Rattle.opfs_locks.specs.Holding.{IsTakenAs};
ghost use Rattle.opfs_tree.specs.Rows.{kind_of, file_in, taken_lock, extents_of, changed_row, stored, written, locked, unlocked, holds, present_blocks, durable_blocks};

use opfs_base::{Extent, Extents, Kind};
use opfs_locks::{FileLock, Held, LockValue, Want};
use std::mem::replace;

/// A file.
#[derive(Drop)]
pub struct FileRow {
    /// How many bytes were last stored for good.
    pub length: u64,
    /// The time stamp of that, in milliseconds.
    pub stamp: u64,
    /// How many bytes a read gives now.
    pub present: u64,
    /// The time stamp of that, in milliseconds.
    pub present_stamp: u64,
    /// The blocks that hold the stored bytes.
    pub extents: Extents,
    /// Its lock.
    pub lock: FileLock,
}

/// What stands at a place.
#[derive(Drop)]
pub enum Row {
    /// A directory.
    Dir,
    /// A file.
    File(FileRow),
}

impl FileRow {
    // Says what a read gives now.
    fn set_present(&mut self, length: u64, stamp: u64)
        ensures { self.new ≡ written length stamp self.old }
    {
        self.present = length;
        self.present_stamp = stamp;
    }

    // Gives the file another content, and gives back its blocks.
    fn store(&mut self, length: u64, stamp: u64, extents: Extents) -> Extents
        ensures row { self.new ≡ stored length stamp extents self.old }
        ensures old { result ≡ self.old.extents }
    {
        self.length = length;
        self.stamp = stamp;
        self.present = length;
        self.present_stamp = stamp;
        replace(&mut self.extents, extents)
    }
}

impl Row {
    /// Whether it is a directory or a file.
    pub fn kind(&self) -> Kind
        ensures { result ≡ kind_of self.now }
    {
        match self {
            Row::Dir => Kind::Directory,
            Row::File(_) => Kind::File,
        }
    }

    /// The file, unless it is a directory.
    pub fn file(&self) -> Option<&FileRow>
        ensures { option_copied result ≡ file_in self.now }
    {
        match self {
            Row::Dir => None,
            Row::File(file) => Some(file),
        }
    }

    /// The file's blocks; none for a directory.
    pub fn extents(&self) -> &[Extent]
        ensures { result.now ≡ extents_of self.now }
    {
        match self {
            Row::Dir => &[],
            Row::File(file) => file.extents.as_slice(),
        }
    }

    /// The file's lock, with the number of its holders, unless it is open.
    pub fn taken_lock(&self) -> Option<(LockValue, u32)>
        ensures { result ≡ taken_lock self.now }
    {
        match self {
            Row::Dir => None,
            Row::File(file) => taken(file.lock),
        }
    }

    /// How many of the row's files have a taken lock: one or none.
    pub(crate) fn holds(&self) -> u64
        ensures { result ≡ holds self.now }
    {
        match self.taken_lock() {
            Some(_) => 1,
            None => 0,
        }
    }

    /// How many blocks the bytes take that a read gives now; none for a directory.
    pub(crate) fn present_blocks(&self) -> u64
        ensures { result ≡ present_blocks self.now }
    {
        match self {
            Row::Dir => 0,
            Row::File(file) => file.present.div_ceil(4096),
        }
    }

    /// How many blocks the stored bytes take; none for a directory.
    pub(crate) fn durable_blocks(&self) -> u64
        ensures { result ≡ durable_blocks self.now }
    {
        match self {
            Row::Dir => 0,
            Row::File(file) => file.length.div_ceil(4096),
        }
    }

    /// Says what a read of the file gives now.
    pub(crate) fn set_present(&mut self, length: u64, stamp: u64)
        ensures { self.new ≡ changed_row (written length stamp) self.old }
    {
        match self {
            Row::Dir => (),
            Row::File(file) => file.set_present(length, stamp),
        }
    }

    /// Gives the file another content, and gives back its blocks.
    pub(crate) fn store(&mut self, length: u64, stamp: u64, extents: Extents) -> Option<Extents>
        ensures row { self.new ≡ changed_row (stored length stamp extents) self.old }
        ensures old { result ≡ option_map (λ f. f.extents) (file_in self.old) }
    {
        match self {
            Row::Dir => None,
            Row::File(file) => Some(file.store(length, stamp, extents)),
        }
    }

    /// Takes the file's lock, or leaves it as it is where that fails.
    pub(crate) fn take(&mut self, want: Want) -> Option<Held>
        requires { IfSome (file_in self.old) (λ f. f.lock.1 < 4294967295) }
        ensures row { self.new ≡ changed_row (locked want) self.old }
        ensures given { IfSome (file_in self.old) (λ f. result ≡ option_map (λ _. want) (taken want f.lock)) }
    {
        match self {
            Row::Dir => None,
            Row::File(file) => file.lock.take(want),
        }
    }

    /// Gives the file's lock back.
    pub(crate) fn release(&mut self, held: Held)
        requires there { IsSome (file_in self.old) }
        requires taken { IfSome (file_in self.old) (λ f. IsTakenAs held f.lock) }
        ensures row { self.new ≡ changed_row unlocked self.old }
    {
        match self {
            Row::Dir => unreachable!(),
            Row::File(file) => file.lock.release(held),
        }
    }
}

// The lock with the number of its holders, unless it is open.
fn taken(lock: FileLock) -> Option<(LockValue, u32)>
    ensures { result ≡ elim (is_open lock.0) [ true ↦ None | false ↦ Some lock ] }
{
    match lock.value() {
        LockValue::Free => None,
        value => Some((value, lock.count())),
    }
}
