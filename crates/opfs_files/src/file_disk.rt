//! An open file as a disk. It tells no content, and counts its errors.
ghost use Rattle.std.specs.Prelude.{◌≡◌, ◌+◌, ◌-◌, ◌^◌, ℕ, min, Some, IfOk};
ghost use Rattle.opfs_files.specs.Shown.{disk_size, disk_faults};

use opfs_outside::{Disk, Failed};
use std::fs::OpenFile;
use std::io::{self, ErrorKind};
use std::os::unix::fs::FileExt;

/// How many zeros are written at once.
const PIECE: u64 = 65_536;

/// Writes zeros over all bytes, so that a full disk shows now, and a later write finds its blocks there.
fn fill<F: FileExt>(file: &F, size: u64) -> io::Result<()> {
    let zeros = [0; PIECE as usize];
    for piece in 0..size / PIECE {
        file.write_all_at(&zeros, piece * PIECE)?;
    }
    let rest = size % PIECE;
    file.write_all_at(&zeros[..rest as usize], size - rest)
}

/// An open file of the length that it had when it became a disk. It counts each error; a read that ends early, since
/// the file was cut, is one. Where a sync fails the system may let go of what was written: each later sync fails too. It may
/// hold another file, in whose place it is to stand, so that nobody else takes that.
#[derive(Drop)]
pub struct FileDisk<F> {
    file: F,
    over: Option<F>,
    size: u64,
    faults: u64,
    sync_failed: bool,
}

impl<F: FileExt + OpenFile> FileDisk<F> {
    /// The file as a disk, synced, so that a crash leaves what a read gives. With `make`, for a file that is empty, it
    /// first gets so many zeros, which are written once the length is accepted.
    pub fn of(file: F, make: Option<u64>) -> io::Result<FileDisk<F>>
    where
        F: Drop,
        ensures fresh { IfOk result (λ disk. disk_faults disk ≡ 0) }
        ensures made { IfOk result (λ disk. (n : ℕ) → make ≡ Some n → disk_size disk ≡ n) }
    {
        let size = match make {
            Some(size) => {
                file.set_len(size)?;
                fill(&file, size)?;
                size
            }
            None => file.metadata()?.len(),
        };
        file.sync_all()?;
        Ok(FileDisk {
            file,
            over: None,
            size,
            faults: 0,
            sync_failed: false,
        })
    }

    /// A file that is empty as a disk of so many zeros, with the file in whose place it is to stand.
    pub fn over(file: F, over: Option<F>, size: u64) -> io::Result<FileDisk<F>>
    where
        F: Drop,
        ensures fresh { IfOk result (λ disk. disk_faults disk ≡ 0) }
        ensures size { IfOk result (λ disk. disk_size disk ≡ size) }
    {
        file.set_len(size)?;
        fill(&file, size)?;
        Ok(FileDisk {
            file,
            over,
            size,
            faults: 0,
            sync_failed: false,
        })
    }

    /// Syncs all of it that a crash is to leave. It fails where a sync has failed before.
    pub fn settle(&self) -> io::Result<()> {
        if self.sync_failed {
            return Err(io::Error::from(ErrorKind::Other));
        }
        self.file.sync_all()
    }

    /// How many calls failed. At 2^64 - 1 it stands still.
    pub fn faults(&self) -> u64
        ensures { result ≡ disk_faults self.now }
    {
        self.faults
    }

    fn fail(&mut self) -> Failed
        ensures counts { disk_faults self.new ≡ min (disk_faults self.old + 1) (2 ^ 64 - 1) }
        ensures same_size { disk_size self.new ≡ disk_size self.old }
    {
        self.faults = self.faults.saturating_add(1);
        Failed
    }
}

impl<F: FileExt + OpenFile + Send> Disk for FileDisk<F> {
    ghost use Rattle.std.specs.Prelude.{[]};
    ghost use Rattle.opfs_files.specs.Counts.{capped};

    ghost tells = { ⊥ };

    ghost crashes = { ⊥ };

    ghost size = { disk_size };

    ghost content = { λ _. [] };

    ghost moment = { λ _. 0 };

    ghost since = { λ _ _ _. ⊥ };

    ghost faults = { disk_faults };

    fn len(&self) -> u64 {
        self.size
    }

    fn read(&mut self, at: u64, buf: &mut [u8]) -> Result<(), Failed> {
        match self.file.read_exact_at(buf, at) {
            Ok(()) => Ok(()),
            Err(_) => Err(self.fail()),
        }
    }

    fn write(&mut self, at: u64, bytes: &[u8]) -> Result<(), Failed> {
        match self.file.write_all_at(bytes, at) {
            Ok(()) => Ok(()),
            Err(_) => Err(self.fail()),
        }
    }

    fn sync(&mut self) -> Result<(), Failed> {
        if self.sync_failed {
            return Err(self.fail());
        }
        match self.file.sync_data() {
            Ok(()) => Ok(()),
            Err(_) => {
                self.sync_failed = true;
                Err(self.fail())
            }
        }
    }

    ghost counted = { λ disk. capped disk.faults };

    ghost full = { λ never _. absurd never };

    ghost whole = { λ never _ _ _ _. absurd never };

    ghost falls = { λ never _ _ _ _ _ _. absurd never };

    ghost reads = { λ never _. absurd never };
}
