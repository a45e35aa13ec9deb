//! A file whose reads end early, whose writes fail, and whose first sync of bytes fails.

use std::cell::Cell;
use std::fs::{Metadata, OpenFile};
use std::io::{self, ErrorKind};
use std::os::unix::fs::FileExt;

/// A file of no bytes that knows whether a sync of it has failed.
#[derive(Drop)]
pub struct FaultyFile {
    failed: Cell<bool>,
}

impl FaultyFile {
    /// The file, of which no sync has failed.
    pub fn make() -> FaultyFile {
        FaultyFile {
            failed: Cell::new(false),
        }
    }
}

impl OpenFile for FaultyFile {
    fn metadata(&self) -> io::Result<Metadata> {
        Ok(Metadata::of_file(9))
    }

    fn set_len(&self, _size: u64) -> io::Result<()> {
        Err(io::Error::from(ErrorKind::StorageFull))
    }

    fn sync_all(&self) -> io::Result<()> {
        Ok(())
    }

    fn sync_data(&self) -> io::Result<()> {
        if self.failed.replace(true) {
            return Ok(());
        }
        Err(io::Error::from(ErrorKind::StorageFull))
    }
}

impl FileExt for FaultyFile {
    fn read_at(&self, _buf: &mut [u8], _offset: u64) -> io::Result<usize> {
        Ok(0)
    }

    fn write_at(&self, _buf: &[u8], _offset: u64) -> io::Result<usize> {
        Err(io::Error::from(ErrorKind::StorageFull))
    }
}
