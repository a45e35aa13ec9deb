//! A path of a host in memory.

ghost use Rattle.std.specs.Prelude.{◌≡◌, ◌<◌, [], option_map, option_copied, nat_lt, OnOk, OnErr};
ghost use Rattle.opfs_memory.specs.Shelves.{newest_disk, is_at, spot_lent, spot_given, spot_thrown};

use crate::MemDisk;
use std::alloc::{AllocError, Global};
use std::marker::Model;

/// A disk that came back, and whether it was put in place whole, as one that was made.
#[derive(Drop)]
pub(crate) struct Given {
    disk: MemDisk,
    placed: bool,
}

/// A path and its image at first, until a disk came back; the disks that came back there, the last of them last; and how many
/// of those that were fetched or made are still out. Without bytes and disks there is no image.
#[derive(Drop)]
pub(crate) struct Place {
    path: Vec<u8>,
    image: Option<Vec<u8>>,
    given: Vec<Given>,
    out: usize,
}

impl Model for Place {
    ghost use Rattle.opfs_memory.specs.Shelves.{Spot};

    ghost Value = { Spot };

    ghost use Rattle.opfs_memory.specs.Places.{spot_of, HasRoom};

    ghost view = { spot_of };

    ghost invariant = { HasRoom };
}

impl Place {
    /// A path with this image, or none.
    pub(crate) fn make(alloc: Global, path: Vec<u8>, image: Option<Vec<u8>>) -> Place
        ensures { result ≡ record { path = path.items; image = option_map (λ v. v.items) image; given = []; out = 0 } }
    {
        Place {
            path,
            image,
            given: Vec::new(alloc),
            out: 0,
        }
    }

    /// Whether it is this path.
    pub(crate) fn is_at(&self, path: &[u8]) -> bool
        ensures { result ≡ is_at path.now self.now }
    {
        self.path.as_slice() == path
    }

    /// The disk that came back last.
    pub(crate) fn last(&self) -> Option<&MemDisk>
        ensures { option_copied result ≡ newest_disk self.now.given }
    {
        match self.given.last() {
            Some(given) => Some(&given.disk),
            None => None,
        }
    }

    /// Its image.
    pub(crate) fn image(&self) -> Option<&[u8]>
        ensures { option_copied result ≡ self.now.image }
    {
        match (&self.image, self.given.last()) {
            (Some(bytes), _) => Some(bytes.as_slice()),
            (None, Some(given)) => Some(given.disk.content()),
            (None, None) => None,
        }
    }

    /// Keeps room for one more disk.
    pub(crate) fn lend(&mut self) -> Result<(), AllocError>
        ensures lent { OnOk result (self.new ≡ spot_lent self.old) }
        ensures same { OnErr result (self.new ≡ self.old) }
    {
        self.given.reserve(self.out + 1)?;
        self.out += 1;
        Ok(())
    }

    /// Keeps a disk that came back.
    pub(crate) fn keep(&mut self, disk: MemDisk, placed: bool)
        requires { 0 < self.old.out }
        ensures { self.new ≡ spot_given (record { disk = disk; placed = placed }) self.old }
    {
        self.given.push(Given { disk, placed }).unwrap();
        self.out -= 1;
        self.image = None;
    }

    /// Lets a disk go that is out.
    pub(crate) fn throw_away(&mut self)
        requires { 0 < self.old.out }
        ensures { self.new ≡ spot_thrown self.old }
    {
        self.out -= 1;
    }

    /// Whether a disk of it is out.
    pub(crate) fn is_out(&self) -> bool
        ensures { result ≡ nat_lt 0 self.now.out }
    {
        self.out > 0
    }
}
