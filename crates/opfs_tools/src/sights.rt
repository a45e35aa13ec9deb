//! Rows without the bytes of their files.

ghost use Rattle.std.specs.Prelude.{◌≡◌};
ghost use Rattle.opfs_tools.specs.Sights.{sight_in, sight_blocks};

use opfs_base::{Key, Path};
use opfs_tree::Row;
use std::marker::Model;

/// What stands at a place, without the bytes of a file.
#[derive(Clone, Copy, PartialEq, Eq)]
pub enum Sight {
    /// A directory.
    Directory,
    /// A file: its length in bytes, and its time stamp in milliseconds.
    File(u64, u64),
}

impl Sight {
    /// What is seen of a row.
    pub(crate) fn of(row: &Row) -> Sight
        ensures { result ≡ sight_in row.now }
    {
        match row {
            Row::Dir => Sight::Directory,
            Row::File(file) => Sight::File(file.length, file.stamp),
        }
    }

    /// The blocks that it uses.
    pub(crate) fn blocks(self) -> u64
        ensures { result ≡ sight_blocks self }
    {
        match self {
            Sight::Directory => 0,
            Sight::File(length, _) => length.div_ceil(4096),
        }
    }
}

/// A row of the store: its place, and what is seen there.
#[derive(Drop)]
pub(crate) struct Entry<'a> {
    key: &'a Key,
    path: &'a Path,
    sight: Sight,
}

impl<'a> Model for Entry<'a> {
    ghost use Rattle.opfs_base.specs.Places.{Place};
    ghost use Rattle.opfs_tools.specs.declared.sights.Sight.{Sight};

    ghost Value = { Place × Sight };

    ghost view = { λ e. ((e.key.now, e.path.now), e.sight) };
}

impl<'a> Entry<'a> {
    /// A row at a place.
    pub(crate) fn make(key: &'a Key, path: &'a Path, sight: Sight) -> Entry<'a>
        ensures { result ≡ ((key.now, path.now), sight) }
    {
        Entry { key, path, sight }
    }

    /// Its unit.
    pub(crate) fn key(&self) -> &'a Key
        ensures { result.now ≡ self.now.0.0 }
    {
        self.key
    }

    /// Its path.
    pub(crate) fn path(&self) -> &'a Path
        ensures { result.now ≡ self.now.0.1 }
    {
        self.path
    }

    /// What is seen there.
    pub(crate) fn sight(&self) -> Sight
        ensures { result ≡ self.now.1 }
    {
        self.sight
    }
}
