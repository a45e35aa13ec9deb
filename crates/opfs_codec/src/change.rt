//! The changes that a journal records.

use opfs_base::{Extents, Key, Path};

/// A format of the image.
#[derive(Clone, Copy, PartialEq, Eq)]
pub enum Format {
    /// Format 1, whose keys are texts of units.
    Old,
    /// Format 2, whose keys are an origin's key and a bucket's name.
    New,
}

/// A change of the durable state.
#[derive(Drop)]
pub enum Change {
    /// A unit's root is made.
    MakeRoot(Key),
    /// A directory is made.
    MakeDir(Key, Path),
    /// A file is made, with its stamp.
    MakeFile(Key, Path, u64),
    /// An entry and all below it are removed.
    Remove(Key, Path),
    /// A file has new bytes: its stamp, its length in bytes, and its blocks.
    Content(Key, Path, u64, u64, Extents),
    /// A unit's bucket is made persistent.
    Persist(Key),
    /// A unit's bucket is evicted.
    Evict(Key),
}

/// A change whose parts are borrowed.
#[derive(Clone, Copy)]
pub enum ChangeRef<'a> {
    /// A unit's root is made.
    MakeRoot(&'a Key),
    /// A directory is made.
    MakeDir(&'a Key, &'a Path),
    /// A file is made, with its stamp.
    MakeFile(&'a Key, &'a Path, u64),
    /// An entry and all below it are removed.
    Remove(&'a Key, &'a Path),
    /// A file has new bytes: its stamp, its length in bytes, and its blocks.
    Content(&'a Key, &'a Path, u64, u64, &'a Extents),
    /// A unit's bucket is made persistent.
    Persist(&'a Key),
    /// A unit's bucket is evicted.
    Evict(&'a Key),
}
