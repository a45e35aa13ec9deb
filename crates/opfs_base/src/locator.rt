//! Locators: what a handle stands for.

ghost use Rattle.std.specs.Prelude.{◌≡◌, IfOk};
ghost use Rattle.opfs_base.specs.Places.{same_locator, resolved};

use crate::key::Key;
use crate::path::Path;
use std::alloc::{AllocError, Global};

/// What an entry is (File System: entry).
#[derive(Clone, Copy, PartialEq, Eq)]
pub enum Kind {
    /// A file entry.
    File,
    /// A directory entry.
    Directory,
}

/// What a handle stands for (File System: locator): a unit, a path in it, and a kind.
#[derive(Drop, PartialEq, Eq)]
pub struct Locator {
    /// The unit.
    pub key: Key,
    /// The names from the unit's root down.
    pub path: Path,
    /// The kind that the handle wants.
    pub kind: Kind,
}

impl Locator {
    /// The same locator in new memory.
    pub fn copy(&self, alloc: Global) -> Result<Locator, AllocError>
        ensures { IfOk result (λ copy. copy ≡ self.now) }
    {
        Ok(Locator {
            key: self.key.copy(alloc)?,
            path: self.path.copy(alloc)?,
            kind: self.kind,
        })
    }
}

/// Whether two locators are the same (File System: the same locator as).
pub fn same(a: &Locator, b: &Locator) -> bool
    ensures { result ≡ same_locator a.now b.now }
{
    a.key == b.key && a.path == b.path && a.kind == b.kind
}

/// The path from a directory to an entry (File System: resolve), or None where the entry is not in it.
pub fn resolve(alloc: Global, dir: &Locator, entry: &Locator) -> Result<Option<Path>, AllocError>
    ensures { IfOk result (λ path. path ≡ resolved dir.now entry.now) }
{
    if dir.key == entry.key {
        entry.path.below(alloc, &dir.path)
    } else {
        Ok(None)
    }
}
