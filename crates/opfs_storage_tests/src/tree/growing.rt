//! Trees that grow.

ghost use Rattle.std.specs.Prelude.{◌≡◌, ◌+◌, ◌≤◌, length, IsTrue};
ghost use Rattle.opfs_base.specs.Names.{is_valid_name};
ghost use Rattle.opfs_base.specs.Places.{Place};
ghost use Rattle.opfs_tree.specs.Rows.{extents_of, extents_within};

use opfs_base::{Extents, Key, Kind, Name, Path};
use opfs_locks::FileLock;
use opfs_tree::{FileRow, Row, Tree};
use std::alloc::{AllocError, Global};

/// Adds the root of a unit, unless it is there.
pub fn add_root(alloc: Global, tree: &mut Tree, key: &Key) -> Result<Path, AllocError>
    ensures { (at : Place) → length (extents_within at tree.new) ≤ length (extents_within at tree.old) }
{
    let root = Path::root(alloc);
    match tree.kind(key, &root) {
        Some(_) => Ok(root),
        None => {
            tree.add(alloc, key, &root, Row::Dir)?;
            Ok(root)
        }
    }
}

/// Adds a child of a directory, unless one of that name is there.
pub fn add_child(
    alloc: Global,
    tree: &mut Tree,
    key: &Key,
    dir: &Path,
    name: &str,
    row: Row,
) -> Result<Path, AllocError>
    requires { IsTrue (is_valid_name name.now) }
    ensures { (at : Place) → length (extents_within at tree.new) ≤ length (extents_within at tree.old) + length (extents_of row) }
{
    let name = Name::read(alloc, name)?;
    let path = dir.child(alloc, &name)?;
    match (tree.kind(key, &path), tree.kind(key, dir)) {
        (None, Some(Kind::Directory)) => {
            tree.add(alloc, key, &path, row)?;
            Ok(path)
        }
        _ => Ok(path),
    }
}

/// A file without bytes.
pub fn empty_file(alloc: Global) -> Row
    ensures { length (extents_of result) ≡ 0 }
{
    Row::File(FileRow {
        length: 0,
        stamp: 7,
        present: 0,
        present_stamp: 7,
        extents: Extents::none(alloc),
        lock: FileLock::make(),
    })
}
