//! Trees and sheds that grow.

ghost use Rattle.std.specs.Prelude.{IsTrue};
ghost use Rattle.opfs_base.specs.Names.{is_valid_name};

use opfs_base::{Extent, Extents, Key, Kind, Name, Path};
use opfs_locks::FileLock;
use opfs_shed::Shed;
use opfs_tree::{FileRow, Row, Tree};
use std::alloc::{AllocError, Global};

/// Adds a row at a root, unless one is there.
pub fn add_root(alloc: Global, tree: &mut Tree, key: &Key, row: Row) -> Result<Path, AllocError> {
    let root = Path::root(alloc);
    match tree.kind(key, &root) {
        Some(_) => Ok(root),
        None => {
            tree.add(alloc, key, &root, row)?;
            Ok(root)
        }
    }
}

/// Adds a child of a directory, unless one of that name is there.
pub fn add_child(
    alloc: Global,
    tree: &mut Tree,
    key: &Key,
    dir: &Path,
    name: &str,
    row: Row,
) -> Result<Path, AllocError>
    requires { IsTrue (is_valid_name name.now) }
{
    let name = Name::read(alloc, name)?;
    let path = dir.child(alloc, &name)?;
    match (tree.kind(key, &path), tree.kind(key, dir)) {
        (None, Some(Kind::Directory)) => {
            tree.add(alloc, key, &path, row)?;
            Ok(path)
        }
        _ => Ok(path),
    }
}

/// A file without bytes.
pub fn empty_file(alloc: Global) -> Row {
    Row::File(FileRow {
        length: 0,
        stamp: 7,
        present: 0,
        present_stamp: 7,
        extents: Extents::none(alloc),
        lock: FileLock::make(),
    })
}

/// A file of five bytes in block 3.
pub fn short_file(alloc: Global) -> Result<Row, AllocError> {
    let mut extents = Vec::new(alloc);
    extents.push(Extent { start: 3, count: 1 })?;
    Ok(Row::File(FileRow {
        length: 5,
        stamp: 8,
        present: 5,
        present_stamp: 8,
        extents: Extents::from_vec(extents),
        lock: FileLock::make(),
    }))
}

/// Makes a unit persistent.
pub fn persist(shed: &mut Shed, key: &Key) -> Result<(), AllocError> {
    shed.touch(key)?;
    shed.set_persistent(key);
    Ok(())
}
