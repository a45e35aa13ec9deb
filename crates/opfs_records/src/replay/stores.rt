//! The blocks of files, taken and given back.

ghost use Rattle.std.specs.Prelude.{◌≡◌, ◌+◌, ◌≤◌, ◌&&◌, length, is_some, nat_lt, nat_le, OnOk};
ghost use Rattle.std.specs.Bool.{OnTrue};
ghost use Rattle.opfs_tree.specs.Rows.{file_at, IsInOrder, without, change_at, stored};
ghost use Rattle.opfs_records.specs.Replay.Applying.{can_hold};
ghost use Rattle.opfs_records.specs.Replay.Built.{named, named_beside};
ghost use Rattle.opfs_records.specs.Replay.Kept.{AreMarked, extent_count, has_blocks};

use opfs_base::{Extent, Extents, Key, Path};
use opfs_blocks::BlockMap;
use opfs_tree::Tree;
use std::alloc::{AllocError, Global};

/// Gives a file its bytes' blocks in place of those that it had; false where it can't have them, and then the rows and
/// the blocks are of no use.
pub(crate) fn store(
    tree: &mut Tree,
    map: &mut BlockMap,
    unit: &Key,
    path: &Path,
    stamp: u64,
    bytes: u64,
    extents: Extents,
) -> bool
    requires { AreMarked map.old (named tree.old) }
    ensures exact { result ≡ (is_some (file_at (unit.now, path.now) tree.old) && can_hold (length map.old) (named_beside (unit.now, path.now) tree.old) bytes extents) }
    ensures rows { OnTrue result (tree.new ≡ change_at (unit.now, path.now) (stored bytes stamp extents) tree.old) }
    ensures marked { OnTrue result (AreMarked map.new (named tree.new)) }
    ensures few { OnTrue result (extent_count tree.new ≤ extent_count tree.old + length extents) }
    ensures size { length map.new ≡ length map.old }
{
    if !has_blocks(extents.as_slice(), bytes.div_ceil(4096)) {
        return false;
    }
    if !release(tree, map, unit, path) {
        return false;
    }
    if !map.adopt(extents.as_slice()) {
        return false;
    }
    let _old = tree.set_file(unit, path, bytes, stamp, extents);
    true
}

// Makes the blocks of the file at a place free; false where no file is there.
fn release(tree: &Tree, map: &mut BlockMap, unit: &Key, path: &Path) -> bool
    requires { AreMarked map.old (named tree.now) }
    ensures found { result ≡ is_some (file_at (unit.now, path.now) tree.now) }
    ensures marked { OnTrue result (AreMarked map.new (named_beside (unit.now, path.now) tree.now)) }
    ensures order { OnTrue result (IsInOrder tree.now) }
    ensures size { length map.new ≡ length map.old }
{
    let _kind = tree.kind(unit, path);
    match tree.file(unit, path) {
        None => false,
        Some(file) => {
            map.give_back(file.extents.as_slice());
            true
        }
    }
}

// Whether each extent has a block, and all together so many.
fn has_blocks(extents: &[Extent], count: u64) -> bool
    ensures { result ≡ has_blocks extents.now count }
{
    let mut left = count;
    for extent in extents {
        if !fits(extent, left) {
            return false;
        }
        left -= extent.count as u64;
    }
    left == 0
}

// Whether an extent has a block, and so many at most.
fn fits(extent: &Extent, most: u64) -> bool
    ensures { result ≡ (nat_lt 0 extent.now.count && nat_le extent.now.count most) }
{
    extent.count > 0 && extent.count as u64 <= most
}

/// Takes out the row at a place and all below it, and makes their blocks free.
pub(crate) fn remove(
    alloc: Global,
    tree: &mut Tree,
    map: &mut BlockMap,
    unit: &Key,
    path: &Path,
    most: u64,
) -> Result<(), AllocError>
    requires marked { AreMarked map.old (named tree.old) }
    requires few { extent_count tree.old ≤ most }
    ensures rows { OnOk result (tree.new ≡ without (unit.now, path.now) tree.old) }
    ensures marked { OnOk result (AreMarked map.new (named tree.new)) }
    ensures size { length map.new ≡ length map.old }
{
    let count = tree.extents_below(unit, path);
    let mut freed = Vec::with_capacity(alloc, count as usize)?;
    tree.remove(unit, path, &mut freed);
    map.give_back(freed.as_slice());
    Ok(())
}
