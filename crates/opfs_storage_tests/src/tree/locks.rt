//! Files and their locks.

ghost use Rattle.std.specs.Prelude.{◌≡◌, ◌<◌, IsSome, IfSome, IsTrue};
ghost use Rattle.opfs_locks.specs.Holding.{IsTakenAs};
ghost use Rattle.opfs_tree.specs.Rows.{file_at};

use crate::tree::growing::{add_child, add_root, empty_file};
use opfs_base::{Extent, Extents, Key, Path};
use opfs_locks::{LockValue, Want};
use opfs_tree::Tree;
use std::alloc::{AllocError, Global};
use std::test::Fail;

// Whether a file is there whose lock can be asked for.
fn can_take(tree: &Tree, key: &Key, path: &Path) -> bool
    ensures there { IsTrue result → IsSome (file_at (key.now, path.now) tree.now) }
    ensures room { IsTrue result → IfSome (file_at (key.now, path.now) tree.now) (λ f. f.lock.1 < 4294967295) }
{
    match tree.file(key, path) {
        Some(file) => file.lock.count() < u32::MAX,
        None => false,
    }
}

// Whether a file is there whose lock is taken as shared.
fn is_shared(tree: &Tree, key: &Key, path: &Path) -> bool
    ensures there { IsTrue result → IsSome (file_at (key.now, path.now) tree.now) }
    ensures taken { IsTrue result → IfSome (file_at (key.now, path.now) tree.now) (λ f. IsTakenAs Want.Shared f.lock) }
{
    match tree.file(key, path) {
        Some(file) => file.lock.value() == LockValue::Shared && file.lock.count() > 0,
        None => false,
    }
}

// A tree with one file.
fn one_file(alloc: Global, key: &Key) -> Result<(Tree, Path), AllocError> {
    let mut tree = Tree::make(alloc);
    let root = add_root(alloc, &mut tree, key)?;
    let path = add_child(alloc, &mut tree, key, &root, "f", empty_file(alloc))?;
    Ok((tree, path))
}

#[test]
fn the_first_lock_is_told_and_given_back(rt: HostRuntime) -> Result<(), Fail> {
    let alloc = rt.alloc();
    let key = Key::of_text(alloc, "https://a.example")?;
    let (mut tree, path) = one_file(alloc, &key)?;
    assert!(rt; can_take(&tree, &key, &path));
    let held = tree.take_lock(&key, &path, Want::Shared);
    assert_eq!(rt;
        tree.first_locked(&key, &path),
        Some((LockValue::Shared, 1))
    );
    match held {
        None => assert!(rt; false),
        Some(held) => {
            assert!(rt; held.want() == Want::Shared && is_shared(&tree, &key, &path));
            tree.release_lock(&key, &path, held);
        }
    }
    assert!(rt; tree.first_locked(&key, &path).is_none());
    Ok(())
}

// Whether a file has the content that it was given, and gave back none.
fn gets_blocks(alloc: Global) -> Result<bool, AllocError> {
    let key = Key::of_text(alloc, "https://a.example")?;
    let (mut tree, path) = one_file(alloc, &key)?;
    let mut runs = Vec::new(alloc);
    runs.push(Extent { start: 3, count: 2 })?;
    if !can_take(&tree, &key, &path) {
        return Ok(false);
    }
    let old = tree.set_file(&key, &path, 5000, 9, Extents::from_vec(runs));
    Ok(old.len() == 0 && has_content(&tree, &key, &path))
}

// Whether a file has 5000 bytes at the moment 9 in one run of blocks.
fn has_content(tree: &Tree, key: &Key, path: &Path) -> bool {
    match tree.file(key, path) {
        Some(file) => file.length == 5000 && file.stamp == 9 && file.extents.len() == 1,
        None => false,
    }
}

#[test]
fn a_file_gets_other_blocks(rt: HostRuntime) -> Result<(), Fail> {
    assert!(rt; gets_blocks(rt.alloc())?);
    Ok(())
}
