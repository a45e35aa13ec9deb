//! Removal of a directory.

ghost use Rattle.std.specs.Prelude.{IsTrue, IfOk};
ghost use Rattle.opfs_base.specs.Names.{is_valid_name};
ghost use Rattle.opfs_storage_tests.specs.Tree.Bare.{IsBare};

use crate::tree::growing::{add_child, add_root, empty_file};
use opfs_base::{Key, Kind, Path};
use opfs_tree::{Row, Tree};
use std::alloc::{AllocError, Global};
use std::test::Fail;

// A tree with one root.
fn one_root(alloc: Global, key: &Key) -> Result<(Tree, Path), AllocError>
    ensures { IfOk result (λ made. IsBare made.0) }
{
    let mut tree = Tree::make(alloc);
    let root = add_root(alloc, &mut tree, key)?;
    Ok((tree, root))
}

// Adds a directory, or a file without blocks.
fn add(
    alloc: Global,
    tree: &mut Tree,
    key: &Key,
    dir: &Path,
    name: &str,
    kind: Kind,
) -> Result<Path, AllocError>
    requires { IsTrue (is_valid_name name.now) }
    ensures { IsBare tree.old → IsBare tree.new }
{
    match kind {
        Kind::Directory => add_child(alloc, tree, key, dir, name, Row::Dir),
        Kind::File => add_child(alloc, tree, key, dir, name, empty_file(alloc)),
    }
}

// Takes out a directory, and says whether all below it had no blocks.
fn remove(alloc: Global, tree: &mut Tree, key: &Key, path: &Path) -> bool
    requires { IsBare tree.old }
{
    let mut freed = Vec::new(alloc);
    let none = tree.extents_below(key, path) == 0;
    tree.remove(key, path, &mut freed);
    none && freed.is_empty()
}

// Whether a directory goes with what is below it, and nothing else.
fn goes_whole(alloc: Global) -> Result<bool, AllocError> {
    let key = Key::of_text(alloc, "https://a.example")?;
    let (mut tree, root) = one_root(alloc, &key)?;
    let dir = add(alloc, &mut tree, &key, &root, "d", Kind::Directory)?;
    let below = add(alloc, &mut tree, &key, &dir, "f", Kind::File)?;
    let beside = add(alloc, &mut tree, &key, &root, "d!", Kind::File)?;
    let had = tree.has_children(&key, &dir) && !tree.has_children(&key, &below);
    let freed = remove(alloc, &mut tree, &key, &dir);
    let gone = tree.kind(&key, &dir).is_none() && tree.kind(&key, &below).is_none();
    let left = tree.kind(&key, &beside) == Some(Kind::File) && !tree.has_children(&key, &beside);
    Ok(had && freed && gone && left)
}

#[test]
fn a_directory_goes_with_all_below_it(rt: HostRuntime) -> Result<(), Fail> {
    assert!(rt; goes_whole(rt.alloc())?);
    Ok(())
}
