//! The bytes that are written with one change more.

ghost use Rattle.opfs_codec.specs.Spelling.{IsChange};
ghost use Rattle.opfs_codec.specs.declared.change.Format.TheVariants.{New};

use crate::commits::works::{borrowed, change};
use crate::snapshots::growing::{add_child, add_root, persist, short_file};
use opfs_base::Key;
use opfs_codec::Change;
use opfs_records::{are_writable, snapshot_after};
use opfs_shed::Shed;
use opfs_tree::{ReadyTree, Row, Tree};
use std::alloc::{AllocError, Global};
use std::test::Fail;

// Adds a root with one file.
fn add_rows(alloc: Global, tree: &mut Tree, key: &Key) -> Result<(), AllocError> {
    let root = add_root(alloc, tree, key, Row::Dir)?;
    let file = short_file(alloc)?;
    add_child(alloc, tree, key, &root, "f", file)?;
    Ok(())
}

// A root with one file.
fn grown(alloc: Global, key: &Key) -> Result<Tree, AllocError> {
    let mut tree = Tree::make(alloc);
    match add_rows(alloc, &mut tree, key) {
        Ok(()) => Ok(tree),
        Err(error) => Err(error),
    }
}

// Whether the bytes after a change are these, if they can be written.
fn writes(
    alloc: Global,
    tree: &ReadyTree,
    shed: &Shed,
    own: &Change,
    hand: &[u8],
) -> Result<bool, AllocError>
    requires { IsChange New own.now }
{
    if !are_writable(tree, shed) {
        return Ok(false);
    }
    let mut bytes = Vec::new(alloc);
    snapshot_after(tree, shed, &borrowed(own), &mut bytes)?;
    Ok(bytes.as_slice() == hand)
}

// The same of the change that bytes spell.
fn writes_spelled(
    alloc: Global,
    tree: &ReadyTree,
    shed: &Shed,
    own: &[u8],
    hand: &[u8],
) -> Result<bool, AllocError> {
    let own = change(alloc, own)?;
    let writes = writes(alloc, tree, shed, &own, hand);
    drop(own);
    writes
}

// The same, where the unit is persistent.
fn writes_beside(
    alloc: Global,
    tree: &ReadyTree,
    key: &Key,
    own: &[u8],
    hand: &[u8],
) -> Result<bool, AllocError> {
    let mut shed = Shed::make(alloc, 100);
    persist(&mut shed, key)?;
    let writes = writes_spelled(alloc, tree, &shed, own, hand);
    drop(shed);
    writes
}

// Whether the bytes of a root with one file, in a persistent unit, are these after a change.
fn leaves(alloc: Global, own: &[u8], hand: &[u8]) -> Result<bool, AllocError> {
    let key = Key::of_text(alloc, "https://a.example")?;
    let tree = ReadyTree::make(alloc, grown(alloc, &key)?);
    let leaves = writes_beside(alloc, &tree, &key, own, hand);
    drop(tree);
    leaves
}

#[test]
fn a_removed_file_is_left_out(rt: HostRuntime) -> Result<(), Fail> {
    let hand = b"\x01\x11\x00https://a.example\x07default\x06\x11\x00https://a.example\x07default";
    let own = b"\x04\x11\x00https://a.example\x07default\x01\x01f";
    assert!(rt; leaves(rt.alloc(), own, hand)?);
    Ok(())
}

#[test]
fn a_file_has_its_new_content(rt: HostRuntime) -> Result<(), Fail> {
    let hand =
        b"\x01\x11\x00https://a.example\x07default\x03\x11\x00https://a.example\x07default\x01\x01f\x09\x00\x00\x00\x00\x00\x00\x00\x06\x11\x00https://a.example\x07default";
    let own =
        b"\x05\x11\x00https://a.example\x07default\x01\x01f\x09\x00\x00\x00\x00\x00\x00\x00\x00\x00\x00\x00\x00\x00\x00\x00\x00\x00\x00\x00";
    assert!(rt; leaves(rt.alloc(), own, hand)?);
    Ok(())
}
