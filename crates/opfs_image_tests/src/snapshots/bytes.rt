//! The bytes that are written.

use crate::snapshots::growing::{add_child, add_root, empty_file, persist, short_file};
use opfs_base::{Key, Path};
use opfs_records::{are_writable, snapshot};
use opfs_shed::Shed;
use opfs_tree::{ReadyTree, Row, Tree};
use std::alloc::{AllocError, Global};
use std::test::Fail;

// A unit with two files, and one with nothing but a root.
fn two_units(alloc: Global, first: &Key, second: &Key) -> Result<Tree, AllocError> {
    let mut tree = Tree::make(alloc);
    add_root(alloc, &mut tree, second, Row::Dir)?;
    let root = add_root(alloc, &mut tree, first, Row::Dir)?;
    add_files(alloc, &mut tree, first, &root)?;
    Ok(tree)
}

// A file in a directory, and one without bytes beside it.
fn add_files(alloc: Global, tree: &mut Tree, key: &Key, root: &Path) -> Result<(), AllocError> {
    add_child(alloc, tree, key, root, "e", empty_file(alloc))?;
    let dir = add_child(alloc, tree, key, root, "d", Row::Dir)?;
    add_child(alloc, tree, key, &dir, "f", short_file(alloc)?)?;
    Ok(())
}

// A shed with a best-effort unit and a persistent one.
fn two_modes(alloc: Global, first: &Key, second: &Key) -> Result<Shed, AllocError> {
    let mut shed = Shed::make(alloc, 100);
    shed.touch(first)?;
    persist(&mut shed, second)?;
    Ok(shed)
}

// The bytes of a tree and a shed in the place of another byte, if they can be written.
fn written(alloc: Global, tree: &ReadyTree, shed: &Shed) -> Result<Vec<u8>, AllocError> {
    let mut bytes = Vec::new(alloc);
    bytes.push(9)?;
    if are_writable(tree, shed) {
        snapshot(tree, shed, &mut bytes)?;
    }
    Ok(bytes)
}

// The bytes of a tree beside the modes of its units.
fn written_beside(
    alloc: Global,
    tree: &ReadyTree,
    first: &Key,
    second: &Key,
) -> Result<Vec<u8>, AllocError> {
    let shed = two_modes(alloc, first, second)?;
    let bytes = written(alloc, tree, &shed);
    drop(shed);
    bytes
}

// The bytes of both units.
fn both_written(alloc: Global) -> Result<Vec<u8>, AllocError> {
    let first = Key::of_text(alloc, "https://a.example")?;
    let second = Key::of_text(alloc, "https://a.example#b")?;
    let tree = ReadyTree::make(alloc, two_units(alloc, &first, &second)?);
    let bytes = written_beside(alloc, &tree, &first, &second);
    drop(tree);
    bytes
}

// The same bytes, written by hand.
const EXPECTED: [&[u8]; 12] = [
    b"\x01\x11\x00https://a.example\x07default",
    b"\x02\x11\x00https://a.example\x07default\x01\x01d",
    b"\x03\x11\x00https://a.example\x07default\x02\x01d\x01f",
    b"\x08\x00\x00\x00\x00\x00\x00\x00",
    b"\x05\x11\x00https://a.example\x07default\x02\x01d\x01f",
    b"\x08\x00\x00\x00\x00\x00\x00\x00",
    b"\x05\x00\x00\x00\x00\x00\x00\x00",
    b"\x01\x00\x00\x00\x03\x00\x00\x00\x01\x00\x00\x00",
    b"\x03\x11\x00https://a.example\x07default\x01\x01e",
    b"\x07\x00\x00\x00\x00\x00\x00\x00",
    b"\x01\x11\x00https://a.example\x01b",
    b"\x06\x11\x00https://a.example\x01b",
];

// These parts, one behind another.
fn expected(alloc: Global) -> Result<Vec<u8>, AllocError> {
    let mut bytes = Vec::new(alloc);
    for part in EXPECTED {
        bytes.extend_from_slice(part)?;
    }
    Ok(bytes)
}

// A tree with one row at a root.
fn one_row(alloc: Global, key: &Key, row: Row) -> Result<Tree, AllocError> {
    let mut tree = Tree::make(alloc);
    match add_root(alloc, &mut tree, key, row) {
        Ok(_) => Ok(tree),
        Err(error) => Err(error),
    }
}

// Whether a tree with one row at a root can be written, with this unit.
fn is_written(alloc: Global, unit: &str, row: Row) -> Result<bool, AllocError> {
    let tree = match Key::of_text(alloc, unit) {
        Ok(key) => one_row(alloc, &key, row)?,
        Err(error) => {
            drop(row);
            return Err(error);
        }
    };
    let tree = ReadyTree::make(alloc, tree);
    let shed = Shed::make(alloc, 100);
    let is_written = are_writable(&tree, &shed);
    drop(shed);
    drop(tree);
    Ok(is_written)
}

#[test]
fn rows_and_persistent_units_are_written_in_order(rt: HostRuntime) -> Result<(), Fail> {
    assert!(rt; both_written(rt.alloc())? == expected(rt.alloc())?);
    Ok(())
}

#[test]
fn a_named_bucket_is_written(rt: HostRuntime) -> Result<(), Fail> {
    assert!(rt; is_written(rt.alloc(), "https://a.example#b", Row::Dir)?);
    Ok(())
}

#[test]
fn a_default_bucket_by_its_name_is_not_written(rt: HostRuntime) -> Result<(), Fail> {
    assert!(rt; !is_written(rt.alloc(), "https://a.example#default", Row::Dir)?);
    Ok(())
}

#[test]
fn a_file_at_a_root_is_not_written(rt: HostRuntime) -> Result<(), Fail> {
    let file = empty_file(rt.alloc());
    assert!(rt; !is_written(rt.alloc(), "https://a.example", file)?);
    Ok(())
}
