//! Walks over all rows.

ghost use Rattle.std.specs.Prelude.{IsSome};

use crate::tree::growing::{add_child, add_root, empty_file};
use opfs_base::{Key, Kind, Path};
use opfs_tree::{Row, Tree, Walk};
use std::alloc::{AllocError, Global};
use std::test::Fail;

// Whether the next row is of this kind, and stands at this unit and path.
fn steps<'a>(tree: &'a Tree, walk: &mut Walk<'a>, unit: &str, path: &str, kind: Kind) -> bool {
    match tree.step(walk) {
        Some(row) => row.kind() == kind && stands(walk, unit, path),
        None => false,
    }
}

// Whether a walk stands at this unit and path.
fn stands(walk: &Walk<'_>, unit: &str, path: &str) -> bool
    requires { IsSome walk.now }
{
    walk.key().as_str() == unit && is_spelled(walk.path(), path)
}

// Whether a path is spelled so, with `/` before each name.
fn is_spelled(path: &Path, text: &str) -> bool {
    let mut rest = text;
    for name in path.names() {
        match after(rest, name.as_str()) {
            Some(behind) => rest = behind,
            None => return false,
        }
    }
    rest.is_empty()
}

// What stands behind `/` and a name.
fn after<'a>(text: &'a str, name: &str) -> Option<&'a str> {
    text.strip_prefix("/")?.strip_prefix(name)
}

// Two units with six rows.
fn six_rows(alloc: Global) -> Result<Tree, AllocError> {
    let mut tree = Tree::make(alloc);
    let second = Key::of_text(alloc, "https://b.example")?;
    let root = add_root(alloc, &mut tree, &second)?;
    add_child(alloc, &mut tree, &second, &root, "x", Row::Dir)?;
    add_unit(alloc, &mut tree)?;
    Ok(tree)
}

// A unit with four rows, whose paths are in another order than their texts.
fn add_unit(alloc: Global, tree: &mut Tree) -> Result<(), AllocError> {
    let key = Key::of_text(alloc, "https://a.example")?;
    let root = add_root(alloc, tree, &key)?;
    let dir = add_child(alloc, tree, &key, &root, "d", Row::Dir)?;
    add_child(alloc, tree, &key, &root, "d!", empty_file(alloc))?;
    add_child(alloc, tree, &key, &dir, "f", empty_file(alloc))?;
    Ok(())
}

// Whether a walk over the six rows gives each once, in order.
fn gives_all(tree: &Tree) -> bool {
    let mut walk = Walk::make();
    for (unit, path, kind) in [
        ("https://a.example", "", Kind::Directory),
        ("https://a.example", "/d", Kind::Directory),
        ("https://a.example", "/d/f", Kind::File),
        ("https://a.example", "/d!", Kind::File),
        ("https://b.example", "", Kind::Directory),
        ("https://b.example", "/x", Kind::Directory),
    ] {
        if !steps(tree, &mut walk, unit, path, kind) {
            return false;
        }
    }
    tree.step(&mut walk).is_none()
}

#[test]
fn a_walk_gives_every_row_once_in_order(rt: HostRuntime) -> Result<(), Fail> {
    let tree = six_rows(rt.alloc())?;
    assert!(rt; gives_all(&tree));
    Ok(())
}
