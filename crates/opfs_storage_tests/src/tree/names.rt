//! Names that an iterator gives.

use crate::tree::growing::{add_child, add_root};
use opfs_base::{Key, Name, Path};
use opfs_tree::{Row, Tree};
use std::alloc::{AllocError, Global};
use std::test::Fail;

// Whether the least child that was not given has this name, which is given then; no text for none.
fn gives(
    alloc: Global,
    tree: &Tree,
    key: &Key,
    dir: &Path,
    past: &mut Vec<Name>,
    name: &str,
) -> Result<bool, AllocError> {
    match tree.least_not_in(alloc, key, dir, past.as_slice())? {
        Some((given, _)) => {
            let same = given.as_str() == name;
            past.push(given)?;
            Ok(same)
        }
        None => Ok(name.is_empty()),
    }
}

// A name below the last one is given later, and each once.
fn gives_each_once(alloc: Global) -> Result<bool, AllocError> {
    let mut tree = Tree::make(alloc);
    let key = Key::of_text(alloc, "https://a.example")?;
    let root = add_root(alloc, &mut tree, &key)?;
    add_child(alloc, &mut tree, &key, &root, "b", Row::Dir)?;
    let mut past = Vec::new(alloc);
    let first = gives(alloc, &tree, &key, &root, &mut past, "b")?;
    add_child(alloc, &mut tree, &key, &root, "a", Row::Dir)?;
    let second = gives(alloc, &tree, &key, &root, &mut past, "a")?;
    let third = gives(alloc, &tree, &key, &root, &mut past, "")?;
    Ok(first && second && third)
}

#[test]
fn a_name_below_the_last_is_given_later(rt: HostRuntime) -> Result<(), Fail> {
    assert!(rt; gives_each_once(rt.alloc())?);
    Ok(())
}
