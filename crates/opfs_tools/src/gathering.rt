//! The rows of a tree, and the persistent units of a shed.

ghost use Rattle.std.specs.Prelude.{◌≡◌, IfOk};
ghost use Rattle.opfs_records.specs.Replay.Sums.{persistent_in};
ghost use Rattle.opfs_tools.specs.Sights.{sights_in};

use crate::sights::{Entry, Sight};
use crate::units::Persistent;
use opfs_base::Key;
use opfs_shed::Shed;
use opfs_tree::{Tree, Walk};
use std::alloc::{AllocError, Global};

/// The rows of a tree in the order of their places.
pub(crate) fn rows_of<'a>(alloc: Global, tree: &'a Tree) -> Result<Vec<Entry<'a>>, AllocError>
    ensures { IfOk result (λ rows. rows.items ≡ sights_in tree.now) }
{
    let mut rows = Vec::new(alloc);
    let mut walk = Walk::make();
    while let Some(row) = tree.step(&mut walk) {
        rows.push(Entry::make(walk.key(), walk.path(), Sight::of(row)))?;
    }
    Ok(rows)
}

/// The persistent units of a shed in order.
pub(crate) fn persistent_of<'a>(
    alloc: Global,
    shed: &'a Shed,
) -> Result<Vec<Persistent<'a>>, AllocError>
    ensures { IfOk result (λ units. units.items ≡ persistent_in shed.now.buckets) }
{
    let mut units = Vec::new(alloc);
    let mut last: Option<&'a Key> = None;
    while let Some(key) = shed.persistent_after(last) {
        units.push(Persistent::make(key))?;
        last = Some(key);
    }
    Ok(units)
}
