//! A tree and a place that stands ready.

ghost use Rattle.std.specs.Prelude.{◌≡◌, None, Some, OnOk, OnErr};
ghost use Rattle.std.specs.FinMap.Entries.{put};
ghost use Rattle.opfs_base.specs.Places.{Place, place_cmp};
ghost use Rattle.opfs_base.specs.declared.locator.Kind.{Kind};
ghost use Rattle.opfs_tree.specs.Rows.{row_at, without, HasParent};
ghost use Rattle.opfs_tree.specs.Ready.Ready.{new_row, is_ready, IsSpare};

use crate::{FileRow, Row, Tree};
use opfs_base::{Extents, Key, Kind, Path, Place, compare_places, copy_place};
use opfs_locks::FileLock;
use std::alloc::{AllocError, Global};
use std::marker::Model;

/// Rows in a tree, and a place that stands ready for one more: a row that comes there takes no memory. Until then it is
/// not seen.
#[derive(Drop)]
pub struct ReadyTree {
    pub(crate) tree: Tree,
    pub(crate) ready: Option<(Place, Kind)>,
    alloc: Global,
}

impl Model for ReadyTree {
    ghost use Rattle.opfs_tree.specs.Ready.Ready.{ReadyRows, shown, IsKept};

    ghost Value = { ReadyRows };

    ghost view = { λ t. record { rows = shown t.ready t.tree; ready = t.ready } };

    ghost invariant = { λ t. IsKept t.ready t.tree };
}

impl ReadyTree {
    /// The rows of a tree, where no place stands ready. Takes no memory.
    pub fn make(alloc: Global, tree: Tree) -> ReadyTree
        ensures { result ≡ record { rows = tree; ready = None } }
    {
        ReadyTree {
            tree,
            ready: None,
            alloc,
        }
    }

    /// Makes a free place ready for a row of a kind. No other place stands ready then, even where there is no memory.
    pub fn prepare(&mut self, key: &Key, path: &Path, kind: Kind) -> Result<(), AllocError>
        requires free { row_at (key.now, path.now) self.old.rows ≡ None }
        requires parent { HasParent (key.now, path.now) self.old.rows }
        ensures ok { OnOk result (self.new ≡ record { rows = self.old.rows; ready = Some ((key.now, path.now), kind) }) }
        ensures err { OnErr result (self.new ≡ record { rows = self.old.rows; ready = None }) }
    {
        self.cancel();
        self.tree.know_order();
        let place = copy_place(self.alloc, key, path)?;
        let row = new_row(self.alloc, kind);
        self.tree.add(self.alloc, key, path, row)?;
        set_ready(&mut self.ready, place, kind);
        Ok(())
    }

    /// No place stands ready any more. Takes no memory.
    pub fn cancel(&mut self)
        ensures { self.new ≡ record { rows = self.old.rows; ready = None } }
    {
        if let Some((place, _)) = self.ready.take() {
            let mut freed = Vec::new(self.alloc);
            self.tree.remove(&place.0, &place.1, &mut freed);
        }
    }

    /// The row comes for which a place stands ready, with a time stamp if it is a file. Takes no memory.
    pub fn fill(&mut self, stamp: u64)
        ensures free { (place : Place) (kind : Kind) → self.old.ready ≡ Some (place, kind) → row_at place self.old.rows ≡ None }
        ensures rows { (place : Place) (kind : Kind) → self.old.ready ≡ Some (place, kind) → self.new.rows ≡ put place_cmp place (new_row kind stamp) self.old.rows }
        ensures ready { self.new.ready ≡ None }
    {
        if let Some((place, kind)) = self.ready.take() {
            set_stamp(self.alloc, &mut self.tree, &place, kind, stamp);
        }
    }

    /// The place that stands ready, and the kind of the row that may come there.
    pub fn ready(&self) -> &Option<(Place, Kind)>
        ensures { result.now ≡ self.now.ready }
    {
        &self.ready
    }
}

// A row of a kind without bytes.
fn new_row(alloc: Global, kind: Kind) -> Row
    ensures { result ≡ new_row kind 0 }
{
    match kind {
        Kind::Directory => Row::Dir,
        Kind::File => Row::File(FileRow {
            length: 0,
            stamp: 0,
            present: 0,
            present_stamp: 0,
            extents: Extents::none(alloc),
            lock: FileLock::make(),
        }),
    }
}

// Whether a place is the one that stands ready.
pub(crate) fn is_ready(ready: &Option<(Place, Kind)>, key: &Key, path: &Path) -> bool
    ensures { result ≡ is_ready (key.now, path.now) ready.now }
{
    match ready {
        Some((place, _)) => compare_places(key, path, place).is_eq(),
        None => false,
    }
}

// Gives the row that stands ready at a place its time stamp.
fn set_stamp(alloc: Global, tree: &mut Tree, place: &Place, kind: Kind, stamp: u64)
    requires { IsSpare place.now kind tree.old }
    ensures { tree.new ≡ put place_cmp place.now (new_row kind stamp) (without place.now tree.old) }
{
    let Kind::File = kind else {
        return;
    };
    tree.set_file(&place.0, &place.1, 0, stamp, Extents::none(alloc));
}

// A place stands ready for a row of a kind.
fn set_ready(ready: &mut Option<(Place, Kind)>, place: Place, kind: Kind)
    ensures { ready.new ≡ Some (place, kind) }
{
    *ready = Some((place, kind));
}
