//! What is read of the rows: the place that stands ready is not seen.

ghost use Rattle.std.specs.Prelude.{◌≡◌, ◌<◌, ◌^◌, ◌∷◌, [], false, None, Some, IfOk, IfNone, IfSome, IsSomeAnd, length, option_map, sum_by};
ghost use Rattle.std.specs.Option.{option_copied};
ghost use Rattle.opfs_tree.specs.Rows.{row_at, file_at, kind_of, rows_within, extents_within, first_taken, none_taken, has_children, children_of, least_above, least_not_in, present_blocks, durable_blocks, rows_above, IsInOrder, IsClosed};
ghost use Rattle.opfs_tree.specs.Sums.{row_charge, entries_within};
ghost use Rattle.opfs_tree.specs.Ready.Ready.{ready_within};

use crate::ready::ready::{ReadyTree, is_ready};
use crate::{FileRow, Row, Sums, Walk};
use opfs_base::{Key, Kind, Name, Path};
use opfs_locks::LockValue;
use std::alloc::{AllocError, Global};

impl ReadyTree {
    /// The rows stand in order, and each but the roots in a directory. Says so, and does nothing.
    pub fn know_order(&self)
        ensures order { IsInOrder self.now.rows }
        ensures closed { IsClosed self.now.rows }
    {
        self.tree.know_order();
    }

    /// Whether a directory or a file is at a place; None where neither is.
    pub fn kind(&self, key: &Key, path: &Path) -> Option<Kind>
        ensures { result ≡ option_map kind_of (row_at (key.now, path.now) self.now.rows) }
    {
        if is_ready(&self.ready, key, path) {
            return None;
        }
        self.tree.kind(key, path)
    }

    /// The file at a place; None where none is.
    pub fn file(&self, key: &Key, path: &Path) -> Option<&FileRow>
        ensures { option_copied result ≡ file_at (key.now, path.now) self.now.rows }
    {
        if is_ready(&self.ready, key, path) {
            return None;
        }
        self.tree.file(key, path)
    }

    /// Whether no file of a unit has a taken lock.
    pub fn none_taken(&self, key: &Key) -> bool
        ensures { result ≡ none_taken key.now self.now.rows }
    {
        self.tree.none_taken(key)
    }

    /// The first lock at a place or below it, in the order of paths, that is not open, with the number of its holders;
    /// None where all are open.
    pub fn first_locked(&self, key: &Key, path: &Path) -> Option<(LockValue, u32)>
        ensures { result ≡ first_taken (rows_within (key.now, path.now) self.now.rows) }
    {
        self.tree.first_locked(key, path)
    }

    /// How many extents the row at a place and all below it have.
    pub fn extents_below(&self, key: &Key, path: &Path) -> u64
        requires { length (extents_within (key.now, path.now) self.now.rows) < 2 ^ 64 }
        ensures { result ≡ length (extents_within (key.now, path.now) self.now.rows) }
    {
        self.tree.extents_below(key, path)
    }

    /// What the row at a place and all below it have, where no place of them stands ready.
    pub fn sums_below(&self, key: &Key, path: &Path) -> Sums
        requires ready { ready_within (key.now, path.now) self.now.ready ≡ false }
        requires present { sum_by present_blocks (rows_within (key.now, path.now) self.now.rows) < 2 ^ 64 }
        requires durable { sum_by durable_blocks (rows_within (key.now, path.now) self.now.rows) < 2 ^ 64 }
        requires charge { sum_by row_charge (entries_within (key.now, path.now) self.now.rows) < 2 ^ 64 }
        ensures present { result.present ≡ sum_by present_blocks (rows_within (key.now, path.now) self.now.rows) }
        ensures durable { result.durable ≡ sum_by durable_blocks (rows_within (key.now, path.now) self.now.rows) }
        ensures charge { result.charge ≡ sum_by row_charge (entries_within (key.now, path.now) self.now.rows) }
    {
        self.tree.sums_below(key, path)
    }

    /// Whether a place has children, where no place stands ready.
    pub fn has_children(&self, key: &Key, path: &Path) -> bool
        requires { self.now.ready ≡ None }
        ensures { result ≡ has_children (key.now, path.now) self.now.rows }
    {
        self.tree.has_children(key, path)
    }

    /// The least child of a directory whose name is not among those given, in whatever order they are, where no place
    /// stands ready; None where there is no further child.
    pub fn least_not_in(
        &self,
        alloc: Global,
        key: &Key,
        path: &Path,
        past: &[Name],
    ) -> Result<Option<(Name, Kind)>, AllocError>
        requires { self.now.ready ≡ None }
        ensures { IfOk result (λ child. child ≡ least_not_in past.now (children_of (key.now, path.now) self.now.rows)) }
    {
        self.tree.least_not_in(alloc, key, path, past)
    }

    /// The least child of a directory whose name is above another, where no place stands ready; None where there is none.
    pub fn least_above(
        &self,
        alloc: Global,
        key: &Key,
        path: &Path,
        name: &Name,
    ) -> Result<Option<(Name, Kind)>, AllocError>
        requires { self.now.ready ≡ None }
        ensures { IfOk result (λ child. child ≡ least_above name.now (children_of (key.now, path.now) self.now.rows)) }
    {
        self.tree.least_above(alloc, key, path, name)
    }

    /// Moves a walk on to the least place above its own where a row is, and gives that row; None where there is none.
    /// Takes no memory.
    pub fn step<'a>(&'a self, walk: &mut Walk<'a>) -> Option<&'a Row>
        ensures end { IfNone result (rows_above walk.old self.now.rows ≡ []) }
        ensures next { IfSome result (λ row. IsSomeAnd walk.new (λ place. rows_above walk.old self.now.rows ≡ (place, row.now) ∷ rows_above (Some place) self.now.rows)) }
        ensures order { IsInOrder self.now.rows }
    {
        let row = self.tree.step(walk)?;
        if is_ready(&self.ready, walk.key(), walk.path()) {
            return self.tree.step(walk);
        }
        Some(row)
    }
}
