//! What is read of the shared store, in the machine's words.

ghost use Rattle.std.specs.Prelude.{◌≡◌, ◌<◌, ◌≤◌, ◌^◌, None, option_map, ◌∷◌, [], Some, IfOk, IfNone, IfSome, IsSomeAnd, length};
ghost use Rattle.opfs_machine.specs.Contents.{in_lengths};
ghost use Rattle.opfs_machine.specs.Rows.{row_at, file_at, kind_of, rows_within, has_children, first_locked};
ghost use Rattle.opfs_machine.specs.Sums.{is_persistent, usage, pool, charge};
ghost use Rattle.std.specs.Option.{option_copied};
ghost use Rattle.opfs_tree.specs.Rows.{file_at as file_in_tree};
ghost use Rattle.opfs_tree.specs.Rows.{extents_within, least_above, least_not_in, children_of, rows_above, IsInOrder};
ghost use Rattle.opfs_base.specs.Units.{origin_of};
ghost use Rattle.opfs_state_rows.specs.Standing.Pooled.{IsPooled, registered};
ghost use Rattle.opfs_state_rows.specs.Standing.Seen.{lines_of, persistent_in};

use crate::standing::standing::Standing;
use opfs_base::{BLOCK_CHARGE, Key, Kind, Name, Path};
use opfs_locks::LockValue;
use opfs_pool::Pool;
use opfs_register::Register;
use opfs_shed::Shed;
use opfs_tree::{FileRow, ReadyTree, Row, Walk};
use std::alloc::{AllocError, Global};

impl Standing {
    /// The machine has the rows of the tree. Says so, and does next to nothing.
    pub fn know_rows_match_tree(&self)
        ensures { self.now.machine.rows ≡ lines_of self.now.tree }
    {
        let _tree = &self.tree;
    }

    /// The rows stand in order. Says so, and does nothing.
    pub fn know_order(&self)
        ensures { IsInOrder self.now.tree }
    {
        self.tree.know_order();
    }

    /// The rows with their blocks, beside the place that stands ready.
    pub fn tree(&self) -> &ReadyTree
        ensures { result.now ≡ record { rows = self.now.tree; ready = self.now.prepared.place } }
    {
        &self.tree
    }

    /// The buckets, with the modes of their units.
    pub fn shed(&self) -> &Shed
        ensures quota { result.now.quota ≡ self.now.machine.limits.quota }
        ensures modes { persistent_in result.now.buckets ≡ self.now.machine.persistent }
    {
        &self.shed
    }

    /// Whether a directory or a file is at a place; None where neither is.
    pub fn kind(&self, unit: &Key, path: &Path) -> Option<Kind>
        ensures { result ≡ option_map kind_of (row_at self.now.machine (unit.now, path.now)) }
    {
        self.tree.kind(unit, path)
    }

    /// How many bytes a read of the file at a place gives; None where no file is.
    pub fn size(&self, unit: &Key, path: &Path) -> Option<u64>
        ensures { result ≡ option_map (λ f. f.present) (file_at self.now.machine (unit.now, path.now)) }
    {
        match self.tree.file(unit, path) {
            Some(file) => Some(file.present),
            None => None,
        }
    }

    /// Whether a place has children, where no place stands ready.
    pub fn has_children(&self, unit: &Key, path: &Path) -> bool
        requires { self.now.prepared.place ≡ None }
        ensures { result ≡ has_children self.now.machine (unit.now, path.now) }
    {
        self.tree.has_children(unit, path)
    }

    /// The first lock at a place or below it that is not open, with the number of its holders.
    pub fn first_locked(&self, unit: &Key, path: &Path) -> Option<(LockValue, u32)>
        ensures { result ≡ first_locked (rows_within self.now.machine (unit.now, path.now)) }
    {
        self.tree.first_locked(unit, path)
    }

    /// Whether a unit's mode is persistent.
    pub fn is_persistent(&self, unit: &Key) -> bool
        ensures { result ≡ is_persistent self.now.machine unit.now }
    {
        self.shed.is_persistent(unit)
    }

    /// The most bytes that a snapshot of what is durable can take.
    pub fn charge(&self) -> u64
        requires { charge in_lengths self.now.machine < 2 ^ 64 }
        ensures { result ≡ charge in_lengths self.now.machine }
    {
        self.fixed + BLOCK_CHARGE * self.pool.count()
    }

    /// The pool: the blocks that each unit keeps, and whether it may be cleared.
    pub fn pool(&self) -> &Pool
        ensures { IsPooled self.now.machine result.now }
    {
        self.pool.know_order();
        &self.pool
    }

    /// The agents with their own rows, the posted tags, the number of entries, the last uses and the limits, with what is
    /// prepared of these.
    pub fn register(&self) -> &Register
        ensures { result.now ≡ registered self.now }
    {
        &self.register
    }

    /// The blocks that the origin of a unit uses.
    pub fn usage(&self, unit: &Key) -> u64
        ensures { result ≡ usage in_lengths self.now.machine (origin_of unit.now) }
    {
        self.shed.usage(unit)
    }

    /// The blocks that are kept for durable bytes and for open rows.
    pub fn held(&self) -> u64
        ensures held { result ≡ pool in_lengths self.now.machine }
        ensures within { result ≤ self.now.machine.limits.blocks }
    {
        self.pool.count()
    }

    /// The file at a place with its blocks; None where none is.
    pub fn file(&self, unit: &Key, path: &Path) -> Option<&FileRow>
        ensures { option_copied result ≡ file_in_tree (unit.now, path.now) self.now.tree }
    {
        self.tree.file(unit, path)
    }

    /// How many extents the row at a place and all below it have.
    pub fn extents_below(&self, unit: &Key, path: &Path) -> u64
        requires { length (extents_within (unit.now, path.now) self.now.tree) < 2 ^ 64 }
        ensures { result ≡ length (extents_within (unit.now, path.now) self.now.tree) }
    {
        self.tree.extents_below(unit, path)
    }

    /// The least child of a directory whose name is not among those given, in whatever order they are, where no place
    /// stands ready; None where there is no further child.
    pub fn least_not_in(
        &self,
        alloc: Global,
        unit: &Key,
        path: &Path,
        past: &[Name],
    ) -> Result<Option<(Name, Kind)>, AllocError>
        requires { self.now.prepared.place ≡ None }
        ensures { IfOk result (λ child. child ≡ least_not_in past.now (children_of (unit.now, path.now) self.now.tree)) }
    {
        self.tree.least_not_in(alloc, unit, path, past)
    }

    /// The least child of a directory whose name is above another, where no place stands ready; None where there is none.
    pub fn least_above(
        &self,
        alloc: Global,
        unit: &Key,
        path: &Path,
        name: &Name,
    ) -> Result<Option<(Name, Kind)>, AllocError>
        requires { self.now.prepared.place ≡ None }
        ensures { IfOk result (λ child. child ≡ least_above name.now (children_of (unit.now, path.now) self.now.tree)) }
    {
        self.tree.least_above(alloc, unit, path, name)
    }

    /// Moves a walk on to the least place above its own where a row is, and gives that row; None where there is none.
    /// Takes no memory.
    pub fn step<'a>(&'a self, walk: &mut Walk<'a>) -> Option<&'a Row>
        ensures end { IfNone result (rows_above walk.old self.now.tree ≡ []) }
        ensures next { IfSome result (λ row. IsSomeAnd walk.new (λ place. rows_above walk.old self.now.tree ≡ (place, row.now) ∷ rows_above (Some place) self.now.tree)) }
        ensures order { IsInOrder self.now.tree }
    {
        self.tree.step(walk)
    }
}
