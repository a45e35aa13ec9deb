//! Records applied one after another.

ghost use Rattle.std.specs.Prelude.{◌≡◌, ◌<◌, ◌≤◌, ◌&&◌, [], false, not, drop, length, Some, None, option_map, is_some, IfOk, IfSome, MatchOption};
ghost use Rattle.std.specs.Ordering.{nat_cmp};
ghost use Rattle.std.specs.Cmp.Lexicographic.{slice_cmp};
ghost use Rattle.opfs_codec.specs.Reading.{change_at};
ghost use Rattle.opfs_codec.specs.Spelling.{IsKey, IsPath, AreExtents, IsChange};
ghost use Rattle.opfs_records.specs.Checkpoint.Written.{AreWritable, IsWritableRow};
ghost use Rattle.opfs_codec.specs.declared.change.Change.TheVariants.{MakeRoot, MakeDir, MakeFile, Remove, Content, Persist, Evict};
ghost use Rattle.opfs_codec.specs.declared.change.Format.TheVariants.{New};
ghost use Rattle.opfs_machine.specs.Ordered.{insert_by};
ghost use Rattle.opfs_tree.specs.Rows.{row_at, extents_of, HasParent};
ghost use Rattle.opfs_records.specs.Replay.Applying.{built_by, is_root, is_persistent, empty_file, with_row, without_row};
ghost use Rattle.opfs_records.specs.Replay.Built.{nothing_built, used_by, IsSound, IsSoundRow};
ghost use Rattle.opfs_records.specs.Replay.Kept.{Applies};
ghost use Rattle.opfs_records.specs.Replay.Sums.{charge_of, persistent_in, AreShared};

use crate::replay::places::{free_place, is_taken, is_unit_in};
use crate::replay::stores::{remove, store};
use crate::replay::usages::fill;
use opfs_base::{Extents, Key, Path, plus, unit_bytes};
use opfs_blocks::BlockMap;
use opfs_codec::{Change, Format, read, read_old};
use opfs_locks::FileLock;
use opfs_shed::Shed;
use opfs_tree::{FileRow, Row, Tree};
use std::alloc::{AllocError, Global};
use std::marker::Model;

/// What the records of a journal have built so far, from nothing: rows with the blocks of their files, and the
/// persistent units.
#[derive(Drop)]
pub struct Replay {
    tree: Tree,
    map: BlockMap,
    // The persistent buckets alone, which use nothing yet.
    shed: Shed,
    // No fewer extents than the files have.
    most: u64,
    // The charge of the persistent units.
    charge: u64,
}

impl Model for Replay {
    ghost use Rattle.std.specs.Prelude.{length};
    ghost use Rattle.opfs_records.specs.Replay.Replaying.{Replayed};
    ghost use Rattle.opfs_records.specs.Replay.Sums.{persistent_in};

    ghost Value = { Replayed };

    ghost view = { λ r. record { built = record { rows = r.tree; persistent = persistent_in r.shed.buckets }; size = length r.map; quota = r.shed.quota } };

    ghost use Rattle.opfs_records.specs.Replay.Kept.{IsKept};

    ghost invariant = { λ r. IsKept r.tree r.map r.shed.buckets r.most r.charge };
}

/// All that the records built.
#[derive(Drop)]
pub struct Rebuilt {
    /// The rows.
    pub tree: Tree,
    /// The quota, the mode of each bucket, and the blocks that its files use.
    pub shed: Shed,
    /// The blocks that the files use.
    pub map: BlockMap,
    /// The charge of the rows and the persistent units, in bytes.
    pub charge: u64,
}

impl Replay {
    /// Nothing is built yet, over so many data blocks and with this quota in blocks.
    pub fn make(alloc: Global, blocks: u32, quota: u64) -> Result<Replay, AllocError>
        ensures { IfOk result (λ replay. replay ≡ record { built = nothing_built; size = blocks; quota = quota }) }
    {
        let map = BlockMap::make(alloc, blocks)?;
        Ok(Replay {
            tree: Tree::make(alloc),
            map,
            shed: Shed::make(alloc, quota),
            most: 0,
            charge: 0,
        })
    }

    /// Applies the changes of a body; None where it is no list of changes of the format that can be applied one after
    /// another.
    pub fn body(
        self,
        alloc: Global,
        format: Format,
        bytes: &[u8],
    ) -> Result<Option<Replay>, AllocError>
        ensures { IfOk result (λ found. MatchOption found (built_by format self.size bytes.now self.built ≡ None)
            (λ next. (built_by format self.size bytes.now self.built ≡ Some next.built) × (next.size ≡ self.size) × (next.quota ≡ self.quota))) }
    {
        let mut built = self;
        let mut at = 0;
        while at < bytes.len() as u64 {
            let Some((change, next)) = read_change(alloc, format, bytes, at)? else {
                return Ok(None);
            };
            let Some(more) = built.apply(alloc, format, change)? else {
                return Ok(None);
            };
            built = more;
            at = next;
        }
        Ok(Some(built))
    }

    /// All that was built, with what it uses and its charge in format 2.
    pub fn finish(self) -> Result<Rebuilt, AllocError>
        ensures rows { IfOk result (λ all. all.tree ≡ self.built.rows) }
        ensures shared { IfOk result (λ all. AreShared self.built all.shed.buckets) }
        ensures quota { IfOk result (λ all. all.shed.quota ≡ self.quota) }
        ensures sound { IfOk result (λ all. IsSound self.size self.built.rows) }
        ensures writable { IfOk result (λ all. AreWritable all.tree (persistent_in all.shed.buckets)) }
        ensures used { IfOk result (λ all. all.map ≡ used_by self.size self.built.rows) }
        ensures charge { IfOk result (λ all. all.charge ≡ charge_of New self.built) }
    {
        let Replay {
            tree,
            map,
            mut shed,
            charge,
            ..
        } = self;
        let rows = fill(&mut shed, &tree)?;
        let charge = plus(rows, charge)?;
        Ok(Rebuilt {
            tree,
            shed,
            map,
            charge,
        })
    }

    // Applies a change; None where it can't be applied.
    fn apply(
        self,
        alloc: Global,
        format: Format,
        change: Change,
    ) -> Result<Option<Replay>, AllocError>
        requires { IsChange format change }
        ensures { IfOk result (Applies format self change) }
    {
        match change {
            Change::MakeRoot(unit) => self.make_root(alloc, format, unit),
            Change::MakeDir(unit, path) => self.make_dir(alloc, format, unit, path),
            Change::MakeFile(unit, path, stamp) => self.make_file(alloc, format, unit, path, stamp),
            Change::Remove(unit, path) => self.remove(alloc, format, unit, path),
            Change::Content(unit, path, stamp, length, extents) => {
                self.content(format, unit, path, stamp, length, extents)
            }
            Change::Persist(unit) => self.persist(format, unit),
            Change::Evict(unit) => self.evict(alloc, format, unit),
        }
    }

    // Makes a unit's root.
    #[tactic(auto, unfolding(crate::specs::Replay::Applying::can_apply, crate::specs::Replay::Applying::applied))]
    fn make_root(
        self,
        alloc: Global,
        format: Format,
        unit: Key,
    ) -> Result<Option<Replay>, AllocError>
        requires { IsKey format unit }
        ensures { IfOk result (Applies format self (MakeRoot unit)) }
    {
        let path = Path::root(alloc);
        if !is_unit_in(format, &unit) || is_taken(&self.tree, &unit, &path) {
            return Ok(None);
        }
        let next = self.with_row(alloc, &unit, &path, Row::Dir)?;
        Ok(Some(next))
    }

    // Makes a directory.
    #[tactic(auto, unfolding(crate::specs::Replay::Applying::can_apply, crate::specs::Replay::Applying::applied))]
    fn make_dir(
        self,
        alloc: Global,
        format: Format,
        unit: Key,
        path: Path,
    ) -> Result<Option<Replay>, AllocError>
        requires { IsKey format unit × IsPath path }
        ensures { IfOk result (Applies format self (MakeDir unit path)) }
    {
        if !is_unit_in(format, &unit) {
            return Ok(None);
        }
        let Some(path) = free_place(&self.tree, &unit, path)? else {
            return Ok(None);
        };
        let next = self.with_row(alloc, &unit, &path, Row::Dir)?;
        Ok(Some(next))
    }

    // Makes a file.
    #[tactic(auto, unfolding(crate::specs::Replay::Applying::can_apply, crate::specs::Replay::Applying::applied))]
    fn make_file(
        self,
        alloc: Global,
        format: Format,
        unit: Key,
        path: Path,
        stamp: u64,
    ) -> Result<Option<Replay>, AllocError>
        requires { IsKey format unit × IsPath path }
        ensures { IfOk result (Applies format self (MakeFile unit path stamp)) }
    {
        if !is_unit_in(format, &unit) {
            return Ok(None);
        }
        let Some(path) = free_place(&self.tree, &unit, path)? else {
            return Ok(None);
        };
        let next = self.with_row(alloc, &unit, &path, empty_file(alloc, stamp))?;
        Ok(Some(next))
    }

    // Adds a row without blocks.
    fn with_row(
        self,
        alloc: Global,
        unit: &Key,
        path: &Path,
        row: Row,
    ) -> Result<Replay, AllocError>
        requires free { row_at (unit.now, path.now) self.built.rows ≡ None }
        requires parent { HasParent (unit.now, path.now) self.built.rows }
        requires bare { extents_of row ≡ [] }
        requires sound { IsSoundRow self.size row }
        requires writable { IsWritableRow (unit.now, path.now) row }
        ensures built { IfOk result (λ next. next.built ≡ with_row self.built (unit.now, path.now) row) }
        ensures size { IfOk result (λ next. next.size ≡ self.size) }
        ensures quota { IfOk result (λ next. next.quota ≡ self.quota) }
    {
        let Replay {
            mut tree,
            map,
            shed,
            most,
            charge,
        } = self;
        tree.add(alloc, unit, path, row)?;
        Ok(Replay {
            tree,
            map,
            shed,
            most,
            charge,
        })
    }

    // Removes an entry and all below it.
    #[tactic(auto, unfolding(crate::specs::Replay::Applying::can_apply, crate::specs::Replay::Applying::applied))]
    fn remove(
        self,
        alloc: Global,
        format: Format,
        unit: Key,
        path: Path,
    ) -> Result<Option<Replay>, AllocError>
        ensures { IfOk result (Applies format self (Remove unit path)) }
    {
        if !is_unit_in(format, &unit) || !is_entry(&self.tree, &unit, &path) {
            return Ok(None);
        }
        let next = self.without_row(alloc, &unit, &path)?;
        Ok(Some(next))
    }

    // Evicts a unit's bucket.
    #[tactic(auto, unfolding(crate::specs::Replay::Applying::can_apply, crate::specs::Replay::Applying::applied))]
    fn evict(self, alloc: Global, format: Format, unit: Key) -> Result<Option<Replay>, AllocError>
        ensures { IfOk result (Applies format self (Evict unit)) }
    {
        let path = Path::root(alloc);
        if !is_unit_in(format, &unit) || !is_taken(&self.tree, &unit, &path) {
            return Ok(None);
        }
        let is_kept = self.is_persistent(&unit);
        if is_kept {
            return Ok(None);
        }
        let next = self.without_row(alloc, &unit, &path)?;
        Ok(Some(next))
    }

    // Takes out the row at a place and all below it.
    fn without_row(self, alloc: Global, unit: &Key, path: &Path) -> Result<Replay, AllocError>
        ensures built { IfOk result (λ next. next.built ≡ without_row self.built (unit.now, path.now)) }
        ensures size { IfOk result (λ next. next.size ≡ self.size) }
        ensures quota { IfOk result (λ next. next.quota ≡ self.quota) }
    {
        let Replay {
            mut tree,
            mut map,
            shed,
            most,
            charge,
        } = self;
        remove(alloc, &mut tree, &mut map, unit, path, most)?;
        Ok(Replay {
            tree,
            map,
            shed,
            most,
            charge,
        })
    }

    // Gives a file other bytes.
    #[tactic(auto, unfolding(crate::specs::Replay::Applying::can_apply, crate::specs::Replay::Applying::applied))]
    fn content(
        self,
        format: Format,
        unit: Key,
        path: Path,
        stamp: u64,
        bytes: u64,
        extents: Extents,
    ) -> Result<Option<Replay>, AllocError>
        requires { AreExtents extents }
        ensures { IfOk result (Applies format self (Content unit path stamp bytes extents)) }
    {
        if !is_unit_in(format, &unit) {
            return Ok(None);
        }
        let Replay {
            mut tree,
            mut map,
            shed,
            most,
            charge,
        } = self;
        let most = plus(most, extents.len() as u64)?;
        if !store(&mut tree, &mut map, &unit, &path, stamp, bytes, extents) {
            return Ok(None);
        }
        Ok(Some(Replay {
            tree,
            map,
            shed,
            most,
            charge,
        }))
    }

    // Whether a unit is persistent.
    fn is_persistent(&self, unit: &Key) -> bool
        ensures { result ≡ is_persistent self.now.built unit.now }
    {
        self.shed.is_persistent(unit)
    }

    // Makes a unit persistent.
    #[tactic(auto, unfolding(crate::specs::Replay::Applying::can_apply, crate::specs::Replay::Applying::applied))]
    fn persist(self, format: Format, unit: Key) -> Result<Option<Replay>, AllocError>
        requires { IsKey format unit }
        ensures { IfOk result (Applies format self (Persist unit)) }
    {
        if !is_unit_in(format, &unit) {
            return Ok(None);
        }
        if self.is_persistent(&unit) {
            return Ok(Some(self));
        }
        let next = self.with_persistent(&unit)?;
        Ok(Some(next))
    }

    // Adds a persistent unit.
    fn with_persistent(self, unit: &Key) -> Result<Replay, AllocError>
        requires new { is_persistent self.built unit.now ≡ false }
        requires key { IsKey New unit.now }
        ensures rows { IfOk result (λ next. next.built ≡ record self.built { persistent = insert_by (slice_cmp nat_cmp) unit.now self.built.persistent }) }
        ensures size { IfOk result (λ next. next.size ≡ self.size) }
        ensures quota { IfOk result (λ next. next.quota ≡ self.quota) }
    {
        let Replay {
            tree,
            map,
            mut shed,
            most,
            charge,
        } = self;
        let bytes = unit_bytes(unit)?;
        let more = plus(3, bytes)?;
        let charge = plus(charge, more)?;
        shed.touch(unit)?;
        shed.set_persistent(unit);
        Ok(Replay {
            tree,
            map,
            shed,
            most,
            charge,
        })
    }
}

// The change that begins at a place of a body, and the place behind it.
fn read_change(
    alloc: Global,
    format: Format,
    bytes: &[u8],
    at: u64,
) -> Result<Option<(Change, u64)>, AllocError>
    ensures exact { IfOk result (λ r. option_map (λ x. (x.0, drop x.1 bytes.now)) r ≡ change_at format (drop at bytes.now)) }
    ensures forth { IfOk result (λ r. IfSome r (λ x. (at < x.1) × (x.1 ≤ length bytes.now))) }
    ensures change { IfOk result (λ r. IfSome r (λ x. IsChange format x.0)) }
{
    match format {
        Format::Old => read_old(alloc, bytes, at),
        Format::New => read(alloc, bytes, at),
    }
}

// A file as it is made.
fn empty_file(alloc: Global, stamp: u64) -> Row
    ensures { result ≡ empty_file stamp }
{
    Row::File(FileRow {
        length: 0,
        stamp,
        present: 0,
        present_stamp: stamp,
        extents: Extents::none(alloc),
        lock: FileLock::make(),
    })
}

// Whether a row that is no root is at a place.
fn is_entry(tree: &Tree, unit: &Key, path: &Path) -> bool
    ensures { result ≡ (not (is_root path.now) && is_some (row_at (unit.now, path.now) tree.now)) }
{
    !path.names().is_empty() && is_taken(tree, unit, path)
}
