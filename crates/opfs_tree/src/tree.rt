//! The rows of all units.

ghost use Rattle.std.specs.Prelude.{◌≡◌, ◌<◌, ◌^◌, ◌≤◌, ◌++◌, ◌==◌, Some, None, [], ◌∷◌, length, sum_by, is_some, option_map, unwrap_or, IsSome, IfSome, IfNone, IsSomeAnd, IsTrue, slice_get, IfOk, OnOk, OnErr, vec_capacity};
ghost use Rattle.std.specs.Option.{option_copied};
ghost use Rattle.std.specs.FinMap.Entries.{put};
ghost use Rattle.opfs_base.specs.Places.{place_cmp};
ghost use Rattle.opfs_locks.specs.Taking.{taken};
ghost use Rattle.opfs_locks.specs.Holding.{IsTakenAs};
ghost use Rattle.opfs_tree.specs.Rows.{row_at, kind_of, file_at, rows_within, extents_within, without, first_taken, children_of, has_children, least_above, least_not_in, rows_above, change_at, locked, unlocked, stored, written, none_taken, present_blocks, durable_blocks, HasParent, IsClosed, IsInOrder};
ghost use Rattle.opfs_tree.specs.Sums.{row_charge, entries_within};
ghost use Rattle.std.specs.List.Sorted.{IsStrictlySortedBy};
ghost use Rattle.std.specs.Map.{keys_of, lookup};
ghost use Rattle.std.specs.BTreeMap.{insert_entry, is_at};
ghost use Rattle.opfs_tree.specs.Units.{text_cmp, path_cmp, unit_rows, all_rows, above, behind};

use crate::counted::CountedUnit;
use crate::row::{FileRow, Row};
use crate::sums::{Sums, unit_bytes};
use crate::unit::Unit;
use crate::walk::Walk;
use opfs_base::{Extent, Extents, Key, Kind, Name, Path};
use opfs_locks::{Held, LockValue, Want};
use std::alloc::{AllocError, Global};
use std::collections::BTreeMap;
use std::marker::Model;
use std::ops::Bound;

/// The rows of the store, seen as the list of them in the order of their places: units first, then paths, a prefix
/// before what is below it. At each place stands one row, and every row but a root stands in a directory.
#[derive(Drop)]
pub struct Tree {
    units: BTreeMap<Key, CountedUnit>,
}

impl Model for Tree {
    ghost use Rattle.opfs_tree.specs.Rows.{Rows};
    ghost use Rattle.opfs_tree.specs.Units.{all_rows, IsWhole};

    ghost Value = { Rows };

    ghost view = { λ tree. all_rows tree.units.entries };

    ghost invariant = { λ tree. IsWhole tree.units.entries };
}

impl Tree {
    /// No rows. Takes no memory.
    pub fn make(alloc: Global) -> Tree
        ensures { result ≡ [] }
    {
        Tree {
            units: BTreeMap::new(alloc),
        }
    }

    /// The rows stand in order, and each but the roots in a directory. Says so, and does nothing.
    pub fn know_order(&self)
        ensures order { IsInOrder self.now }
        ensures closed { IsClosed self.now }
    {
        let _ = &self.units;
    }

    // The rows of a unit.
    fn unit(&self, key: &Key) -> Option<&Unit>
        ensures { unwrap_or (option_copied result) [] ≡ unit_rows key.now self.now }
    {
        match self.units.get(key) {
            Some(unit) => Some(unit.rows()),
            None => None,
        }
    }

    // The row at a place.
    fn row(&self, key: &Key, path: &Path) -> Option<&Row>
        ensures { option_copied result ≡ row_at (key.now, path.now) self.now }
    {
        self.unit(key)?.row(path)
    }

    /// Whether a directory or a file is at a place; None where neither is.
    pub fn kind(&self, key: &Key, path: &Path) -> Option<Kind>
        ensures kind { result ≡ option_map kind_of (row_at (key.now, path.now) self.now) }
        ensures order { IsInOrder self.now }
        ensures closed { IsClosed self.now }
    {
        let _ = &self.units;
        match self.row(key, path) {
            Some(row) => Some(row.kind()),
            None => None,
        }
    }

    /// The file at a place; None where none is.
    pub fn file(&self, key: &Key, path: &Path) -> Option<&FileRow>
        ensures { option_copied result ≡ file_at (key.now, path.now) self.now }
    {
        self.row(key, path)?.file()
    }

    /// Whether a place has children.
    pub fn has_children(&self, key: &Key, path: &Path) -> bool
        ensures { result ≡ has_children (key.now, path.now) self.now }
    {
        match self.unit(key) {
            Some(unit) => unit.has_children(path),
            None => false,
        }
    }

    /// Whether no file of a unit has a taken lock.
    pub fn none_taken(&self, key: &Key) -> bool
        ensures { result ≡ none_taken key.now self.now }
    {
        match self.units.get(key) {
            Some(unit) => unit.none_taken(),
            None => true,
        }
    }

    /// The first lock at a place or below it, in the order of paths, that is not open, with the number of its holders;
    /// None where all are open.
    pub fn first_locked(&self, key: &Key, path: &Path) -> Option<(LockValue, u32)>
        ensures { result ≡ first_taken (rows_within (key.now, path.now) self.now) }
    {
        self.unit(key)?.first_locked(path)
    }

    /// How many extents the row at a place and all below it have.
    pub fn extents_below(&self, key: &Key, path: &Path) -> u64
        requires { length (extents_within (key.now, path.now) self.now) < 2 ^ 64 }
        ensures { result ≡ length (extents_within (key.now, path.now) self.now) }
    {
        match self.unit(key) {
            Some(unit) => unit.extents_below(path),
            None => 0,
        }
    }

    /// What the row at a place and all below it have.
    pub fn sums_below(&self, key: &Key, path: &Path) -> Sums
        requires present { sum_by present_blocks (rows_within (key.now, path.now) self.now) < 2 ^ 64 }
        requires durable { sum_by durable_blocks (rows_within (key.now, path.now) self.now) < 2 ^ 64 }
        requires charge { sum_by row_charge (entries_within (key.now, path.now) self.now) < 2 ^ 64 }
        ensures present { result.present ≡ sum_by present_blocks (rows_within (key.now, path.now) self.now) }
        ensures durable { result.durable ≡ sum_by durable_blocks (rows_within (key.now, path.now) self.now) }
        ensures charge { result.charge ≡ sum_by row_charge (entries_within (key.now, path.now) self.now) }
    {
        match self.unit(key) {
            Some(unit) => unit.sums_below(unit_bytes(key), path),
            None => Sums {
                present: 0,
                durable: 0,
                charge: 0,
            },
        }
    }

    /// The least child of a directory whose name is not among those given, in whatever order they are; None where
    /// there is no further child.
    pub fn least_not_in(
        &self,
        alloc: Global,
        key: &Key,
        path: &Path,
        past: &[Name],
    ) -> Result<Option<(Name, Kind)>, AllocError>
        ensures { IfOk result (λ child. child ≡ least_not_in past.now (children_of (key.now, path.now) self.now)) }
    {
        let Some((name, kind)) = self.least_child(alloc, key, path, past)? else {
            return Ok(None);
        };
        let name = name.copy(alloc)?;
        Ok(Some((name, kind)))
    }

    // The same child, not copied.
    fn least_child(
        &self,
        alloc: Global,
        key: &Key,
        path: &Path,
        past: &[Name],
    ) -> Result<Option<(&Name, Kind)>, AllocError>
        ensures { IfOk result (λ child. option_map (λ c. (c.0.now, c.1)) child ≡ least_not_in past.now (children_of (key.now, path.now) self.now)) }
    {
        let Some(unit) = self.unit(key) else {
            return Ok(None);
        };
        let child = unit.least_child(alloc, path, past)?;
        Ok(child)
    }

    /// The least child of a directory whose name is above another; None where there is none.
    pub fn least_above(
        &self,
        alloc: Global,
        key: &Key,
        path: &Path,
        name: &Name,
    ) -> Result<Option<(Name, Kind)>, AllocError>
        ensures { IfOk result (λ child. child ≡ least_above name.now (children_of (key.now, path.now) self.now)) }
    {
        let last = path.child(alloc, name)?;
        let Some((name, kind)) = self.child_above(key, path, &last, name) else {
            return Ok(None);
        };
        let name = name.copy(alloc)?;
        Ok(Some((name, kind)))
    }

    // The same child, not copied. The last path is that of the other name.
    fn child_above(&self, key: &Key, path: &Path, last: &Path, name: &Name) -> Option<(&Name, Kind)>
        requires { last.now ≡ path.now ++ name.now ∷ [] }
        ensures { option_map (λ c. (c.0.now, c.1)) result ≡ least_above name.now (children_of (key.now, path.now) self.now) }
    {
        self.unit(key)?.child_above(path, last, name)
    }

    /// Adds a row, or leaves all as it was.
    pub fn add(&mut self, alloc: Global, key: &Key, path: &Path, row: Row) -> Result<(), AllocError>
        requires free { row_at (key.now, path.now) self.old ≡ None }
        requires parent { HasParent (key.now, path.now) self.old }
        ensures ok { OnOk result (self.new ≡ put place_cmp (key.now, path.now) row self.old) }
        ensures err { OnErr result (self.new ≡ self.old) }
    {
        let path = path.copy(alloc)?;
        self.insert(alloc, key, path, row)?;
        Ok(())
    }

    // The same, with a path of its own.
    fn insert(&mut self, alloc: Global, key: &Key, path: Path, row: Row) -> Result<(), AllocError>
        requires free { row_at (key.now, path) self.old ≡ None }
        requires parent { HasParent (key.now, path) self.old }
        ensures ok { OnOk result (self.new ≡ put place_cmp (key.now, path) row self.old) }
        ensures err { OnErr result (self.new ≡ self.old) }
    {
        if let Some(unit) = self.units.get_mut(key) {
            unit.add(alloc, path, row)?;
            return Ok(());
        }
        add_unit(alloc, &mut self.units, key, path, row)?;
        Ok(())
    }

    /// Takes out the row at a place and all below it, and appends their extents to those freed. Takes no memory.
    pub fn remove(&mut self, key: &Key, path: &Path, freed: &mut Vec<Extent>)
        requires { length (freed.old.items ++ extents_within (key.now, path.now) self.old) ≤ vec_capacity freed.old }
        ensures rows { self.new ≡ without (key.now, path.now) self.old }
        ensures freed { freed.new.items ≡ freed.old.items ++ extents_within (key.now, path.now) self.old }
        ensures capacity { vec_capacity freed.old ≤ vec_capacity freed.new }
    {
        if let Some(unit) = self.units.get_mut(key) {
            unit.remove(path, freed);
            drop_empty(&mut self.units, key);
        }
    }

    /// Gives the file at a place another length, time stamp and blocks, and gives back those that it had. Takes no
    /// memory.
    pub fn set_file(
        &mut self,
        key: &Key,
        path: &Path,
        length: u64,
        stamp: u64,
        extents: Extents,
    ) -> Extents
        requires { IsSome (file_at (key.now, path.now) self.old) }
        ensures rows { self.new ≡ change_at (key.now, path.now) (stored length stamp extents) self.old }
        ensures old { IfSome (file_at (key.now, path.now) self.old) (λ f. result ≡ f.extents) }
    {
        match self.store(key, path, length, stamp, extents) {
            Some(old) => old,
            None => unreachable!(),
        }
    }

    // The same; None where no file is there.
    fn store(
        &mut self,
        key: &Key,
        path: &Path,
        length: u64,
        stamp: u64,
        extents: Extents,
    ) -> Option<Extents>
        ensures rows { self.new ≡ change_at (key.now, path.now) (stored length stamp extents) self.old }
        ensures old { result ≡ option_map (λ f. f.extents) (file_at (key.now, path.now) self.old) }
    {
        self.units.get_mut(key)?.store(path, length, stamp, extents)
    }

    /// Says what a read of the file at a place gives now. Where no file is there, nothing changes. Takes no memory.
    pub fn set_present(&mut self, key: &Key, path: &Path, length: u64, stamp: u64)
        ensures { self.new ≡ change_at (key.now, path.now) (written length stamp) self.old }
    {
        let Some(unit) = self.units.get_mut(key) else {
            return;
        };
        unit.set_present(path, length, stamp);
    }

    /// Takes the lock of the file at a place (File System: take a lock); None, and nothing changes, where that fails.
    /// Takes no memory.
    pub fn take_lock(&mut self, key: &Key, path: &Path, want: Want) -> Option<Held>
        requires there { IsSome (file_at (key.now, path.now) self.old) }
        requires room { IfSome (file_at (key.now, path.now) self.old) (λ f. f.lock.1 < 4294967295) }
        ensures rows { self.new ≡ change_at (key.now, path.now) (locked want) self.old }
        ensures given { IfSome (file_at (key.now, path.now) self.old) (λ f. result ≡ option_map (λ _. want) (taken want f.lock)) }
        ensures refused { IfNone result (self.new ≡ self.old) }
    {
        self.take(key, path, want)
    }

    // The same, but for the file being there.
    fn take(&mut self, key: &Key, path: &Path, want: Want) -> Option<Held>
        requires room { IfSome (file_at (key.now, path.now) self.old) (λ f. f.lock.1 < 4294967295) }
        ensures rows { self.new ≡ change_at (key.now, path.now) (locked want) self.old }
        ensures given { IfSome (file_at (key.now, path.now) self.old) (λ f. result ≡ option_map (λ _. want) (taken want f.lock)) }
    {
        self.units.get_mut(key)?.take(path, want)
    }

    /// Gives back the lock of the file at a place (File System: release the lock). Takes no memory.
    pub fn release_lock(&mut self, key: &Key, path: &Path, held: Held)
        requires there { IsSome (file_at (key.now, path.now) self.old) }
        requires taken { IfSome (file_at (key.now, path.now) self.old) (λ f. IsTakenAs held f.lock) }
        ensures { self.new ≡ change_at (key.now, path.now) unlocked self.old }
    {
        match self.units.get_mut(key) {
            None => unreachable!(),
            Some(unit) => unit.release(path, held),
        }
    }

    /// Moves a walk on to the least place above its own where a row is, and gives that row; None where there is none,
    /// and then the walk stays. Takes no memory.
    pub fn step<'a>(&'a self, walk: &mut Walk<'a>) -> Option<&'a Row>
        ensures end { IfNone result ((rows_above walk.old self.now ≡ []) × (walk.new ≡ walk.old)) }
        ensures next { IfSome result (λ row. IsSomeAnd walk.new (λ place. rows_above walk.old self.now ≡ (place, row.now) ∷ rows_above (Some place) self.now)) }
        ensures order { IsInOrder self.now }
    {
        let (key, path, row) = self.next_above(walk)?;
        *walk = Walk::at(key, path);
        Some(row)
    }

    // The first row above a walk's place.
    fn next_above<'a>(&'a self, walk: &Walk<'a>) -> Option<(&'a Key, &'a Path, &'a Row)>
        ensures first { option_map (λ e. ((e.0.now, e.1.now), e.2.now)) result ≡ slice_get (rows_above walk.now self.now) 0 }
        ensures order { IsInOrder self.now }
    {
        match walk.place() {
            None => first_of(&self.units),
            Some((key, path)) => self.above(key, path),
        }
    }

    // The first row above a place.
    fn above<'a>(&'a self, key: &'a Key, path: &Path) -> Option<(&'a Key, &'a Path, &'a Row)>
        ensures { option_map (λ e. ((e.0.now, e.1.now), e.2.now)) result ≡ slice_get (rows_above (Some (key.now, path.now)) self.now) 0 }
    {
        match self.above_in_unit(key, path) {
            Some((path, row)) => Some((key, path, row)),
            None => first_behind(&self.units, key),
        }
    }

    // The first row above a path in a unit.
    fn above_in_unit(&self, key: &Key, path: &Path) -> Option<(&Path, &Row)>
        ensures { option_map (λ e. (e.0.now, e.1.now)) result ≡ slice_get (above path.now (unit_rows key.now self.now)) 0 }
    {
        self.unit(key)?.above(path)
    }
}

// The first row of all.
fn first_of(units: &BTreeMap<Key, CountedUnit>) -> Option<(&Key, &Path, &Row)>
    ensures { option_map (λ e. ((e.0.now, e.1.now), e.2.now)) result ≡ slice_get (all_rows units.now.entries) 0 }
{
    for (key, unit) in units {
        if let Some((path, row)) = unit.first() {
            return Some((key, path, row));
        }
    }
    None
}

// The first row of the units behind one.
fn first_behind<'a>(
    units: &'a BTreeMap<Key, CountedUnit>,
    key: &Key,
) -> Option<(&'a Key, &'a Path, &'a Row)>
    ensures { option_map (λ e. ((e.0.now, e.1.now), e.2.now)) result ≡ slice_get (all_rows (behind key.now units.now.entries)) 0 }
{
    for (next, unit) in units.range((Bound::Excluded(key), Bound::Unbounded)) {
        if let Some((path, row)) = unit.first() {
            return Some((next, path, row));
        }
    }
    None
}

// Adds a unit with one row, or leaves all as it was.
fn add_unit(
    alloc: Global,
    units: &mut BTreeMap<Key, CountedUnit>,
    key: &Key,
    path: Path,
    row: Row,
) -> Result<(), AllocError>
    ensures ok { OnOk result (units.new.entries ≡ insert_entry text_cmp units.old.entries key.now (put path_cmp path row [])) }
    ensures err { OnErr result (units.new.entries ≡ units.old.entries) }
    ensures ordered { OnOk result (IsStrictlySortedBy text_cmp (keys_of units.new.entries)) }
{
    let mut unit = CountedUnit::make(alloc);
    unit.add(alloc, path, row)?;
    let key = key.copy(alloc)?;
    units.insert(key, unit)?;
    Ok(())
}

// Drops a unit that has no rows.
fn drop_empty(units: &mut BTreeMap<Key, CountedUnit>, key: &Key)
    ensures rows { all_rows units.new.entries ≡ all_rows units.old.entries }
    ensures ordered { IsStrictlySortedBy text_cmp (keys_of units.old.entries) → IsStrictlySortedBy text_cmp (keys_of units.new.entries) }
{
    if has_no_rows(units, key) {
        units.remove(key);
    }
}

// Whether a unit is there that has no rows.
fn has_no_rows(units: &BTreeMap<Key, CountedUnit>, key: &Key) -> bool
    ensures { IsTrue result → Some [] ≡ lookup (is_at (text_cmp key.now)) units.now.entries }
{
    match units.get(key) {
        Some(unit) => unit.is_empty(),
        None => false,
    }
}
