//! The rows of one unit.

ghost use Rattle.std.specs.Prelude.{◌≡◌, ◌<◌, ◌^◌, ◌≤◌, ◌++◌, ◌==◌, Some, None, [], ◌∷◌, length, sum_by, is_some, option_map, IsSome, IfSome, OnOk, OnErr, IfNone, IfOk, vec_capacity};
ghost use Rattle.std.specs.List.{flat_map, slice_get};
ghost use Rattle.std.specs.Option.{option_copied, option_to_list};
ghost use Rattle.std.specs.FinMap.Entries.{find, put};
ghost use Rattle.std.specs.List.Sorted.{IsStrictlySortedBy};
ghost use Rattle.std.specs.Map.{keys_of};
ghost use Rattle.opfs_locks.specs.Taking.{taken};
ghost use Rattle.opfs_locks.specs.Holding.{IsTakenAs};
ghost use Rattle.opfs_tree.specs.Rows.{kind_of, file_of, extents_of, first_taken, least_above, least_not_in, stored, written, locked, unlocked, present_blocks, durable_blocks};
ghost use Rattle.opfs_tree.specs.Sums.{charge_in};
ghost use Rattle.opfs_tree.specs.Units.{path_cmp, below, beside, from, front, values, children_in, has_children_in, above, change_in, first_key, taken_in, holds_at, find_outside};

use crate::given::{is_given, names_of};
use crate::paths::{is_within, name_below};
use crate::row::Row;
use crate::sums::{Sums, row_charge};
use opfs_base::{Extent, Extents, Kind, Name, Path};
use opfs_locks::{Held, LockValue, Want};
use std::alloc::{AllocError, Global};
use std::collections::btree_map::Range;
use std::collections::{BTreeMap, BTreeSet};
use std::marker::Model;
use std::ops::Bound;

/// The rows of one unit by their paths, seen as the list of them in order. The paths stand once more in a set of their
/// own: a row is taken out by the path that stands there, so that removal copies none.
#[derive(Drop)]
pub(crate) struct Unit {
    rows: BTreeMap<Path, Row>,
    paths: BTreeSet<Path>,
}

/// How many of the files at a path, one or none, had a taken lock before a change there, and how many have one after it.
#[derive(Clone, Copy)]
pub(crate) struct Recount {
    pub before: u64,
    pub after: u64,
}

/// The lock that was asked for, unless that failed, and how many files at its path had a taken lock and have one.
pub(crate) struct Taking {
    pub held: Option<Held>,
    pub count: Recount,
}

impl Model for Unit {
    ghost use Rattle.std.specs.Prelude.{List, ℕ};
    ghost use Rattle.opfs_tree.specs.declared.row.Row.{Row};

    ghost Value = { List (List (List ℕ) × Row) };

    ghost view = { λ unit. unit.rows.entries };

    ghost use Rattle.opfs_tree.specs.Sums.{charge_in};
    ghost use Rattle.opfs_tree.specs.Units.{AreKeys};

    ghost invariant = { λ unit. AreKeys unit.paths.keys unit.rows.entries };
}

impl Unit {
    /// No rows. Takes no memory.
    pub(crate) fn make(alloc: Global) -> Unit
        ensures { result ≡ [] }
    {
        Unit {
            rows: BTreeMap::new(alloc),
            paths: BTreeSet::new(alloc),
        }
    }

    /// Whether there are no rows.
    pub(crate) fn is_empty(&self) -> bool
        ensures { result ≡ (length self.now == 0) }
    {
        self.rows.len() == 0
    }

    /// How many rows there are.
    pub(crate) fn len(&self) -> usize
        ensures count { result ≡ length self.now }
        ensures taken { taken_in self.now ≤ result }
    {
        self.rows.len()
    }

    /// The row at a path.
    pub(crate) fn row(&self, path: &Path) -> Option<&Row>
        ensures { option_copied result ≡ find path_cmp path.now self.now }
    {
        self.rows.get(path)
    }

    /// Adds a row, or leaves all as it was.
    pub(crate) fn add(&mut self, alloc: Global, path: Path, row: Row) -> Result<(), AllocError>
        requires { find path_cmp path self.old ≡ None }
        ensures ok { OnOk result (self.new ≡ put path_cmp path row self.old) }
        ensures err { OnErr result (self.new ≡ self.old) }
    {
        self.paths.insert(path.copy(alloc)?)?;
        match self.rows.insert(path, row) {
            Ok(_) => Ok(()),
            Err(refused) => {
                let (path, _) = refused.value;
                self.paths.remove(&path);
                Err(AllocError)
            }
        }
    }

    // The rows at a path and above it.
    fn from(&self, path: &Path) -> Range<'_, Path, Row>
        ensures rows { result ≡ from path.now self.now }
        ensures order { IsStrictlySortedBy path_cmp (keys_of self.now) }
        ensures within { front path.now result ≡ below path.now self.now }
    {
        self.rows.range((Bound::Included(path), Bound::Unbounded))
    }

    /// Whether a path has children.
    pub(crate) fn has_children(&self, dir: &Path) -> bool
        ensures { result ≡ has_children_in dir.now (below dir.now self.now) }
    {
        for (path, _) in self.from(dir) {
            if !is_within(dir, path) {
                break;
            }
            if name_below(dir, path).is_some() {
                return true;
            }
        }
        false
    }

    /// The first lock at a path or below it that is not open.
    pub(crate) fn first_locked(&self, top: &Path) -> Option<(LockValue, u32)>
        ensures { result ≡ first_taken (values (below top.now self.now)) }
    {
        for (path, row) in self.from(top) {
            if !is_within(top, path) {
                break;
            }
            if let Some(lock) = row.taken_lock() {
                return Some(lock);
            }
        }
        None
    }

    /// How many of the files at a path and below it have a taken lock.
    pub(crate) fn taken_below(&self, top: &Path) -> u64
        requires { taken_in (below top.now self.now) < 2 ^ 64 }
        ensures { result ≡ taken_in (below top.now self.now) }
    {
        let mut count = 0;
        for (path, row) in self.from(top) {
            if !is_within(top, path) {
                break;
            }
            count += row.holds();
        }
        count
    }

    /// How many extents the row at a path and all below it have.
    pub(crate) fn extents_below(&self, top: &Path) -> u64
        requires { length (flat_map extents_of (values (below top.now self.now))) < 2 ^ 64 }
        ensures { result ≡ length (flat_map extents_of (values (below top.now self.now))) }
    {
        let mut count = 0;
        for (path, row) in self.from(top) {
            if !is_within(top, path) {
                break;
            }
            count += row.extents().len() as u64;
        }
        count
    }

    /// What the row at a path and all below it have, in a unit that takes so many bytes.
    pub(crate) fn sums_below(&self, unit: u64, top: &Path) -> Sums
        requires present { sum_by present_blocks (values (below top.now self.now)) < 2 ^ 64 }
        requires durable { sum_by durable_blocks (values (below top.now self.now)) < 2 ^ 64 }
        requires charge { sum_by (λ e. charge_in unit e.0 e.1) (below top.now self.now) < 2 ^ 64 }
        ensures present { result.present ≡ sum_by present_blocks (values (below top.now self.now)) }
        ensures durable { result.durable ≡ sum_by durable_blocks (values (below top.now self.now)) }
        ensures charge { result.charge ≡ sum_by (λ e. charge_in unit e.0 e.1) (below top.now self.now) }
    {
        let mut present = 0;
        let mut durable = 0;
        let mut charge = 0;
        for (path, row) in self.from(top) {
            if !is_within(top, path) {
                break;
            }
            present += row.present_blocks();
            durable += row.durable_blocks();
            charge += row_charge(unit, path, row);
        }
        Sums {
            present,
            durable,
            charge,
        }
    }

    /// The first child of a path whose name is not among those given, in whatever order they are. It makes a set of
    /// those given where the first child is one of them.
    pub(crate) fn least_child(
        &self,
        alloc: Global,
        dir: &Path,
        past: &[Name],
    ) -> Result<Option<(&Name, Kind)>, AllocError>
        ensures { IfOk result (λ child. option_map (λ c. (c.0.now, c.1)) child ≡ least_not_in past.now (children_in dir.now (below dir.now self.now))) }
    {
        if let Some(child) = self.first_child(dir, past) {
            return Ok(Some(child));
        }
        let given = names_of(alloc, past)?;
        let child = self.child_outside(dir, &given);
        Ok(child)
    }

    // The first child of a path, where its name is not among those given.
    fn first_child(&self, dir: &Path, past: &[Name]) -> Option<(&Name, Kind)>
        ensures { IfSome result (λ c. Some (c.0.now, c.1) ≡ least_not_in past.now (children_in dir.now (below dir.now self.now))) }
    {
        for (path, row) in self.from(dir) {
            if !is_within(dir, path) {
                break;
            }
            if let Some(name) = name_below(dir, path) {
                if is_given(past, name) {
                    break;
                }
                return Some((name, row.kind()));
            }
        }
        None
    }

    // The first child of a path whose name a set has not.
    fn child_outside(&self, dir: &Path, given: &BTreeSet<Name>) -> Option<(&Name, Kind)>
        ensures { option_map (λ c. (c.0.now, c.1)) result ≡ find_outside given.now (children_in dir.now (below dir.now self.now)) }
    {
        for (path, row) in self.from(dir) {
            if !is_within(dir, path) {
                break;
            }
            if let Some(name) = name_below(dir, path) {
                if !given.contains(name) {
                    return Some((name, row.kind()));
                }
            }
        }
        None
    }

    /// The first child of a path whose name is above another. It passes what is at and below that other, whose path is
    /// the last one.
    pub(crate) fn child_above(&self, dir: &Path, last: &Path, name: &Name) -> Option<(&Name, Kind)>
        requires { last.now ≡ dir.now ++ name.now ∷ [] }
        ensures { option_map (λ c. (c.0.now, c.1)) result ≡ least_above name.now (children_in dir.now (below dir.now self.now)) }
    {
        for (path, row) in self.from(last) {
            if !is_within(dir, path) {
                break;
            }
            if let Some(other) = name_below(dir, path) {
                if name < other {
                    return Some((other, row.kind()));
                }
            }
        }
        None
    }

    // Takes out the first row at a path or below it.
    fn pop_within(&mut self, top: &Path) -> Option<Row>
        ensures rest { beside top.now self.new ≡ beside top.now self.old }
        ensures row { values (below top.now self.old) ≡ option_to_list result ++ values (below top.now self.new) }
        ensures none { IfNone result (below top.now self.old ≡ []) }
    {
        let at = first_within(&self.paths, top)?;
        let (path, row) = self.rows.remove_entry(at)?;
        self.paths.remove(&path);
        Some(row)
    }

    /// Takes out the row at a path and all below it, and appends their extents to those freed. Takes no memory.
    pub(crate) fn remove(&mut self, top: &Path, freed: &mut Vec<Extent>)
        requires { length (freed.old.items ++ flat_map extents_of (values (below top.now self.old))) ≤ vec_capacity freed.old }
        ensures rows { self.new ≡ beside top.now self.old }
        ensures freed { freed.new.items ≡ freed.old.items ++ flat_map extents_of (values (below top.now self.old)) }
        ensures capacity { vec_capacity freed.old ≤ vec_capacity freed.new }
    {
        while let Some(row) = self.pop_within(top) {
            give_back(row, freed);
        }
    }

    /// The first row.
    pub(crate) fn first(&self) -> Option<(&Path, &Row)>
        ensures { option_map (λ e. (e.0.now, e.1.now)) result ≡ slice_get self.now 0 }
    {
        self.rows.first_key_value()
    }

    /// The first row above a path.
    pub(crate) fn above(&self, path: &Path) -> Option<(&Path, &Row)>
        ensures { option_map (λ e. (e.0.now, e.1.now)) result ≡ slice_get (above path.now self.now) 0 }
    {
        let (path, row) = self
            .rows
            .range((Bound::Excluded(path), Bound::Unbounded))
            .next()?;
        Some((path, row))
    }

    /// Says what a read of the file at a path gives now.
    pub(crate) fn set_present(&mut self, path: &Path, length: u64, stamp: u64)
        ensures { self.new ≡ change_in path.now (written length stamp) self.old }
    {
        let Some(row) = self.rows.get_mut(path) else {
            return;
        };
        row.set_present(length, stamp);
    }

    /// Gives the file at a path another content, and gives back its blocks.
    pub(crate) fn store(
        &mut self,
        path: &Path,
        length: u64,
        stamp: u64,
        extents: Extents,
    ) -> Option<Extents>
        ensures rows { self.new ≡ change_in path.now (stored length stamp extents) self.old }
        ensures old { result ≡ option_map (λ f. f.extents) (file_of (find path_cmp path.now self.old)) }
    {
        self.rows.get_mut(path)?.store(length, stamp, extents)
    }

    /// Takes a file's lock, or leaves it as it is where that fails.
    pub(crate) fn take(&mut self, path: &Path, want: Want) -> Taking
        requires { IfSome (file_of (find path_cmp path.now self.old)) (λ f. f.lock.1 < 4294967295) }
        ensures rows { self.new ≡ change_in path.now (locked want) self.old }
        ensures given { IfSome (file_of (find path_cmp path.now self.old)) (λ f. result.held ≡ option_map (λ _. want) (taken want f.lock)) }
        ensures before { result.count.before ≡ holds_at path.now self.old }
        ensures after { result.count.after ≡ holds_at path.now self.new }
    {
        let Some(row) = self.rows.get_mut(path) else {
            return Taking {
                held: None,
                count: Recount {
                    before: 0,
                    after: 0,
                },
            };
        };
        let before = row.holds();
        let held = row.take(want);
        let after = row.holds();
        Taking {
            held,
            count: Recount { before, after },
        }
    }

    /// Gives a file's lock back.
    pub(crate) fn release(&mut self, path: &Path, held: Held) -> Recount
        requires there { IsSome (file_of (find path_cmp path.now self.old)) }
        requires taken { IfSome (file_of (find path_cmp path.now self.old)) (λ f. IsTakenAs held f.lock) }
        ensures rows { self.new ≡ change_in path.now unlocked self.old }
        ensures before { result.before ≡ holds_at path.now self.old }
        ensures after { result.after ≡ holds_at path.now self.new }
    {
        let Some(row) = self.rows.get_mut(path) else {
            unreachable!();
        };
        let before = row.holds();
        row.release(held);
        let after = row.holds();
        Recount { before, after }
    }
}

// The first path that is another or below it.
fn first_within<'a>(paths: &'a BTreeSet<Path>, top: &Path) -> Option<&'a Path>
    ensures first { option_copied result ≡ first_key top.now paths.now.keys }
    ensures ordered { IsStrictlySortedBy path_cmp paths.now.keys }
{
    let first = paths
        .range((Bound::Included(top), Bound::Unbounded))
        .next()?;
    if is_within(top, first) {
        Some(first)
    } else {
        None
    }
}

// Appends a row's extents to those freed, where there is room.
fn give_back(row: Row, freed: &mut Vec<Extent>)
    requires { length (freed.old.items ++ extents_of row) ≤ vec_capacity freed.old }
    ensures freed { freed.new.items ≡ freed.old.items ++ extents_of row }
    ensures capacity { vec_capacity freed.old ≤ vec_capacity freed.new }
{
    append(row.extents(), freed);
}

// Appends extents to those freed, where there is room.
fn append(extents: &[Extent], freed: &mut Vec<Extent>)
    requires { length (freed.old.items ++ extents.now) ≤ vec_capacity freed.old }
    ensures freed { freed.new.items ≡ freed.old.items ++ extents.now }
    ensures capacity { vec_capacity freed.old ≤ vec_capacity freed.new }
{
    if freed.extend_from_slice(extents).is_err() {
        unreachable!();
    }
}
