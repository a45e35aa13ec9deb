//! The rows of one unit, and how many of its files have a taken lock.

ghost use Rattle.std.specs.Prelude.{◌≡◌, ◌+◌, ◌<◌, ◌^◌, ◌≤◌, ◌++◌, None, [], length, option_map, IsSome, IfSome, OnOk, OnErr, is_none, vec_capacity, ◌==◌};
ghost use Rattle.std.specs.List.{flat_map, slice_get, list_all};
ghost use Rattle.std.specs.FinMap.Entries.{find, put};
ghost use Rattle.opfs_locks.specs.Taking.{taken};
ghost use Rattle.opfs_locks.specs.Holding.{IsTakenAs};
ghost use Rattle.opfs_tree.specs.Rows.{file_of, extents_of, stored, written, locked, unlocked, taken_lock};
ghost use Rattle.opfs_tree.specs.Units.{path_cmp, below, beside, values, change_in, taken_in};

use crate::row::Row;
use crate::unit::{Recount, Taking, Unit};
use opfs_base::{Extent, Extents, Path};
use opfs_locks::{Held, Want};
use std::alloc::{AllocError, Global};
use std::marker::Model;

/// The rows of one unit, with the number of its files whose lock is taken, seen as the rows.
#[derive(Drop)]
pub(crate) struct CountedUnit {
    unit: Unit,
    taken: u64,
}

impl Model for CountedUnit {
    ghost use Rattle.std.specs.Prelude.{List, ℕ, ◌≡◌};
    ghost use Rattle.opfs_tree.specs.declared.row.Row.{Row};
    ghost use Rattle.opfs_tree.specs.Units.{taken_in};

    ghost Value = { List (List (List ℕ) × Row) };

    ghost view = { λ counted. counted.unit };

    ghost invariant = { λ counted. counted.taken ≡ taken_in counted.unit };
}

impl CountedUnit {
    /// No rows. Takes no memory.
    pub(crate) fn make(alloc: Global) -> CountedUnit
        ensures { result ≡ [] }
    {
        CountedUnit {
            unit: Unit::make(alloc),
            taken: 0,
        }
    }

    /// The rows.
    pub(crate) fn rows(&self) -> &Unit
        ensures { result.now ≡ self.now }
    {
        &self.unit
    }

    /// The first row.
    pub(crate) fn first(&self) -> Option<(&Path, &Row)>
        ensures { option_map (λ e. (e.0.now, e.1.now)) result ≡ slice_get self.now 0 }
    {
        self.unit.first()
    }

    /// Whether there are no rows.
    pub(crate) fn is_empty(&self) -> bool
        ensures { result ≡ (length self.now == 0) }
    {
        self.unit.is_empty()
    }

    /// Whether no file has a taken lock.
    pub(crate) fn none_taken(&self) -> bool
        ensures { result ≡ list_all (λ e. is_none (taken_lock e.1)) self.now }
    {
        self.taken == 0
    }

    /// Adds a row, or leaves all as it was.
    pub(crate) fn add(&mut self, alloc: Global, path: Path, row: Row) -> Result<(), AllocError>
        requires { find path_cmp path self.old ≡ None }
        ensures ok { OnOk result (self.new ≡ put path_cmp path row self.old) }
        ensures err { OnErr result (self.new ≡ self.old) }
    {
        let more = row.holds();
        self.unit.add(alloc, path, row)?;
        let _size = self.unit.len();
        self.taken += more;
        Ok(())
    }

    /// Takes out the row at a path and all below it, and appends their extents to those freed. Takes no memory.
    pub(crate) fn remove(&mut self, top: &Path, freed: &mut Vec<Extent>)
        requires { length (freed.old.items ++ flat_map extents_of (values (below top.now self.old))) ≤ vec_capacity freed.old }
        ensures rows { self.new ≡ beside top.now self.old }
        ensures freed { freed.new.items ≡ freed.old.items ++ flat_map extents_of (values (below top.now self.old)) }
        ensures capacity { vec_capacity freed.old ≤ vec_capacity freed.new }
    {
        let gone = self.unit.taken_below(top);
        self.unit.remove(top, freed);
        self.taken -= gone;
    }

    /// Says what a read of the file at a path gives now.
    pub(crate) fn set_present(&mut self, path: &Path, length: u64, stamp: u64)
        ensures { self.new ≡ change_in path.now (written length stamp) self.old }
    {
        self.unit.set_present(path, length, stamp);
    }

    /// Gives the file at a path another content, and gives back its blocks.
    pub(crate) fn store(
        &mut self,
        path: &Path,
        length: u64,
        stamp: u64,
        extents: Extents,
    ) -> Option<Extents>
        ensures rows { self.new ≡ change_in path.now (stored length stamp extents) self.old }
        ensures old { result ≡ option_map (λ f. f.extents) (file_of (find path_cmp path.now self.old)) }
    {
        self.unit.store(path, length, stamp, extents)
    }

    /// Takes a file's lock, or leaves it as it is where that fails.
    pub(crate) fn take(&mut self, path: &Path, want: Want) -> Option<Held>
        requires { IfSome (file_of (find path_cmp path.now self.old)) (λ f. f.lock.1 < 4294967295) }
        ensures rows { self.new ≡ change_in path.now (locked want) self.old }
        ensures given { IfSome (file_of (find path_cmp path.now self.old)) (λ f. result ≡ option_map (λ _. want) (taken want f.lock)) }
    {
        let Taking { held, count } = self.unit.take(path, want);
        self.taken = recounted(&self.unit, self.taken, count);
        held
    }

    /// Gives a file's lock back.
    pub(crate) fn release(&mut self, path: &Path, held: Held)
        requires there { IsSome (file_of (find path_cmp path.now self.old)) }
        requires taken { IfSome (file_of (find path_cmp path.now self.old)) (λ f. IsTakenAs held f.lock) }
        ensures rows { self.new ≡ change_in path.now unlocked self.old }
    {
        let count = self.unit.release(path, held);
        self.taken = recounted(&self.unit, self.taken, count);
    }
}

// The number of files with a taken lock, after the file at a path was changed. So many there were before.
fn recounted(unit: &Unit, taken: u64, count: Recount) -> u64
    requires counted { taken + count.after ≡ taken_in unit.now + count.before }
    requires among { count.before ≤ taken }
    ensures { result ≡ taken_in unit.now }
{
    let _size = unit.len();
    taken - count.before + count.after
}
