//! Rows that come and go.

ghost use Rattle.std.specs.Prelude.{None, [], OnErr, ◌++◌, length, vec_capacity, ◌≡◌, ◌+◌, ◌^◌, ◌≤◌, Some, ◌<◌, IsSome, true, false, OnOk, cond};
ghost use Rattle.std.specs.FinMap.Entries.{put};
ghost use Rattle.std.specs.Ordering.{nat_cmp};
ghost use Rattle.std.specs.Cmp.Lexicographic.{slice_cmp};
ghost use Rattle.opfs_base.specs.Measures.{mode_charge};
ghost use Rattle.opfs_base.specs.Places.{place_cmp};
ghost use Rattle.opfs_base.specs.Texts.{Text};
ghost use Rattle.opfs_base.specs.declared.locator.Kind.{Kind};
ghost use Rattle.opfs_machine.specs.Contents.{in_lengths};
ghost use Rattle.opfs_machine.specs.Effects.{new_row};
ghost use Rattle.opfs_machine.specs.Ordered.{insert_by};
ghost use Rattle.opfs_machine.specs.Rows.{with_row, without};
ghost use Rattle.opfs_machine.specs.Sums.{is_persistent};
ghost use Rattle.opfs_machine.specs.Sums.{charge as charge_of};
ghost use Rattle.opfs_machine.specs.Steps.{evicted};
ghost use Rattle.opfs_tree.specs.Ready.Ready.{new_row as new_tree_row};
ghost use Rattle.opfs_state_rows.specs.Standing.Coming.{IsReadyFor};
ghost use Rattle.opfs_state_rows.specs.Standing.Seen.{is_known};
ghost use Rattle.opfs_tree.specs.Rows.{HasParent};
ghost use Rattle.opfs_tree.specs.Ready.Ready.{ready_within};
ghost use Rattle.opfs_tree.specs.Rows.{row_at, extents_within};
ghost use Rattle.opfs_tree.specs.Rows.{without as without_rows};

use crate::standing::standing::{Standing, mark};
use opfs_base::{Extent, Key, Kind, Path};
use std::alloc::{AllocError, Global};

impl Standing {
    /// Gives a unit a bucket and a share, or leaves all as it was.
    pub fn prepare_unit(&mut self, unit: &Key) -> Result<(), AllocError>
        ensures rest { self.new ≡ record self.old { prepared = record self.old.prepared { units = self.new.prepared.units } } }
        ensures known { OnOk result (is_known unit.now self.new.prepared ≡ true) }
        ensures kept { (other : Text) → is_known other self.old.prepared ≡ true → is_known other self.new.prepared ≡ true }
        ensures err { OnErr result (self.new ≡ self.old) }
    {
        self.shed.touch(unit)?;
        self.pool.touch(unit)?;
        Ok(())
    }

    /// Makes a free place ready for a row of a kind. No other place stands ready then, even where there is no memory.
    pub fn prepare_row(&mut self, unit: &Key, path: &Path, kind: Kind) -> Result<(), AllocError>
        requires free { row_at (unit.now, path.now) self.old.tree ≡ None }
        requires parent { HasParent (unit.now, path.now) self.old.tree }
        ensures ok { OnOk result (self.new ≡ record self.old { prepared = record self.old.prepared { place = Some ((unit.now, path.now), kind) } }) }
        ensures err { OnErr result (self.new ≡ record self.old { prepared = record self.old.prepared { place = None } }) }
    {
        self.tree.prepare(unit, path, kind)?;
        Ok(())
    }

    /// No place stands ready any more. Takes no memory.
    pub fn cancel(&mut self)
        ensures { self.new ≡ record self.old { prepared = record self.old.prepared { place = None } } }
    {
        self.tree.cancel();
    }

    /// The row comes for which the place stands ready, with a time stamp if it is a file. It adds so much to the charge.
    /// Takes no memory.
    pub fn fill(&mut self, unit: &Key, path: &Path, stamp: u64, charge: u64)
        requires ready { IsReadyFor self.old.prepared (unit.now, path.now) charge }
        requires known { is_known unit.now self.old.prepared ≡ true }
        requires area { charge_of in_lengths self.old.machine + charge < 2 ^ 64 }
        ensures machine { (kind : Kind) → self.old.prepared.place ≡ Some ((unit.now, path.now), kind) → self.new.machine ≡ with_row self.old.machine (unit.now, path.now) (new_row in_lengths kind stamp) }
        ensures tree { (kind : Kind) → self.old.prepared.place ≡ Some ((unit.now, path.now), kind) → self.new.tree ≡ put place_cmp (unit.now, path.now) (new_tree_row kind stamp) self.old.tree }
        ensures prepared { self.new.prepared ≡ record self.old.prepared { place = None } }
    {
        self.tree.fill(stamp);
        self.fixed += charge;
        mark(&mut self.pool, &self.tree, &self.shed, &self.root, unit);
    }

    /// Makes a unit's mode persistent, which adds so much to the charge. Takes no memory.
    pub fn persist(&mut self, unit: &Key, more: u64)
        requires known { is_known unit.now self.old.prepared ≡ true }
        requires charge { more ≡ cond (is_persistent self.old.machine unit.now) 0 (mode_charge unit.now) }
        requires area { charge_of in_lengths self.old.machine + more < 2 ^ 64 }
        ensures machine { self.new.machine ≡ record self.old.machine { persistent = insert_by (slice_cmp nat_cmp) unit.now self.old.machine.persistent } }
        ensures tree { self.new.tree ≡ self.old.tree }
        ensures prepared { self.new.prepared ≡ self.old.prepared }
    {
        self.shed.set_persistent(unit);
        self.fixed += more;
        mark(&mut self.pool, &self.tree, &self.shed, &self.root, unit);
    }

    /// Takes out the row at a place and all below it, of which no place stands ready, and appends their extents to those
    /// freed. Takes no memory.
    pub fn remove(&mut self, unit: &Key, path: &Path, freed: &mut Vec<Extent>)
        requires there { IsSome (row_at (unit.now, path.now) self.old.tree) }
        requires ready { ready_within (unit.now, path.now) self.old.prepared.place ≡ false }
        requires room { length (freed.old.items ++ extents_within (unit.now, path.now) self.old.tree) ≤ vec_capacity freed.old }
        ensures machine { self.new.machine ≡ without self.old.machine (unit.now, path.now) }
        ensures tree { self.new.tree ≡ without_rows (unit.now, path.now) self.old.tree }
        ensures prepared { self.new.prepared ≡ self.old.prepared }
        ensures freed { freed.new.items ≡ freed.old.items ++ extents_within (unit.now, path.now) self.old.tree }
        ensures capacity { vec_capacity freed.old ≤ vec_capacity freed.new }
    {
        // What is used and kept are counts of 64 bits, and what goes is a part of them.
        let _used = self.shed.usage(unit);
        let _kept = self.pool.count();
        let gone = self.tree.sums_below(unit, path);
        self.tree.remove(unit, path, freed);
        self.shed.free(unit, gone.present);
        self.pool.lower(unit, gone.durable);
        self.fixed -= gone.charge;
        mark(&mut self.pool, &self.tree, &self.shed, &self.root, unit);
    }

    /// Clears a unit that has a root and of which no place stands ready: takes out all its rows, appends their extents to
    /// those freed, and counts an entry that is no use (Storage: clear a bucket under storage pressure). Takes no memory.
    pub fn clear(&mut self, alloc: Global, unit: &Key, freed: &mut Vec<Extent>)
        requires root { IsSome (row_at (unit.now, []) self.old.tree) }
        requires ready { ready_within (unit.now, []) self.old.prepared.place ≡ false }
        requires entries { self.old.machine.entries + 1 < 2 ^ 64 }
        requires room { length (freed.old.items ++ extents_within (unit.now, []) self.old.tree) ≤ vec_capacity freed.old }
        ensures machine { self.new.machine ≡ evicted self.old.machine unit.now }
        ensures tree { self.new.tree ≡ without_rows (unit.now, []) self.old.tree }
        ensures prepared { self.new.prepared ≡ self.old.prepared }
        ensures freed { freed.new.items ≡ freed.old.items ++ extents_within (unit.now, []) self.old.tree }
        ensures capacity { vec_capacity freed.old ≤ vec_capacity freed.new }
    {
        let root = Path::root(alloc);
        self.remove(unit, &root, freed);
        self.count_eviction();
    }

    // Counts the entry of an eviction, which is no use.
    fn count_eviction(&mut self)
        requires { self.old.machine.entries + 1 < 2 ^ 64 }
        ensures { self.new ≡ record self.old { machine = record self.old.machine { entries = self.old.machine.entries + 1 } } }
    {
        self.register.count_eviction();
    }
}
