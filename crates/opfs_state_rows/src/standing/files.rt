//! What files hold.

ghost use Rattle.std.specs.Prelude.{length, ◌≡◌, ◌+◌, ◌^◌, ◌≤◌, Some, true, ◌<◌, IsSome, IfSome};
ghost use Rattle.opfs_base.specs.Blocks.{blocks};
ghost use Rattle.opfs_base.specs.Units.{origin_of};
ghost use Rattle.opfs_machine.specs.Contents.{in_lengths};
ghost use Rattle.opfs_machine.specs.Effects.{replaced, flushed, undone};
ghost use Rattle.opfs_machine.specs.Rows.{with_file};
ghost use Rattle.opfs_machine.specs.Sums.{usage, pool};
ghost use Rattle.std.specs.Map.{keys_of};
ghost use Rattle.opfs_pool.specs.Shares.{has_share, share_at, held};
ghost use Rattle.opfs_shed.specs.Buckets.{has_unit, bucket_at, usage_of};
ghost use Rattle.opfs_state_rows.specs.Standing.Contents.{showing, flushed_row, undone_row};
ghost use Rattle.opfs_state_rows.specs.Standing.Moves.{PoolMoves, ShedMoves};
ghost use Rattle.opfs_state_rows.specs.Standing.Seen.{persistent_in};
ghost use Rattle.opfs_tree.specs.Rows.{file_at, change_at, written, stored};

use crate::standing::standing::Standing;
use opfs_base::{Extents, Key, Path, blocks};
use opfs_pool::Pool;
use opfs_shed::Shed;

// A unit uses so many blocks in place of so many others. Those that are the same change nothing, and cost nothing.
fn exchange(shed: &mut Shed, unit: &Key, old: u64, new: u64)
    requires there { has_unit shed.old.buckets unit.now ≡ true }
    requires within { old ≤ (bucket_at shed.old.buckets unit.now).usage }
    requires fits { usage_of (origin_of unit.now) shed.old.buckets + new < 2 ^ 64 + old }
    ensures moves { ShedMoves shed.old shed.new unit.now old new }
    ensures modes { persistent_in shed.new.buckets ≡ persistent_in shed.old.buckets }
{
    let kept = old.min(new);
    shed.free(unit, old - kept);
    shed.add(unit, new - kept);
}

// A unit keeps so many blocks of the pool in place of so many others, likewise.
fn exchange_kept(pool: &mut Pool, unit: &Key, old: u64, new: u64)
    requires there { has_share pool.old.shares unit.now ≡ true }
    requires within { old ≤ (share_at pool.old.shares unit.now).blocks }
    requires room { held pool.old.shares + new ≤ pool.old.size + old }
    ensures moves { PoolMoves pool.old pool.new unit.now old new }
    ensures mark { (share_at pool.new.shares unit.now).candidate ≡ (share_at pool.old.shares unit.now).candidate }
    ensures units { keys_of pool.new.shares ≡ keys_of pool.old.shares }
{
    let kept = old.min(new);
    pool.lower(unit, old - kept);
    pool.raise(unit, new - kept);
}

impl Standing {
    /// Says what a read of the file at a place gives now: so many bytes, with a time stamp. Its unit uses their blocks in
    /// place of those that it used for it.
    pub fn set_present(&mut self, unit: &Key, path: &Path, length: u64, stamp: u64)
        requires there { IsSome (file_at (unit.now, path.now) self.old.tree) }
        requires quota { IfSome (file_at (unit.now, path.now) self.old.tree) (λ f. usage in_lengths self.old.machine (origin_of unit.now) + blocks length < 2 ^ 64 + blocks f.present) }
        ensures machine { self.new.machine ≡ with_file self.old.machine (unit.now, path.now) (showing length stamp) }
        ensures tree { self.new.tree ≡ change_at (unit.now, path.now) (written length stamp) self.old.tree }
        ensures prepared { self.new.prepared ≡ self.old.prepared }
    {
        let Some(file) = self.tree.file(unit, path) else {
            unreachable!();
        };
        exchange(&mut self.shed, unit, blocks(file.present), blocks(length));
        self.tree.set_present(unit, path, length, stamp);
    }

    /// Stores so many bytes of a file for good, with a time stamp and their blocks, and gives the blocks that the file had.
    /// A read gives them now.
    pub fn store(
        &mut self,
        unit: &Key,
        path: &Path,
        length: u64,
        stamp: u64,
        extents: Extents,
    ) -> Extents
        requires there { IsSome (file_at (unit.now, path.now) self.old.tree) }
        requires quota { IfSome (file_at (unit.now, path.now) self.old.tree) (λ f. usage in_lengths self.old.machine (origin_of unit.now) + blocks length < 2 ^ 64 + blocks f.present) }
        requires room { IfSome (file_at (unit.now, path.now) self.old.tree) (λ f. pool in_lengths self.old.machine + blocks length ≤ self.old.machine.limits.blocks + blocks f.length) }
        ensures machine { self.new.machine ≡ with_file self.old.machine (unit.now, path.now) (replaced length stamp) }
        ensures tree { self.new.tree ≡ change_at (unit.now, path.now) (stored length stamp extents) self.old.tree }
        ensures prepared { self.new.prepared ≡ self.old.prepared }
        ensures old { IfSome (file_at (unit.now, path.now) self.old.tree) (λ f. result ≡ f.extents) }
    {
        let Some(file) = self.tree.file(unit, path) else {
            unreachable!();
        };
        exchange(&mut self.shed, unit, blocks(file.present), blocks(length));
        exchange_kept(&mut self.pool, unit, blocks(file.length), blocks(length));
        self.tree.set_file(unit, path, length, stamp, extents)
    }

    /// Stores for good what a read of the file at a place gives now (File System: flush), in these blocks, and gives the
    /// blocks that the file had.
    pub fn flush(&mut self, unit: &Key, path: &Path, extents: Extents) -> Extents
        requires there { IsSome (file_at (unit.now, path.now) self.old.tree) }
        requires room { IfSome (file_at (unit.now, path.now) self.old.tree) (λ f. pool in_lengths self.old.machine + blocks f.present ≤ self.old.machine.limits.blocks + blocks f.length) }
        ensures machine { self.new.machine ≡ with_file self.old.machine (unit.now, path.now) flushed }
        ensures tree { self.new.tree ≡ change_at (unit.now, path.now) (flushed_row extents) self.old.tree }
        ensures prepared { self.new.prepared ≡ self.old.prepared }
        ensures old { IfSome (file_at (unit.now, path.now) self.old.tree) (λ f. result ≡ f.extents) }
    {
        let Some(file) = self.tree.file(unit, path) else {
            unreachable!();
        };
        let (length, stamp) = (file.present, file.present_stamp);
        // What is used is a count of 64 bits.
        let _used = self.usage(unit);
        self.store(unit, path, length, stamp, extents)
    }

    /// Lets a read of the file at a place give again what was last stored for good.
    pub fn undo(&mut self, unit: &Key, path: &Path)
        requires there { IsSome (file_at (unit.now, path.now) self.old.tree) }
        requires quota { IfSome (file_at (unit.now, path.now) self.old.tree) (λ f. usage in_lengths self.old.machine (origin_of unit.now) + blocks f.length < 2 ^ 64 + blocks f.present) }
        ensures machine { self.new.machine ≡ with_file self.old.machine (unit.now, path.now) undone }
        ensures tree { self.new.tree ≡ change_at (unit.now, path.now) undone_row self.old.tree }
        ensures prepared { self.new.prepared ≡ self.old.prepared }
    {
        let Some(file) = self.tree.file(unit, path) else {
            unreachable!();
        };
        let (length, stamp) = (file.length, file.stamp);
        self.set_present(unit, path, length, stamp);
    }
}
