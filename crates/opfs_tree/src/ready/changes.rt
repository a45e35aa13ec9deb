//! Changes of the rows beside a place that stands ready. None takes memory.

ghost use Rattle.std.specs.Prelude.{◌≡◌, ◌<◌, ◌≤◌, ◌++◌, false, length, option_map, vec_capacity, IsSome, IfSome};
ghost use Rattle.opfs_locks.specs.Taking.{taken};
ghost use Rattle.opfs_locks.specs.Holding.{IsTakenAs};
ghost use Rattle.opfs_tree.specs.Rows.{file_at, extents_within, without, change_at, locked, unlocked, stored, written};
ghost use Rattle.opfs_tree.specs.Ready.Ready.{ready_within};

use crate::ready::ready::ReadyTree;
use opfs_base::{Extent, Extents, Key, Path};
use opfs_locks::{Held, Want};

impl ReadyTree {
    /// Takes the lock of the file at a place (File System: take a lock); None, and nothing changes, where that fails.
    pub fn take_lock(&mut self, key: &Key, path: &Path, want: Want) -> Option<Held>
        requires there { IsSome (file_at (key.now, path.now) self.old.rows) }
        requires room { IfSome (file_at (key.now, path.now) self.old.rows) (λ f. f.lock.1 < 4294967295) }
        ensures rows { self.new.rows ≡ change_at (key.now, path.now) (locked want) self.old.rows }
        ensures ready { self.new.ready ≡ self.old.ready }
        ensures given { IfSome (file_at (key.now, path.now) self.old.rows) (λ f. result ≡ option_map (λ _. want) (taken want f.lock)) }
    {
        self.tree.take_lock(key, path, want)
    }

    /// Gives back the lock of the file at a place (File System: release the lock).
    pub fn release_lock(&mut self, key: &Key, path: &Path, held: Held)
        requires there { IsSome (file_at (key.now, path.now) self.old.rows) }
        requires taken { IfSome (file_at (key.now, path.now) self.old.rows) (λ f. IsTakenAs held f.lock) }
        ensures rows { self.new.rows ≡ change_at (key.now, path.now) unlocked self.old.rows }
        ensures ready { self.new.ready ≡ self.old.ready }
    {
        self.tree.release_lock(key, path, held);
    }

    /// Gives the file at a place another length, time stamp and blocks, and gives back those that it had.
    pub fn set_file(
        &mut self,
        key: &Key,
        path: &Path,
        length: u64,
        stamp: u64,
        extents: Extents,
    ) -> Extents
        requires { IsSome (file_at (key.now, path.now) self.old.rows) }
        ensures rows { self.new.rows ≡ change_at (key.now, path.now) (stored length stamp extents) self.old.rows }
        ensures ready { self.new.ready ≡ self.old.ready }
        ensures old { IfSome (file_at (key.now, path.now) self.old.rows) (λ f. result ≡ f.extents) }
    {
        self.tree.set_file(key, path, length, stamp, extents)
    }

    /// Says what a read of the file at a place gives now.
    pub fn set_present(&mut self, key: &Key, path: &Path, length: u64, stamp: u64)
        requires { IsSome (file_at (key.now, path.now) self.old.rows) }
        ensures rows { self.new.rows ≡ change_at (key.now, path.now) (written length stamp) self.old.rows }
        ensures ready { self.new.ready ≡ self.old.ready }
    {
        self.tree.set_present(key, path, length, stamp);
    }

    /// Takes out the row at a place and all below it, of which no place stands ready, and appends their extents to those
    /// freed.
    pub fn remove(&mut self, key: &Key, path: &Path, freed: &mut Vec<Extent>)
        requires ready { ready_within (key.now, path.now) self.old.ready ≡ false }
        requires room { length (freed.old.items ++ extents_within (key.now, path.now) self.old.rows) ≤ vec_capacity freed.old }
        ensures rows { self.new.rows ≡ without (key.now, path.now) self.old.rows }
        ensures ready { self.new.ready ≡ self.old.ready }
        ensures freed { freed.new.items ≡ freed.old.items ++ extents_within (key.now, path.now) self.old.rows }
        ensures capacity { vec_capacity freed.old ≤ vec_capacity freed.new }
    {
        self.tree.remove(key, path, freed);
    }
}
