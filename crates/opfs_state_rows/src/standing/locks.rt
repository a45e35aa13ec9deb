//! Locks of files.

ghost use Rattle.std.specs.Prelude.{◌≡◌, ◌<◌, option_map, IsSome, IfSome};
ghost use Rattle.opfs_locks.specs.Taking.{taken};
ghost use Rattle.opfs_locks.specs.Holding.{IsTakenAs};
ghost use Rattle.opfs_machine.specs.Effects.{with_lock, unlocked};
ghost use Rattle.opfs_machine.specs.Rows.{with_file};
ghost use Rattle.opfs_tree.specs.Rows.{file_at, change_at, locked};
ghost use Rattle.opfs_tree.specs.Rows.{unlocked as unlocked_row};

use crate::standing::standing::{Standing, mark};
use opfs_base::{Key, Path};
use opfs_locks::{Held, Want};

impl Standing {
    /// Takes the lock of the file at a place (File System: take a lock); None, and nothing changes, where that fails.
    pub fn take(&mut self, unit: &Key, path: &Path, want: Want) -> Option<Held>
        requires there { IsSome (file_at (unit.now, path.now) self.old.tree) }
        requires room { IfSome (file_at (unit.now, path.now) self.old.tree) (λ f. f.lock.1 < 4294967295) }
        ensures machine { self.new.machine ≡ with_file self.old.machine (unit.now, path.now) (with_lock want) }
        ensures tree { self.new.tree ≡ change_at (unit.now, path.now) (locked want) self.old.tree }
        ensures prepared { self.new.prepared ≡ self.old.prepared }
        ensures given { IfSome (file_at (unit.now, path.now) self.old.tree) (λ f. result ≡ option_map (λ _. want) (taken want f.lock)) }
    {
        let held = self.tree.take_lock(unit, path, want);
        mark(&mut self.pool, &self.tree, &self.shed, &self.root, unit);
        held
    }

    /// Gives back the lock of the file at a place (File System: release the lock).
    pub fn unlock(&mut self, unit: &Key, path: &Path, held: Held)
        requires there { IsSome (file_at (unit.now, path.now) self.old.tree) }
        requires taken { IfSome (file_at (unit.now, path.now) self.old.tree) (λ f. IsTakenAs held f.lock) }
        ensures machine { self.new.machine ≡ with_file self.old.machine (unit.now, path.now) unlocked }
        ensures tree { self.new.tree ≡ change_at (unit.now, path.now) unlocked_row self.old.tree }
        ensures prepared { self.new.prepared ≡ self.old.prepared }
    {
        self.tree.release_lock(unit, path, held);
        mark(&mut self.pool, &self.tree, &self.shed, &self.root, unit);
    }
}
