//! File locks (File System: lock).
//!
//! It stands on no other crate of this repository; on it stand `opfs_hist` and `opfs_tree`.
#![tactic(auto)]

ghost use Rattle.std.specs.Prelude.{◌≡◌, ◌<◌, option_map, unwrap_or};
ghost use Rattle.opfs_locks.specs.Taking.{open_lock, taken, released};
ghost use Rattle.opfs_locks.specs.Holding.{IsTakenAs};

use std::marker::Model;

/// What a file's lock is. It prints as open, taken-exclusive, taken-shared and taken-read-only.
#[derive(Clone, Copy, Debug, PartialEq, Eq)]
pub enum LockValue {
    /// Not taken.
    Free,
    /// Taken by one read-write access handle.
    Exclusive,
    /// Taken by writable streams.
    Shared,
    /// Taken by read-only access handles.
    ReadOnly,
}

/// How a lock is asked for.
#[derive(Clone, Copy, Debug, PartialEq, Eq)]
pub enum Want {
    /// For a read-write access handle.
    Exclusive,
    /// For a writable stream.
    Shared,
    /// For a read-only access handle.
    ReadOnly,
}

/// A file's lock, seen as its value and the number of its shared or read-only holders.
#[derive(Clone, Copy, PartialEq, Eq)]
pub struct FileLock {
    value: LockValue,
    count: u32,
}

impl Model for FileLock {
    ghost use Rattle.std.specs.Prelude.{ℕ};
    ghost use Rattle.opfs_locks.specs.declared.LockValue.{LockValue};

    ghost Value = { LockValue × ℕ };

    ghost view = { λ lock. (lock.value, lock.count) };

    ghost inverse = { λ seen. record { value = seen.0; count = seen.1 } };
}

/// A lock that was taken and is not yet released, seen as how it was asked for. It has to be spent.
pub struct Held {
    want: Want,
}

impl Model for Held {
    ghost use Rattle.opfs_locks.specs.declared.Want.{Want};

    ghost Value = { Want };

    ghost view = { λ held. held.want };
}

impl FileLock {
    /// A lock that nobody holds.
    pub fn make() -> FileLock
        ensures { result ≡ open_lock }
    {
        FileLock {
            value: LockValue::Free,
            count: 0,
        }
    }

    /// What the lock is.
    pub fn value(&self) -> LockValue
        ensures { result ≡ self.now.0 }
    {
        self.value
    }

    /// How many shared or read-only holders there are.
    pub fn count(&self) -> u32
        ensures { result ≡ self.now.1 }
    {
        self.count
    }

    /// Takes the lock (File System: take a lock), or leaves it as it is where that fails.
    pub fn take(&mut self, want: Want) -> Option<Held>
        requires room { self.old.1 < 4294967295 }
        ensures given { result ≡ option_map (λ _. want) (taken want self.old) }
        ensures lock { self.new ≡ unwrap_or (taken want self.old) self.old }
    {
        let (value, count) = match (want, self.value) {
            (Want::Exclusive, LockValue::Free) => (LockValue::Exclusive, 0),
            (Want::Shared, LockValue::Free) => (LockValue::Shared, 1),
            (Want::ReadOnly, LockValue::Free) => (LockValue::ReadOnly, 1),
            (Want::Shared, LockValue::Shared) => (LockValue::Shared, self.count + 1),
            (Want::ReadOnly, LockValue::ReadOnly) => (LockValue::ReadOnly, self.count + 1),
            _ => return None,
        };
        *self = FileLock { value, count };
        Some(Held { want })
    }

    /// Gives the lock back (File System: release the lock).
    pub fn release(&mut self, held: Held)
        requires { IsTakenAs held self.old }
        ensures { self.new ≡ released self.old }
    {
        let Held { want } = held;
        if want == Want::Exclusive || self.count == 1 {
            *self = FileLock::make();
        } else {
            self.count -= 1;
        }
    }
}

impl Held {
    /// How the lock was asked for.
    pub fn want(&self) -> Want
        ensures { result ≡ self.now }
    {
        self.want
    }

    /// Ends a hold whose lock is no more, or is kept no longer, without giving the lock back.
    pub fn end(self) {
        let Held { want: _ } = self;
    }
}
