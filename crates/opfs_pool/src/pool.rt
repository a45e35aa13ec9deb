//! The pool of data blocks.

ghost use Rattle.std.specs.Prelude.{◌≡◌, ◌+◌, ◌-◌, ◌<◌, ◌≤◌, ◌↔◌, [], true, false, IsTrue, IsNone, IfOk, OnOk, OnErr};
ghost use Rattle.std.specs.List.Sorted.{IsStrictlySortedBy};
ghost use Rattle.std.specs.Map.{keys_of};
ghost use Rattle.opfs_pool.specs.Shares.{text_cmp, has_share, first_share, share_at, held, touched, changed};
ghost use Rattle.opfs_pool.specs.Victims.{victims, clearable};

use crate::shares::{lower_share, mark_share, raise_share, set_share, share_at};
use crate::victims::{Keys, candidates, shortest_front};
use opfs_base::Key;
use std::alloc::{AllocError, Global};
use std::collections::BTreeMap;
use std::marker::Model;
use std::ops::Bound;

/// What a unit keeps of the pool.
#[derive(Clone, Copy, PartialEq, Eq)]
pub struct Share {
    /// Whether the unit may be cleared: it is best-effort, has a root and no taken lock.
    pub candidate: bool,
    /// The blocks that are kept for the unit's files and open rows.
    pub blocks: u64,
}

/// A share as it first is: of no blocks, of a unit that is no candidate.
pub const FIRST: Share = Share {
    candidate: false,
    blocks: 0,
};

/// A number of data blocks, and the shares that units have of them, in the order of the units' texts. No more blocks
/// are kept than there are.
#[derive(Drop)]
pub struct Pool {
    size: u64,
    count: u64,
    shares: BTreeMap<Key, Share>,
    alloc: Global,
}

impl Model for Pool {
    ghost use Rattle.std.specs.Prelude.{◌≡◌, ◌≤◌};
    ghost use Rattle.opfs_pool.specs.Shares.{Blocks, held};

    ghost Value = { Blocks };

    ghost view = { λ pool. record { size = pool.size; shares = pool.shares.entries } };

    ghost invariant = { λ pool. (pool.count ≡ held pool.shares.entries) × (pool.count ≤ pool.size) };
}

impl Pool {
    /// A pool of so many blocks, without shares. Takes no memory.
    pub fn make(alloc: Global, size: u64) -> Pool
        ensures { result ≡ record { size = size; shares = [] } }
    {
        Pool {
            size,
            count: 0,
            shares: BTreeMap::new(alloc),
            alloc,
        }
    }

    /// The blocks of all shares together.
    pub fn count(&self) -> u64
        ensures count { result ≡ held self.now.shares }
        ensures within { result ≤ self.now.size }
    {
        self.count
    }

    /// Whether so many blocks more are there, in one step.
    pub fn room(&self, need: u64) -> bool
        ensures { IsTrue result ↔ (held self.now.shares + need ≤ self.now.size) }
    {
        need <= self.size - self.count
    }

    /// Gives a unit a share, where it has none one of no blocks and no candidate. Where there is no memory the
    /// pool is as before.
    pub fn touch(&mut self, key: &Key) -> Result<(), AllocError>
        ensures there { OnOk result (IsTrue (has_share self.new.shares key.now)) }
        ensures touched { OnOk result (self.new ≡ record self.old { shares = touched self.old.shares key.now }) }
        ensures held { held self.new.shares ≡ held self.old.shares }
        ensures err { OnErr result (self.new ≡ self.old) }
    {
        if self.shares.contains_key(key) {
            return Ok(());
        }
        let key = key.copy(self.alloc)?;
        self.shares.insert(key, FIRST)?;
        Ok(())
    }

    /// Keeps so many blocks more for a unit. Takes no memory.
    pub fn raise(&mut self, key: &Key, n: u64)
        requires there { IsTrue (has_share self.old.shares key.now) }
        requires room { held self.old.shares + n ≤ self.old.size }
        ensures share { self.new ≡ changed self.old key.now (record (share_at self.old.shares key.now) { blocks = (share_at self.old.shares key.now).blocks + n }) }
        ensures held { held self.new.shares ≡ held self.old.shares + n }
    {
        if n == 0 {
            return;
        }
        raise_share(&mut self.shares, key, n);
        self.count += n;
    }

    /// Keeps so many blocks less for a unit. Takes no memory.
    pub fn lower(&mut self, key: &Key, n: u64)
        requires { n ≤ (share_at self.old.shares key.now).blocks }
        ensures share { self.new ≡ changed self.old key.now (record (share_at self.old.shares key.now) { blocks = (share_at self.old.shares key.now).blocks - n }) }
        ensures held { held self.new.shares + n ≡ held self.old.shares }
    {
        if n == 0 {
            return;
        }
        lower_share(&mut self.shares, key, n);
        self.count -= n;
    }

    /// Keeps no block for a unit, which is no candidate then. Takes no memory.
    pub fn clear(&mut self, key: &Key)
        ensures share { self.new ≡ changed self.old key.now first_share }
        ensures held { held self.new.shares + (share_at self.old.shares key.now).blocks ≡ held self.old.shares }
    {
        self.count -= share_at(&self.shares, key).blocks;
        set_share(&mut self.shares, key, FIRST);
    }

    /// Sets whether a unit may be cleared. Takes no memory.
    pub fn mark(&mut self, key: &Key, candidate: bool)
        requires { IsTrue (has_share self.old.shares key.now) }
        ensures share { self.new ≡ changed self.old key.now (record (share_at self.old.shares key.now) { candidate = candidate }) }
        ensures held { held self.new.shares ≡ held self.old.shares }
    {
        mark_share(&mut self.shares, key, candidate);
    }

    /// The units that are cleared so that so many blocks more find room: the shortest front of the candidates that are not
    /// of the caller's origin, by the last use of their origin, as it is told, and then by text. None where all together
    /// are not enough. Where there is room it answers at once, with no unit, and takes no memory.
    pub fn victims(
        &self,
        caller: &Key,
        need: u64,
        uses: &[(Key, u64)],
    ) -> Result<Option<Keys>, AllocError>
        ensures units { IfOk result (λ units. units ≡ victims self.now caller.now need uses.now) }
        ensures none { IfOk result (λ units. IsNone units ↔ (self.now.size + clearable caller.now uses.now self.now.shares < held self.now.shares + need)) }
    {
        if self.room(need) {
            return Ok(Some(Keys::from_vec(Vec::new(self.alloc))));
        }
        let lacking = need.saturating_sub(self.size - self.count);
        let sorted = candidates(self.alloc, caller, uses, &self.shares)?;
        let units = shortest_front(self.alloc, lacking, &sorted)?;
        Ok(units)
    }

    /// The shares stand in the order of their units' texts, one for each. Says so, and does next to nothing.
    pub fn know_order(&self)
        ensures { IsStrictlySortedBy text_cmp (keys_of self.now.shares) }
    {
        let all: (Bound<&Key>, Bound<&Key>) = (Bound::Unbounded, Bound::Unbounded);
        let _shares = self.shares.range(all);
    }
}
