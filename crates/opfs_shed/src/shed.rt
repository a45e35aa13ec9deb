//! The shed of all buckets.

ghost use Rattle.std.specs.Prelude.{◌≡◌, ◌+◌, ◌-◌, ◌^◌, ◌<◌, ◌≤◌, ◌↔◌, [], true, IsTrue, IsErr, IfErr, OnOk, OnErr, map};
ghost use Rattle.std.specs.List.Sorted.{IsStrictlySortedBy};
ghost use Rattle.std.specs.Option.{option_copied};
ghost use Rattle.opfs_base.specs.Texts.{Text};
ghost use Rattle.opfs_base.specs.Units.{origin_of};
ghost use Rattle.opfs_shed.specs.Buckets.{text_cmp, bucket_at, has_unit, usage_of, part_of, first_bucket, changed, with_unit, persistent_past};

use crate::totals::{
    add_total, bucket_at, lower_bucket, lower_total, raise_bucket, raise_total, set_bucket,
    set_total, total_of,
};
use opfs_base::{Key, origin_of};
use std::alloc::{AllocError, Global};
use std::collections::BTreeMap;
use std::marker::Model;
use std::ops::Bound;

/// The mode of a bucket and what it uses.
#[derive(Clone, Copy, PartialEq, Eq)]
pub struct Bucket {
    /// Whether its mode is persistent, and not best-effort.
    pub persistent: bool,
    /// The blocks that its files and streams use.
    pub usage: u64,
}

/// A bucket as it first is: best-effort, of no blocks.
pub const FIRST: Bucket = Bucket {
    persistent: false,
    usage: 0,
};

/// A need that passes the quota, all in blocks.
#[derive(Clone, Copy, Debug, PartialEq, Eq)]
pub struct QuotaHit {
    /// What the origin uses.
    pub usage: u64,
    /// What is asked for besides.
    pub need: u64,
    /// What an origin may use.
    pub quota: u64,
}

/// The quota of each origin in blocks, and the bucket of each unit, in the order of the units' texts.
#[derive(Drop)]
pub struct Shed {
    quota: u64,
    buckets: BTreeMap<Key, Bucket>,
    totals: BTreeMap<Vec<u8>, u64>,
    alloc: Global,
}

impl Model for Shed {
    ghost use Rattle.opfs_shed.specs.Buckets.{Storage};
    ghost use Rattle.opfs_shed.specs.Tied.{IsTied};

    ghost Value = { Storage };

    ghost view = { λ shed. record { quota = shed.quota; buckets = shed.buckets.entries } };

    ghost invariant = { λ shed. IsTied shed.totals.entries shed.buckets.entries };
}

impl Shed {
    /// A shed of this quota, with no unit. Takes no memory.
    pub fn make(alloc: Global, quota: u64) -> Shed
        ensures { result ≡ record { quota = quota; buckets = [] } }
    {
        Shed {
            quota,
            buckets: BTreeMap::new(alloc),
            totals: BTreeMap::new(alloc),
            alloc,
        }
    }

    /// The blocks that the units of an origin may use together.
    pub fn quota(&self) -> u64
        ensures { result ≡ self.now.quota }
    {
        self.quota
    }

    /// What the units of a key's origin use together, in blocks. Takes as long for many origins as for one.
    pub fn usage(&self, key: &Key) -> u64
        ensures { result ≡ usage_of (origin_of key.now) self.now.buckets }
    {
        total_of(&self.totals, origin_of(key.as_bytes()))
    }

    /// Whether a unit's mode is persistent.
    pub fn is_persistent(&self, key: &Key) -> bool
        ensures { result ≡ (bucket_at self.now.buckets key.now).persistent }
    {
        bucket_at(&self.buckets, key).persistent
    }

    /// Whether the origin of a key may use so many blocks more; nothing more may always be used.
    pub fn check(&self, key: &Key, need: u64) -> Result<(), QuotaHit>
        ensures exact { IsErr result ↔ ((0 < need) × (self.now.quota < usage_of (origin_of key.now) self.now.buckets + need)) }
        ensures numbers { IfErr result (λ hit. hit ≡ record { usage = usage_of (origin_of key.now) self.now.buckets; need = need; quota = self.now.quota }) }
    {
        let usage = self.usage(key);
        if need > 0 && need > self.quota.saturating_sub(usage) {
            return Err(QuotaHit {
                usage,
                need,
                quota: self.quota,
            });
        }
        Ok(())
    }

    /// Puts a unit into the map, with the mode and usage that it counts as having. Where there is no memory the shed is as
    /// before.
    pub fn touch(&mut self, key: &Key) -> Result<(), AllocError>
        ensures there { OnOk result (IsTrue (has_unit self.new.buckets key.now)) }
        ensures touched { OnOk result (self.new ≡ record self.old { buckets = with_unit self.old.buckets key.now }) }
        ensures usage { (origin : Text) → usage_of origin self.new.buckets ≡ usage_of origin self.old.buckets }
        ensures err { OnErr result (self.new ≡ self.old) }
    {
        if self.buckets.contains_key(key) {
            return Ok(());
        }
        add_total(self.alloc, &mut self.totals, origin_of(key.as_bytes()))?;
        let key = key.copy(self.alloc)?;
        self.buckets.insert(key, FIRST)?;
        Ok(())
    }

    /// Lets a unit use so many blocks more. Takes no memory.
    pub fn add(&mut self, key: &Key, need: u64)
        requires there { IsTrue (has_unit self.old.buckets key.now) }
        requires fits { usage_of (origin_of key.now) self.old.buckets + need < 2 ^ 64 }
        ensures bucket { self.new ≡ changed self.old key.now (record (bucket_at self.old.buckets key.now) { usage = (bucket_at self.old.buckets key.now).usage + need }) }
        ensures usage { (origin : Text) → usage_of origin self.new.buckets ≡ usage_of origin self.old.buckets + part_of origin key.now need }
    {
        if need == 0 {
            return;
        }
        raise_total(&mut self.totals, origin_of(key.as_bytes()), need);
        raise_bucket(&mut self.buckets, key, need);
    }

    /// Takes so many blocks off what a unit uses. Takes no memory.
    pub fn free(&mut self, key: &Key, n: u64)
        requires { n ≤ (bucket_at self.old.buckets key.now).usage }
        ensures bucket { self.new ≡ changed self.old key.now (record (bucket_at self.old.buckets key.now) { usage = (bucket_at self.old.buckets key.now).usage - n }) }
        ensures usage { (origin : Text) → usage_of origin self.new.buckets + part_of origin key.now n ≡ usage_of origin self.old.buckets }
    {
        if n == 0 {
            return;
        }
        lower_total(&mut self.totals, origin_of(key.as_bytes()), n);
        lower_bucket(&mut self.buckets, key, n);
    }

    /// Makes a unit's bucket as it first is: best-effort, of no blocks. Takes no memory.
    pub fn clear(&mut self, key: &Key)
        ensures bucket { self.new ≡ changed self.old key.now first_bucket }
        ensures usage { (origin : Text) → usage_of origin self.new.buckets + part_of origin key.now (bucket_at self.old.buckets key.now).usage ≡ usage_of origin self.old.buckets }
    {
        self.put(key, FIRST);
    }

    /// Makes a unit's mode persistent. Takes no memory.
    pub fn set_persistent(&mut self, key: &Key)
        requires { IsTrue (has_unit self.old.buckets key.now) }
        ensures bucket { self.new ≡ changed self.old key.now (record (bucket_at self.old.buckets key.now) { persistent = true }) }
        ensures usage { (origin : Text) → usage_of origin self.new.buckets ≡ usage_of origin self.old.buckets }
        ensures ordered { IsStrictlySortedBy text_cmp (map (λ bucket. bucket.0) self.old.buckets) }
    {
        self.know_order();
        let Bucket { usage, .. } = bucket_at(&self.buckets, key);
        let persistent = true;
        self.put(key, Bucket { persistent, usage });
    }

    /// The buckets stand in the order of their units' texts, one for each. Says so, and does next to nothing.
    pub fn know_order(&self)
        ensures { IsStrictlySortedBy text_cmp (map (λ bucket. bucket.0) self.now.buckets) }
    {
        let all: (Bound<&Key>, Bound<&Key>) = (Bound::Unbounded, Bound::Unbounded);
        let _buckets = self.buckets.range(all);
    }

    /// The least persistent unit above a given one, or the least of all; None where there is none.
    pub fn persistent_after<'a>(&'a self, key: Option<&Key>) -> Option<&'a Key>
        ensures first { option_copied result ≡ persistent_past (option_copied key.entry) self.now.buckets }
        ensures ordered { IsStrictlySortedBy text_cmp (map (λ bucket. bucket.0) self.now.buckets) }
    {
        let start = match key {
            None => Bound::Unbounded,
            Some(key) => Bound::Excluded(key),
        };
        for (unit, bucket) in self.buckets.range((start, Bound::Unbounded)) {
            if bucket.persistent {
                return Some(unit);
            }
        }
        None
    }

    // Changes the bucket of a unit that is in the map.
    fn put(&mut self, key: &Key, bucket: Bucket)
        requires { (bucket_at self.old.buckets key.now).usage < bucket.usage → usage_of (origin_of key.now) self.old.buckets + bucket.usage < 2 ^ 64 + (bucket_at self.old.buckets key.now).usage }
        ensures { self.new ≡ changed self.old key.now bucket }
    {
        let Some(old) = self.buckets.get(key) else {
            return;
        };
        let origin = origin_of(key.as_bytes());
        let total = total_of(&self.totals, origin) - old.usage + bucket.usage;
        set_total(&mut self.totals, origin, total);
        set_bucket(&mut self.buckets, key, bucket);
    }
}
