//! Where each key's value is.

ghost use Rattle.std.specs.Prelude.{◌≡◌, [], length, IfOk, OnOk, OnErr, is_some};
ghost use Rattle.std.specs.List.Sorted.{IsStrictlySortedBy};
ghost use Rattle.std.specs.Map.{keys_of};
ghost use Rattle.opfs_kv.specs.Records.Maps.{key_cmp, found, with_key, without_key};
ghost use Rattle.opfs_kv.specs.Records.Indexes.{Places};
ghost use Rattle.opfs_kv.specs.declared.records.place.Place.{Place};

use crate::records::place::Place;
use opfs_base::Bytes;
use std::alloc::{AllocError, Global};
use std::collections::BTreeMap;
use std::marker::Model;

/// Where each key's value is, seen as the list of keys and places, in the order of the keys.
#[derive(Drop)]
pub struct Index {
    map: BTreeMap<Bytes, Place>,
}

impl Model for Index {
    ghost use Rattle.std.specs.Prelude.{List, ℕ};
    ghost use Rattle.opfs_kv.specs.declared.records.place.Place.{Place};

    ghost Value = { List (List ℕ × Place) };

    ghost view = { λ index. index.map.entries };
}

impl Index {
    /// No key is there. Takes no memory.
    pub fn empty(alloc: Global) -> Index
        ensures { result ≡ [] }
    {
        Index {
            map: BTreeMap::new(alloc),
        }
    }

    /// How many keys are there.
    pub fn len(&self) -> usize
        ensures { result ≡ length self.now }
    {
        self.map.len()
    }

    /// Where a key's value is.
    pub fn find(&self, key: &Bytes) -> Option<Place>
        ensures { result ≡ found self.now key.now }
    {
        self.map.get(key).copied()
    }

    /// Gives a key a place. On want of memory the index is as it was.
    pub fn put(&mut self, key: Bytes, place: Place) -> Result<(), AllocError>
        ensures ok { OnOk result (self.new ≡ with_key self.old key place) }
        ensures err { OnErr result (self.new ≡ self.old) }
    {
        self.map.insert(key, place)?;
        Ok(())
    }

    /// Takes a key out, and tells whether it was there. Takes no memory.
    pub fn take_out(&mut self, key: &Bytes) -> bool
        ensures was { result ≡ is_some (found self.old key.now) }
        ensures out { self.new ≡ without_key self.old key.now }
    {
        self.map.remove(key).is_some()
    }

    /// The same in new memory.
    pub fn copy(&self, alloc: Global) -> Result<Index, AllocError>
        ensures { IfOk result (λ copy. copy ≡ self.now) }
    {
        let map = copy_map(alloc, &self.map)?;
        Ok(Index { map })
    }

    /// What the type keeps: the keys rise.
    pub fn know_kept(&self)
        ensures { IsStrictlySortedBy key_cmp (keys_of self.now) }
    {
        let _ = self.map.len();
    }

    /// The keys with their places, in the order of the keys.
    pub(crate) fn map(&self) -> &BTreeMap<Bytes, Place>
        ensures { result.now.entries ≡ self.now }
    {
        &self.map
    }
}

// A map's entries in new memory.
fn copy_map(
    alloc: Global,
    map: &BTreeMap<Bytes, Place>,
) -> Result<BTreeMap<Bytes, Place>, AllocError>
    ensures { IfOk result (λ copy. copy.entries ≡ map.now.entries) }
{
    let mut made = BTreeMap::new(alloc);
    for (key, place) in map.iter() {
        made.insert(key.copy(alloc)?, *place)?;
    }
    Ok(made)
}
