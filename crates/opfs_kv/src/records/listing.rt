//! The keys of an index in order, and how many bytes its records take.

ghost use Rattle.std.specs.Prelude.{◌≡◌, ◌≤◌, ◌&&◌, ◌++◌, ◌∷◌, [], if◌then◌else◌, length, nat_eq, sum_by, IfOk, OnOk};
ghost use Rattle.std.specs.List.{starts_with};
ghost use Rattle.std.specs.Map.{keys_of};
ghost use Rattle.std.specs.Ordering.{is_le, is_lt};
ghost use Rattle.opfs_kv.specs.Records.Maps.{key_cmp, keys_between, keys_from, keys_with};
ghost use Rattle.opfs_kv.specs.Records.Indexes.{cost_of};

use crate::records::index::Index;
use crate::records::place::Place;
use opfs_base::Bytes;
use std::alloc::{AllocError, Global};
use std::cmp::Ordering;
use std::collections::BTreeMap;
use std::ops::Bound;

// Appends a copy of a key, where it is wanted.
fn add(alloc: Global, keys: &mut Vec<Bytes>, key: &Bytes, wanted: bool) -> Result<(), AllocError>
    ensures { OnOk result (keys.new.items ≡ keys.old.items ++ (if wanted then key.now ∷ [] else [])) }
{
    if !wanted {
        return Ok(());
    }
    let own = key.copy(alloc)?;
    keys.push(own)?;
    Ok(())
}

// The keys of a map from one on. Those before it are not looked at.
fn from_in(
    alloc: Global,
    places: &BTreeMap<Bytes, Place>,
    from: &Bytes,
) -> Result<Vec<Bytes>, AllocError>
    ensures { IfOk result (λ keys. keys.items ≡ keys_from from.now (keys_of places.now.entries)) }
{
    let mut keys = Vec::new(alloc);
    for (key, _) in places.range((Bound::Included(from), Bound::Unbounded)) {
        add(alloc, &mut keys, key, true)?;
    }
    Ok(keys)
}

// Whether a key is one of those from one on, and below another.
fn is_between(from: &Bytes, to: &Bytes, key: &Bytes) -> bool
    ensures { result ≡ (is_le (key_cmp from.now key.now) && is_lt (key_cmp key.now to.now)) }
{
    from.cmp(key) != Ordering::Greater && key.cmp(to) == Ordering::Less
}

// The keys of a map from one on, and below another.
fn between_in(
    alloc: Global,
    places: &BTreeMap<Bytes, Place>,
    from: &Bytes,
    to: &Bytes,
) -> Result<Vec<Bytes>, AllocError>
    ensures { IfOk result (λ keys. keys.items ≡ keys_between from.now to.now (keys_of places.now.entries)) }
{
    let mut keys = Vec::new(alloc);
    for (key, _) in places.iter() {
        add(alloc, &mut keys, key, is_between(from, to, key))?;
    }
    Ok(keys)
}

// Whether a key begins with bytes.
fn is_with(front: &Bytes, key: &Bytes) -> bool
    ensures { result ≡ starts_with nat_eq key.now front.now }
{
    key.as_slice().starts_with(front.as_slice())
}

// The keys of a map that begin with bytes.
fn with_in(
    alloc: Global,
    places: &BTreeMap<Bytes, Place>,
    front: &Bytes,
) -> Result<Vec<Bytes>, AllocError>
    ensures { IfOk result (λ keys. keys.items ≡ keys_with front.now (keys_of places.now.entries)) }
{
    let mut keys = Vec::new(alloc);
    for (key, _) in places.iter() {
        add(alloc, &mut keys, key, is_with(front, key))?;
    }
    Ok(keys)
}

// How many bytes the records of a map take.
fn cost_in(places: &BTreeMap<Bytes, Place>) -> u64
    requires { sum_by cost_of places.now.entries ≤ 16777216 }
    ensures { result ≡ sum_by cost_of places.now.entries }
{
    let mut cost = 0;
    for (key, place) in places.iter() {
        cost += 6 + key.len() as u64 + place.len as u64;
    }
    cost
}

/// The keys of an index from one on.
pub fn keys_from(alloc: Global, index: &Index, from: &Bytes) -> Result<Vec<Bytes>, AllocError>
    ensures { IfOk result (λ keys. keys.items ≡ keys_from from.now (keys_of index.now)) }
{
    let keys = from_in(alloc, index.map(), from)?;
    Ok(keys)
}

/// The keys of an index from one on, and below another.
pub fn keys_between(
    alloc: Global,
    index: &Index,
    from: &Bytes,
    to: &Bytes,
) -> Result<Vec<Bytes>, AllocError>
    ensures { IfOk result (λ keys. keys.items ≡ keys_between from.now to.now (keys_of index.now)) }
{
    let keys = between_in(alloc, index.map(), from, to)?;
    Ok(keys)
}

/// The keys of an index that begin with bytes: all of them with no bytes.
pub fn keys_with(alloc: Global, index: &Index, front: &Bytes) -> Result<Vec<Bytes>, AllocError>
    ensures { IfOk result (λ keys. keys.items ≡ keys_with front.now (keys_of index.now)) }
{
    let keys = with_in(alloc, index.map(), front)?;
    Ok(keys)
}

/// How many bytes the records of an index take, one for each key.
pub fn cost_of(index: &Index) -> u64
    requires { sum_by cost_of index.now ≤ 16777216 }
    ensures { result ≡ sum_by cost_of index.now }
{
    cost_in(index.map())
}
