//! How a map is written by key.

ghost use Rattle.std.specs.Prelude.{◌≡◌, ◌+◌, ◌≤◌, ◌++◌, [], length, map, sum_by, IfOk, OnOk, Some};
ghost use Rattle.std.specs.List.{AllByRecursion};
ghost use Rattle.std.specs.List.Sorted.{IsStrictlySortedBy};
ghost use Rattle.std.specs.Map.{keys_of};
ghost use Rattle.opfs_kv.specs.Records.Maps.{key_cmp, with_key};
ghost use Rattle.opfs_kv.specs.Records.Records.{IsKey, log_of, put_of, spelled_by};
ghost use Rattle.opfs_kv.specs.Records.Indexes.{IsEntry, IsFitting, cost_of, indexed, read_out};
ghost use Rattle.opfs_splice.specs.Splicing.{window};

use crate::records::index::Index;
use crate::records::place::Place;
use crate::records::spell::append_put;
use opfs_base::Bytes;
use opfs_splice::window_of;
use std::alloc::{AllocError, Global};
use std::collections::BTreeMap;

/// Bytes by key, and the index of them.
#[derive(Drop)]
pub struct Packed {
    pub bytes: Vec<u8>,
    pub index: Index,
}

/// The records of the map that an index reads out of bytes, by key, with their own index.
pub fn pack(alloc: Global, bytes: &[u8], index: &Index) -> Result<Packed, AllocError>
    requires good { AllByRecursion IsEntry index.now }
    requires small { sum_by cost_of index.now ≤ 16777216 }
    ensures short { IfOk result (λ packed. length packed.bytes.items ≤ sum_by cost_of index.now) }
    ensures fitting { IfOk result (λ packed. IsFitting (length packed.bytes.items) packed.index) }
    ensures bytes { IfOk result (λ packed. packed.bytes.items ≡ log_of (map put_of (read_out bytes.now index.now))) }
    ensures index { IfOk result (λ packed. packed.index ≡ indexed 0 (map put_of (read_out bytes.now index.now)) []) }
    ensures ordered { OnOk result (IsStrictlySortedBy key_cmp (keys_of index.now)) }
{
    pack_map(alloc, bytes, index.map())
}

// The same of a map.
fn pack_map(
    alloc: Global,
    bytes: &[u8],
    places: &BTreeMap<Bytes, Place>,
) -> Result<Packed, AllocError>
    requires good { AllByRecursion IsEntry places.now.entries }
    requires small { sum_by cost_of places.now.entries ≤ 16777216 }
    ensures short { IfOk result (λ packed. length packed.bytes.items ≤ sum_by cost_of places.now.entries) }
    ensures fitting { IfOk result (λ packed. IsFitting (length packed.bytes.items) packed.index) }
    ensures bytes { IfOk result (λ packed. packed.bytes.items ≡ log_of (map put_of (read_out bytes.now places.now.entries))) }
    ensures index { IfOk result (λ packed. packed.index ≡ indexed 0 (map put_of (read_out bytes.now places.now.entries)) []) }
    ensures ordered { OnOk result (IsStrictlySortedBy key_cmp (keys_of places.now.entries)) }
{
    let mut made = Vec::new(alloc);
    let mut index = Index::empty(alloc);
    for (key, place) in places.iter() {
        add(alloc, bytes, key, *place, &mut made, &mut index)?;
    }
    Ok(Packed { bytes: made, index })
}

// Appends the record of a key whose value is at a place of bytes, and puts it into the index.
fn add(
    alloc: Global,
    bytes: &[u8],
    key: &Bytes,
    place: Place,
    made: &mut Vec<u8>,
    index: &mut Index,
) -> Result<(), AllocError>
    requires good { IsEntry (key.now, place) }
    requires small { length made.old.items + cost_of (key.now, place) ≤ 16777216 }
    ensures bytes { OnOk result (made.new.items ≡ made.old.items ++ spelled_by key.now (Some (window bytes.now place.at place.len))) }
    ensures index { OnOk result (index.new ≡ with_key index.old key.now (record { at = length made.old.items + (6 + length key.now); len = length (window bytes.now place.at place.len) })) }
{
    let value = window_of(bytes, place.at as u64, place.len as u64);
    let at = made.len() as u32 + 6 + key.len() as u32;
    let len = value.len() as u32;
    append_put(made, key.as_slice(), value)?;
    index.put(key.copy(alloc)?, Place { at, len })?;
    Ok(())
}
