//! Values by their keys, in maps that take no memory to change one.

ghost use Rattle.std.specs.Prelude.{◌≡◌, ◌+◌, ◌-◌, ◌^◌, ◌<◌, ◌≤◌, true, OnOk, is_some, unwrap_or};
ghost use Rattle.std.specs.Map.{set_value};
ghost use Rattle.opfs_base.specs.Texts.{Text};
ghost use Rattle.opfs_shed.specs.Buckets.{is_unit, bucket_at, with_bucket};
ghost use Rattle.opfs_shed.specs.Tied.{is_origin, total_in};

use crate::shed::{Bucket, FIRST};
use opfs_base::Key;
use std::alloc::{AllocError, Global};
use std::collections::BTreeMap;

/// The bucket of a unit, as it first is where the unit has none.
pub fn bucket_at(buckets: &BTreeMap<Key, Bucket>, unit: &Key) -> Bucket
    ensures { result ≡ bucket_at buckets.now.entries unit.now }
{
    match buckets.get(unit) {
        Some(bucket) => *bucket,
        None => FIRST,
    }
}

/// Changes the bucket of a unit that has one.
pub fn set_bucket(buckets: &mut BTreeMap<Key, Bucket>, unit: &Key, bucket: Bucket)
    ensures { buckets.new.entries ≡ with_bucket buckets.old.entries unit.now bucket }
{
    if let Some(place) = buckets.get_mut(unit) {
        *place = bucket;
    }
}

/// Lets a unit that has a bucket use so many blocks more.
pub fn raise_bucket(buckets: &mut BTreeMap<Key, Bucket>, unit: &Key, n: u64)
    requires { (bucket_at buckets.old.entries unit.now).usage + n < 2 ^ 64 }
    ensures { buckets.new.entries ≡ with_bucket buckets.old.entries unit.now (record (bucket_at buckets.old.entries unit.now) { usage = (bucket_at buckets.old.entries unit.now).usage + n }) }
{
    if let Some(place) = buckets.get_mut(unit) {
        place.usage += n;
    }
}

/// Takes so many blocks off what a unit uses.
pub fn lower_bucket(buckets: &mut BTreeMap<Key, Bucket>, unit: &Key, n: u64)
    requires { n ≤ (bucket_at buckets.old.entries unit.now).usage }
    ensures { buckets.new.entries ≡ with_bucket buckets.old.entries unit.now (record (bucket_at buckets.old.entries unit.now) { usage = (bucket_at buckets.old.entries unit.now).usage - n }) }
{
    if let Some(place) = buckets.get_mut(unit) {
        place.usage -= n;
    }
}

/// The count of an origin, 0 where it has none.
pub fn total_of(totals: &BTreeMap<Vec<u8>, u64>, origin: &[u8]) -> u64
    ensures { result ≡ unwrap_or (total_in totals.now.entries origin.now) 0 }
{
    totals.get(origin).copied().unwrap_or(0)
}

/// Changes the count of an origin that has one.
pub fn set_total(totals: &mut BTreeMap<Vec<u8>, u64>, origin: &[u8], total: u64)
    ensures { totals.new.entries ≡ set_value (is_origin origin.now) totals.old.entries total }
{
    if let Some(place) = totals.get_mut(origin) {
        *place = total;
    }
}

/// Adds to the count of an origin that has one.
pub fn raise_total(totals: &mut BTreeMap<Vec<u8>, u64>, origin: &[u8], n: u64)
    requires { unwrap_or (total_in totals.old.entries origin.now) 0 + n < 2 ^ 64 }
    ensures { totals.new.entries ≡ set_value (is_origin origin.now) totals.old.entries (unwrap_or (total_in totals.old.entries origin.now) 0 + n) }
{
    if let Some(place) = totals.get_mut(origin) {
        *place += n;
    }
}

/// Takes from the count of an origin.
pub fn lower_total(totals: &mut BTreeMap<Vec<u8>, u64>, origin: &[u8], n: u64)
    requires { n ≤ unwrap_or (total_in totals.old.entries origin.now) 0 }
    ensures { totals.new.entries ≡ set_value (is_origin origin.now) totals.old.entries (unwrap_or (total_in totals.old.entries origin.now) 0 - n) }
{
    if let Some(place) = totals.get_mut(origin) {
        *place -= n;
    }
}

/// Gives an origin a count, which is 0 where it has none.
pub fn add_total(
    alloc: Global,
    totals: &mut BTreeMap<Vec<u8>, u64>,
    origin: &[u8],
) -> Result<(), AllocError>
    ensures same { (other : Text) → unwrap_or (total_in totals.new.entries other) 0 ≡ unwrap_or (total_in totals.old.entries other) 0 }
    ensures kept { (other : Text) → is_some (total_in totals.old.entries other) ≡ true → is_some (total_in totals.new.entries other) ≡ true }
    ensures there { OnOk result (is_some (total_in totals.new.entries origin.now) ≡ true) }
{
    if totals.contains_key(origin) {
        return Ok(());
    }
    let bytes = Vec::from_slice(alloc, origin)?;
    totals.insert(bytes, 0)?;
    Ok(())
}
