//! Shares by their units, in a map that takes no memory to change one.

ghost use Rattle.std.specs.Prelude.{◌≡◌, ◌+◌, ◌-◌, ◌^◌, ◌<◌, ◌≤◌};
ghost use Rattle.opfs_pool.specs.Shares.{share_at, with_share};

use crate::pool::{FIRST, Share};
use opfs_base::Key;
use std::collections::BTreeMap;

/// The share of a unit, as it first is where the unit has none.
pub fn share_at(shares: &BTreeMap<Key, Share>, unit: &Key) -> Share
    ensures { result ≡ share_at shares.now.entries unit.now }
{
    match shares.get(unit) {
        Some(share) => *share,
        None => FIRST,
    }
}

/// Changes the share of a unit that has one.
pub fn set_share(shares: &mut BTreeMap<Key, Share>, unit: &Key, share: Share)
    ensures { shares.new.entries ≡ with_share shares.old.entries unit.now share }
{
    if let Some(place) = shares.get_mut(unit) {
        *place = share;
    }
}

/// Gives a unit that has a share so many blocks more.
pub fn raise_share(shares: &mut BTreeMap<Key, Share>, unit: &Key, n: u64)
    requires { (share_at shares.old.entries unit.now).blocks + n < 2 ^ 64 }
    ensures { shares.new.entries ≡ with_share shares.old.entries unit.now (record (share_at shares.old.entries unit.now) { blocks = (share_at shares.old.entries unit.now).blocks + n }) }
{
    if let Some(place) = shares.get_mut(unit) {
        place.blocks += n;
    }
}

/// Takes so many blocks off a unit's share.
pub fn lower_share(shares: &mut BTreeMap<Key, Share>, unit: &Key, n: u64)
    requires { n ≤ (share_at shares.old.entries unit.now).blocks }
    ensures { shares.new.entries ≡ with_share shares.old.entries unit.now (record (share_at shares.old.entries unit.now) { blocks = (share_at shares.old.entries unit.now).blocks - n }) }
{
    if let Some(place) = shares.get_mut(unit) {
        place.blocks -= n;
    }
}

/// Sets whether a unit that has a share is a candidate.
pub fn mark_share(shares: &mut BTreeMap<Key, Share>, unit: &Key, candidate: bool)
    ensures { shares.new.entries ≡ with_share shares.old.entries unit.now (record (share_at shares.old.entries unit.now) { candidate = candidate }) }
{
    if let Some(place) = shares.get_mut(unit) {
        place.candidate = candidate;
    }
}
