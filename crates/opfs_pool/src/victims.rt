//! Which units are cleared.

ghost use Rattle.std.specs.Prelude.{◌≡◌, ◌-◌, IfOk};
ghost use Rattle.opfs_pool.specs.Victims.{is_candidate, last_in, candidates, shortest_front};
ghost use Rattle.opfs_base.specs.Units.{origin_of};

use crate::pool::Share;
use opfs_base::{Key, origin_of, same_origin};
use std::alloc::{AllocError, Global};
use std::collections::BTreeMap;
use std::marker::Model;

/// Keys in an order, seen as the list of them.
#[derive(Drop)]
pub struct Keys {
    items: Vec<Key>,
}

impl Model for Keys {
    ghost use Rattle.std.specs.Prelude.{List, ℕ};

    ghost Value = { List (List ℕ) };

    ghost view = { λ keys. keys.items.items };
}

impl Keys {
    /// The keys of a vector. Takes no memory.
    pub fn from_vec(items: Vec<Key>) -> Keys
        ensures { result ≡ items.items }
    {
        Keys { items }
    }

    /// The keys as a slice.
    pub fn as_slice(&self) -> &[Key]
        ensures { result.now ≡ self.now }
    {
        self.items.as_slice()
    }
}

// Whether a share may be cleared for a caller.
fn is_candidate(caller: &Key, unit: &Key, share: &Share) -> bool
    ensures { result ≡ is_candidate caller.now (unit.now, share.now) }
{
    share.candidate && !same_origin(caller, unit)
}

// The last use of a unit's origin among those that are told; 0 where it is not among them.
fn last_use(uses: &[(Key, u64)], unit: &Key) -> u64
    ensures { result ≡ last_in uses.now (origin_of unit.now) }
{
    let origin = origin_of(unit.as_bytes());
    for (used, last) in uses {
        if origin == used.as_bytes() {
            return *last;
        }
    }
    0
}

/// The units that may be cleared for a caller and their blocks, the one that was used longest ago first.
pub fn candidates(
    alloc: Global,
    caller: &Key,
    uses: &[(Key, u64)],
    shares: &BTreeMap<Key, Share>,
) -> Result<BTreeMap<(u64, Key), u64>, AllocError>
    ensures { IfOk result (λ sorted. sorted.entries ≡ candidates caller.now uses.now shares.now.entries) }
{
    let mut sorted = BTreeMap::new(alloc);
    for (unit, share) in shares.iter() {
        if is_candidate(caller, unit, share) {
            let last = last_use(uses, unit);
            sorted.insert((last, unit.copy(alloc)?), share.blocks)?;
        }
    }
    Ok(sorted)
}

/// The shortest front of units that have as many blocks as are lacking; None where all together have too few.
pub fn shortest_front(
    alloc: Global,
    lacking: u64,
    sorted: &BTreeMap<(u64, Key), u64>,
) -> Result<Option<Keys>, AllocError>
    ensures { IfOk result (λ front. front ≡ shortest_front lacking sorted.now.entries) }
{
    let mut lacking = lacking;
    let mut items = Vec::new(alloc);
    for (candidate, blocks) in sorted.iter() {
        if lacking == 0 {
            return Ok(Some(Keys { items }));
        }
        items.push(candidate.1.copy(alloc)?)?;
        lacking = lacking.saturating_sub(*blocks);
    }
    if lacking > 0 {
        return Ok(None);
    }
    Ok(Some(Keys { items }))
}
