//! Whether there is room for a need, and which units are cleared for it.

ghost use Rattle.std.specs.Prelude.{◌≡◌, ◌+◌, ◌&&◌, ◌||◌, if◌then◌else◌, nat_le, not, IfOk, OnOk, map, is_none};
ghost use Rattle.std.specs.BTreeSet.{contains};
ghost use Rattle.std.specs.Cmp.Lexicographic.{slice_cmp};
ghost use Rattle.std.specs.Ordering.{nat_cmp};
ghost use Rattle.opfs_base.specs.Texts.{Text};
ghost use Rattle.std.specs.Option.{option_copied};
ghost use Rattle.opfs_base.specs.Units.{origin_of};
ghost use Rattle.opfs_machine.specs.Ordered.{insert_by};
ghost use Rattle.opfs_machine.specs.Victims.{use_cmp};
ghost use Rattle.opfs_machine.specs.Agents.{last_use};
ghost use Rattle.opfs_machine.specs.Contents.{in_bytes};
ghost use Rattle.opfs_machine.specs.Replies.{origin_in};
ghost use Rattle.opfs_machine.specs.Ruled.{some_or};
ghost use Rattle.opfs_machine.specs.Steps.{room_for};
ghost use Rattle.opfs_machine.specs.Rows.{taken_lock};
ghost use Rattle.opfs_base.specs.Measures.{is_root};
ghost use Rattle.opfs_machine.specs.Sums.{pool, charge, fits_quota, fits_area, fits_pool};
ghost use Rattle.opfs_machine.specs.Victims.{is_callers, none_taken, is_candidate, candidates, shortest_front, victims};
ghost use Rattle.opfs_rulings.specs.Known.{is_untaken};
ghost use Rattle.opfs_rulings.specs.Sets.{IsTakenSet};

use crate::board::Board;
use crate::bucket_rulings::is_persistent;
use crate::rows::PlacedRow;
use crate::sums::{freed, is_of};
use opfs_base::{Key, SharedBytes, origin_of, plus};
use opfs_hist::Refusal;
use opfs_locks::LockValue;
use opfs_machine::{Many, Need, Place, Row, Ruled};
use std::alloc::{AllocError, Global};
use std::collections::BTreeSet;

/// Whether a need has room beside what the pool holds.
fn fits_beside(state: &Board, held: u64, need: u64) -> Result<bool, AllocError>
    ensures { IfOk result (λ fits. fits ≡ (nat_le need 0 || nat_le (held + need) state.now.limits.blocks)) }
{
    if need == 0 {
        return Ok(true);
    }
    let after = plus(held, need)?;
    let fits = after <= state.held().limits.blocks;
    Ok(fits)
}

/// Whether the pool has room for a need.
fn fits_pool(state: &Board, need: u64) -> Result<bool, AllocError>
    ensures { IfOk result (λ fits. fits ≡ fits_pool in_bytes state.now need) }
{
    if need == 0 {
        return Ok(true);
    }
    let held = state.pool()?;
    let fits = fits_beside(state, held, need)?;
    Ok(fits)
}

/// When an origin was last used: the number of its last entry, 0 where there is none.
fn last_use(state: &Board, origin: &[u8]) -> u64
    ensures { result ≡ last_use state.now origin.now }
{
    for entry in &state.held().used.items {
        if origin.cmp(entry.0.as_bytes()).is_eq() {
            return entry.1;
        }
    }
    0
}

/// Whether a row has no taken lock.
fn is_untaken(row: &Row<SharedBytes>) -> bool
    ensures { result ≡ is_none (taken_lock row.now) }
{
    match row {
        Row::Directory => true,
        Row::File(file) => file.lock.0 == LockValue::Free,
    }
}

/// Adds a row's unit to those with a taken lock, where its lock is taken.
fn add_taken(alloc: Global, taken: &mut BTreeSet<Key>, entry: &PlacedRow) -> Result<(), AllocError>
    ensures { OnOk result ((unit : Text) → not (contains (slice_cmp nat_cmp) taken.new unit) ≡ (not (contains (slice_cmp nat_cmp) taken.old unit) && is_untaken unit entry.now)) }
{
    if !is_untaken(&entry.1) {
        taken.insert(entry.0.0.copy(alloc)?)?;
    }
    Ok(())
}

/// The units that have a file with a taken lock.
fn taken_units(alloc: Global, rows: &[PlacedRow]) -> Result<BTreeSet<Key>, AllocError>
    ensures { IfOk result (λ taken. IsTakenSet rows.now taken) }
{
    let mut taken = BTreeSet::new(alloc);
    for entry in rows {
        add_taken(alloc, &mut taken, entry)?;
    }
    Ok(taken)
}

/// Whether no file of a unit has a taken lock.
fn none_taken(state: &Board, taken: &BTreeSet<Key>, unit: &Key) -> bool
    requires { IsTakenSet state.now.rows taken.now }
    ensures { result ≡ none_taken state.now unit.now }
{
    !taken.contains(unit)
}

/// Whether a unit with a root may be cleared for a call.
fn is_candidate(state: &Board, taken: &BTreeSet<Key>, caller: Option<&Key>, unit: &Key) -> bool
    requires { IsTakenSet state.now.rows taken.now }
    ensures { result ≡ is_candidate state.now (option_copied caller.entry) unit.now }
{
    !is_persistent(state, unit) && !is_callers(caller, unit) && none_taken(state, taken, unit)
}

/// Whether a unit is of the caller's origin.
fn is_callers(caller: Option<&Key>, unit: &Key) -> bool
    ensures { result ≡ is_callers (option_copied caller.entry) unit.now }
{
    match caller {
        None => false,
        Some(origin) => is_of(origin.as_bytes(), unit),
    }
}

/// Whether a place is a unit's root.
fn is_root(place: &Place) -> bool
    ensures { result ≡ is_root place.now }
{
    place.1.names().is_empty()
}

/// Whether a row is the root of a unit that may be cleared.
fn is_root_candidate(
    state: &Board,
    taken: &BTreeSet<Key>,
    caller: Option<&Key>,
    entry: &PlacedRow,
) -> bool
    requires { IsTakenSet state.now.rows taken.now }
    ensures { result ≡ (is_root entry.now.0 && is_candidate state.now (option_copied caller.entry) entry.now.0.0) }
{
    is_root(&entry.0) && is_candidate(state, taken, caller, &entry.0.0)
}

/// Adds a unit with its last use in its place.
#[tactic(auto, using(crate::proofs::Taking::inserted))]
fn add_sorted(sorted: &mut BTreeSet<(u64, Key)>, unit: (u64, Key)) -> Result<(), AllocError>
    ensures { OnOk result (sorted.new.keys ≡ insert_by use_cmp unit sorted.old.keys) }
{
    sorted.insert(unit)?;
    Ok(())
}

/// Adds a candidate in its place, where a row is the root of one.
fn add_candidate(
    alloc: Global,
    state: &Board,
    taken: &BTreeSet<Key>,
    caller: Option<&Key>,
    sorted: &mut BTreeSet<(u64, Key)>,
    entry: &PlacedRow,
) -> Result<(), AllocError>
    requires { IsTakenSet state.now.rows taken.now }
    ensures { OnOk result (sorted.new.keys ≡ (if is_root entry.now.0 && is_candidate state.now (option_copied caller.entry) entry.now.0.0
        then insert_by use_cmp (last_use state.now (origin_of entry.now.0.0), entry.now.0.0) sorted.old.keys else sorted.old.keys)) }
{
    if is_root_candidate(state, taken, caller, entry) {
        let unit = &entry.0.0;
        let used = last_use(state, origin_of(unit.as_bytes()));
        add_sorted(sorted, (used, unit.copy(alloc)?))?;
    }
    Ok(())
}

/// The candidates for a call, each with its origin's last use, the one that was used longest ago first.
fn candidates(
    alloc: Global,
    state: &Board,
    taken: &BTreeSet<Key>,
    caller: Option<&Key>,
) -> Result<BTreeSet<(u64, Key)>, AllocError>
    requires { IsTakenSet state.now.rows taken.now }
    ensures { IfOk result (λ sorted. map (λ e. e.1) sorted.keys ≡ candidates state.now (option_copied caller.entry)) }
{
    let mut sorted = BTreeSet::new(alloc);
    for entry in state.held().rows.items.as_slice() {
        add_candidate(alloc, state, taken, caller, &mut sorted, entry)?;
    }
    Ok(sorted)
}

/// The shortest front of the units after whose clearing the need fits.
fn shortest_front(
    alloc: Global,
    state: &Board,
    need: u64,
    units: BTreeSet<(u64, Key)>,
) -> Result<Option<Many<Key>>, AllocError>
    ensures { IfOk result (λ front. front ≡ shortest_front in_bytes state.now need (map (λ e. e.1) units.keys)) }
{
    let mut left = units;
    let mut gone: Vec<Key> = Vec::new(alloc);
    let mut held = state.pool()?;
    while let Some((_, unit)) = left.pop_first() {
        if fits_beside(state, held, need)? {
            return Ok(Some(Many { items: gone }));
        }
        held = held.saturating_sub(freed(state, gone.as_slice(), &unit)?);
        gone.push(unit)?;
    }
    if fits_beside(state, held, need)? {
        return Ok(Some(Many { items: gone }));
    }
    Ok(None)
}

/// Whether a need is within the quota of its origin.
fn fits_quota(state: &Board, origin: &[u8], need: u64) -> Result<bool, AllocError>
    ensures { IfOk result (λ fits. fits ≡ fits_quota in_bytes state.now origin.now need) }
{
    if need == 0 {
        return Ok(true);
    }
    let after = plus(state.usage(origin)?, need)?;
    let fits = after <= state.held().limits.quota;
    Ok(fits)
}

/// Whether a growth of the charge is within the area.
fn fits_area(state: &Board, growth: u64) -> Result<bool, AllocError>
    ensures { IfOk result (λ fits. fits ≡ fits_area in_bytes state.now growth) }
{
    if growth == 0 {
        return Ok(true);
    }
    let after = plus(plus(state.charge()?, growth)?, 7)?;
    let fits = after <= state.held().limits.area;
    Ok(fits)
}

/// The text of the caller's origin; no text for an opaque one.
fn origin_in(caller: Option<&Key>) -> &[u8]
    ensures { result.now ≡ origin_in (option_copied caller.entry) }
{
    match caller {
        None => &[],
        Some(origin) => origin.as_bytes(),
    }
}

/// The units that are cleared for a call that needs so many blocks of the pool: none where they fit as it is.
#[tactic(auto, using(crate::proofs::Fronts::front_at_once))]
fn victims(
    alloc: Global,
    state: &Board,
    caller: Option<&Key>,
    need: u64,
) -> Result<Option<Many<Key>>, AllocError>
    ensures { IfOk result (λ units. units ≡ victims in_bytes state.now (option_copied caller.entry) need) }
{
    if fits_pool(state, need)? {
        return Ok(Some(Many {
            items: Vec::new(alloc),
        }));
    }
    let taken = taken_units(alloc, state.held().rows.items.as_slice())?;
    let sorted = candidates(alloc, state, &taken, caller)?;
    shortest_front(alloc, state, need, sorted)
}

/// The units that are cleared for a need, judged in this order: the quota, the area, the pool.
#[tactic(auto, unfolding(opfs_machine::specs::Machine::machine))]
pub fn room_for(alloc: Global, state: &Board, caller: Option<&Key>, need: Need) -> Ruled<Many<Key>>
    ensures { IfOk result (λ ruled. ruled ≡ room_for in_bytes state.now (option_copied caller.entry) need) }
{
    let origin = origin_in(caller);
    if !fits_quota(state, origin, need.quota)? {
        let used = state.usage(origin)?;
        return Ok(Err(Refusal::QuotaExceededError(used, need.quota, state.held().limits.quota)));
    }
    if !fits_area(state, need.charge)? {
        let charge = state.charge()?;
        return Ok(Err(Refusal::MetaFull(charge, need.charge, state.held().limits.area)));
    }
    pool_room(alloc, state, caller, need.pool)
}

/// The units that are cleared for a need of the pool.
fn pool_room(alloc: Global, state: &Board, caller: Option<&Key>, need: u64) -> Ruled<Many<Key>>
    ensures { IfOk result (λ ruled. ruled ≡ some_or (victims in_bytes state.now (option_copied caller.entry) need) (Refusal.DataFull (pool in_bytes state.now) need state.now.limits.blocks)) }
{
    match victims(alloc, state, caller, need)? {
        Some(units) => Ok(Ok(units)),
        None => {
            let pool = state.pool()?;
            Ok(Err(Refusal::DataFull(pool, need, state.held().limits.blocks)))
        }
    }
}
