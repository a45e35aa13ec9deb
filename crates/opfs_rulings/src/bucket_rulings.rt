//! What the calls on buckets and tags refuse, or ask for.
#![tactic(auto, unfolding(opfs_machine::specs::Machine::machine))]

ghost use Rattle.std.specs.Prelude.{◌≡◌, ◌&&◌, ◌==◌, IfOk, nat_eq};
ghost use Rattle.opfs_machine.specs.Agents.{party_of, same_party, is_posted};
ghost use Rattle.opfs_machine.specs.Rulings.{persist_ruling, persisted_ruling, estimate_ruling, await_ruling};
ghost use Rattle.opfs_machine.specs.Sums.{is_persistent};
ghost use Rattle.opfs_rulings.specs.Known.{IsAgent};

use crate::agents::agent;
use crate::board::Board;
use crate::rulings::NO_NEED;
use opfs_base::{Key, Text, is_bucket_name, mode_charge, unit_of};
use opfs_hist::Refusal;
use opfs_machine::{Need, Ruled};
use std::alloc::Global;

/// Whether a unit's bucket is persistent.
pub fn is_persistent(state: &Board, unit: &Key) -> bool
    ensures { result ≡ is_persistent state.now unit.now }
{
    state
        .held()
        .persistent
        .items
        .iter()
        .any(|other| *unit == *other)
}

/// persist.
pub fn persist_ruling(alloc: Global, state: &Board, number: u32, bucket: &Text) -> Ruled<Need>
    requires { IsAgent state.now number }
    ensures { IfOk result (λ ruled. ruled ≡ persist_ruling state.now number bucket.now) }
{
    let agent = agent(state, number);
    let Some(origin) = &agent.key else {
        return Ok(Err(Refusal::TypeError));
    };
    if !is_bucket_name(bucket.as_str()) {
        return Ok(Err(Refusal::TypeError));
    }
    let unit = unit_of(alloc, origin, bucket.as_str())?;
    if !agent.grant || is_persistent(state, &unit) {
        return Ok(Ok(NO_NEED));
    }
    Ok(Ok(Need {
        quota: 0,
        pool: 0,
        charge: mode_charge(&unit)?,
    }))
}

/// persisted.
pub fn persisted_ruling(state: &Board, number: u32, bucket: &Text) -> Result<Need, Refusal>
    requires { IsAgent state.now number }
    ensures { result ≡ persisted_ruling state.now number bucket.now }
{
    if agent(state, number).key.is_none() || !is_bucket_name(bucket.as_str()) {
        return Err(Refusal::TypeError);
    }
    Ok(NO_NEED)
}

/// estimate.
pub fn estimate_ruling(state: &Board, number: u32) -> Result<Need, Refusal>
    requires { IsAgent state.now number }
    ensures { result ≡ estimate_ruling state.now number }
{
    if agent(state, number).key.is_none() {
        return Err(Refusal::TypeError);
    }
    Ok(NO_NEED)
}
