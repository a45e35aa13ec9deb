//! What the calls on buckets and tags refuse, or ask for.
#![tactic(auto, unfolding(opfs_machine::specs::Machine::machine))]

ghost use Rattle.std.specs.Prelude.{◌≡◌, IfOk};
ghost use Rattle.opfs_machine.specs.Rulings.{persist_ruling, persisted_ruling, estimate_ruling, await_ruling};
ghost use Rattle.opfs_state.specs.Verdicts.Callers.{IsAgent};

use crate::verdicts::agents::{has_grant, is_posted, key};
use crate::verdicts::rulings::NO_NEED;
use opfs_base::{Text, is_bucket_name, mode_charge, unit_of};
use opfs_hist::Refusal;
use opfs_machine::{Need, Ruled};
use opfs_state_rows::Standing;
use std::alloc::Global;

/// persist.
pub fn persist_ruling(alloc: Global, standing: &Standing, agent: u32, bucket: &Text) -> Ruled<Need>
    requires { IsAgent standing.now.machine agent }
    ensures { IfOk result (λ ruled. ruled ≡ persist_ruling standing.now.machine agent bucket.now) }
{
    let Some(origin) = key(standing, agent) else {
        return Ok(Err(Refusal::TypeError));
    };
    if !is_bucket_name(bucket.as_str()) {
        return Ok(Err(Refusal::TypeError));
    }
    let unit = unit_of(alloc, origin, bucket.as_str())?;
    if !has_grant(standing, agent) || standing.is_persistent(&unit) {
        return Ok(Ok(NO_NEED));
    }
    Ok(Ok(Need {
        quota: 0,
        pool: 0,
        charge: mode_charge(&unit)?,
    }))
}

/// persisted.
pub fn persisted_ruling(standing: &Standing, agent: u32, bucket: &Text) -> Result<Need, Refusal>
    requires { IsAgent standing.now.machine agent }
    ensures { result ≡ persisted_ruling standing.now.machine agent bucket.now }
{
    if key(standing, agent).is_none() || !is_bucket_name(bucket.as_str()) {
        return Err(Refusal::TypeError);
    }
    Ok(NO_NEED)
}

/// estimate.
pub fn estimate_ruling(standing: &Standing, agent: u32) -> Result<Need, Refusal>
    requires { IsAgent standing.now.machine agent }
    ensures { result ≡ estimate_ruling standing.now.machine agent }
{
    if key(standing, agent).is_none() {
        return Err(Refusal::TypeError);
    }
    Ok(NO_NEED)
}

/// await answers Stuck where its tag is not posted.
pub fn await_ruling(standing: &Standing, agent: u32, tag: &Text) -> Result<Need, Refusal>
    requires { IsAgent standing.now.machine agent }
    ensures { result ≡ await_ruling standing.now.machine agent tag.now }
{
    if !is_posted(standing, agent, tag) {
        return Err(Refusal::Stuck);
    }
    Ok(NO_NEED)
}
