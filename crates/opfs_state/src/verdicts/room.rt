//! Whether there is room for a need, and which units are cleared for it.

ghost use Rattle.std.specs.Prelude.{◌≡◌, ◌+◌, ◌||◌, nat_le, IfOk};
ghost use Rattle.std.specs.Option.{option_copied};
ghost use Rattle.opfs_laws.specs.Lengths.Kept.{Kept};
ghost use Rattle.opfs_machine.specs.Contents.{in_lengths};
ghost use Rattle.opfs_machine.specs.Replies.{origin_in};
ghost use Rattle.opfs_machine.specs.Ruled.{some_or};
ghost use Rattle.opfs_machine.specs.Steps.{room_for};
ghost use Rattle.opfs_machine.specs.Sums.{usage, pool, charge, fits_quota, fits_area, fits_pool};
ghost use Rattle.opfs_machine.specs.Victims.{victims};
ghost use Rattle.opfs_hist.specs.declared.reply.Refusal.TheVariants as refusal;
ghost use Rattle.opfs_state.specs.Verdicts.Callers.{IsOrigin, AsksByKey};

use opfs_base::Key;
use opfs_hist::Refusal;
use opfs_machine::{Need, Ruled};
use opfs_pool::Keys;
use opfs_state_rows::Standing;
use std::alloc::{AllocError, Global};

/// The blocks that the caller's origin uses; those of no origin for a caller without a key.
fn usage(alloc: Global, standing: &Standing, caller: Option<&Key>) -> Result<u64, AllocError>
    requires { IsOrigin (option_copied caller) }
    ensures { IfOk result (λ used. used ≡ usage in_lengths standing.now.machine (origin_in (option_copied caller.entry))) }
{
    match caller {
        Some(key) => Ok(standing.usage(key)),
        None => {
            let none = Key::of_text(alloc, "")?;
            Ok(standing.usage(&none))
        }
    }
}

/// Whether a need is within a quota of which so much is used.
fn fits(used: u64, need: u64, quota: u64) -> bool
    ensures { result ≡ (nat_le need 0 || nat_le (used + need) quota) }
{
    need == 0 || need <= quota.saturating_sub(used)
}

/// Whether a growth of the charge is within the area.
fn fits_area(standing: &Standing, growth: u64) -> bool
    requires { Kept standing.now.machine }
    ensures { result ≡ fits_area in_lengths standing.now.machine growth }
{
    let area = standing.register().limits().area;
    growth == 0 || growth <= area - standing.charge() - 7
}

/// Whether so many blocks more are there.
fn fits_pool(standing: &Standing, need: u64) -> bool
    ensures { result ≡ fits_pool in_lengths standing.now.machine need }
{
    need == 0 || standing.pool().room(need)
}

/// The units that are cleared for a call that needs so many blocks of the pool: none where they fit as it is.
fn victims(
    alloc: Global,
    standing: &Standing,
    caller: Option<&Key>,
    need: u64,
) -> Result<Option<Keys>, AllocError>
    requires origin { IsOrigin (option_copied caller) }
    requires key { AsksByKey (option_copied caller) need }
    requires kept { Kept standing.now.machine }
    ensures { IfOk result (λ units. units ≡ victims in_lengths standing.now.machine (option_copied caller.entry) need) }
{
    if fits_pool(standing, need) {
        return Ok(Some(Keys::from_vec(Vec::new(alloc))));
    }
    let Some(key) = caller else {
        unreachable!();
    };
    let uses = standing.register().uses(alloc)?;
    let units = standing.pool().victims(key, need, uses.as_slice())?;
    Ok(units)
}

/// The units that are cleared for a need of the pool.
fn pool_room(alloc: Global, standing: &Standing, caller: Option<&Key>, need: u64) -> Ruled<Keys>
    requires origin { IsOrigin (option_copied caller) }
    requires key { AsksByKey (option_copied caller) need }
    requires kept { Kept standing.now.machine }
    ensures { IfOk result (λ ruled. ruled ≡ some_or (victims in_lengths standing.now.machine (option_copied caller.entry) need) (refusal.DataFull (pool in_lengths standing.now.machine) need standing.now.machine.limits.blocks)) }
{
    match victims(alloc, standing, caller, need)? {
        Some(units) => Ok(Ok(units)),
        None => {
            let blocks = standing.register().limits().blocks;
            Ok(Err(Refusal::DataFull(standing.held(), need, blocks)))
        }
    }
}

/// The units that are cleared for a need, judged in this order: the quota, the area, the pool.
#[tactic(auto, unfolding(opfs_machine::specs::Machine::machine))]
pub fn room_for(alloc: Global, standing: &Standing, caller: Option<&Key>, need: Need) -> Ruled<Keys>
    requires origin { IsOrigin (option_copied caller) }
    requires key { AsksByKey (option_copied caller) need.pool }
    requires kept { Kept standing.now.machine }
    ensures { IfOk result (λ ruled. ruled ≡ room_for in_lengths standing.now.machine (option_copied caller.entry) need) }
{
    let used = usage(alloc, standing, caller)?;
    let quota = standing.register().limits().quota;
    if !fits(used, need.quota, quota) {
        return Ok(Err(Refusal::QuotaExceededError(used, need.quota, quota)));
    }
    if !fits_area(standing, need.charge) {
        let area = standing.register().limits().area;
        return Ok(Err(Refusal::MetaFull(standing.charge(), need.charge, area)));
    }
    pool_room(alloc, standing, caller, need.pool)
}
