//! What removeEntry refuses.
#![tactic(auto, unfolding(opfs_machine::specs::Machine::machine))]

ghost use Rattle.std.specs.Prelude.{◌≡◌, ◌||◌, None, IfOk, not};
ghost use Rattle.opfs_machine.specs.Rows.{has_children};
ghost use Rattle.opfs_machine.specs.Rulings.{remove_entry_ruling};
ghost use Rattle.opfs_state.specs.Verdicts.Judged.{lock_ruling};

use crate::verdicts::rulings::{NO_NEED, is_located};
use opfs_base::{Kind, Locator, Text, is_valid_name};
use opfs_hist::Refusal;
use opfs_locks::LockValue;
use opfs_machine::{Need, Place, Ruled, child_place};
use opfs_state_rows::Standing;
use std::alloc::Global;

/// Whether what is below a place does not keep it.
fn may_go(standing: &Standing, place: &Place, recursive: bool) -> bool
    requires { standing.now.prepared.place ≡ None }
    ensures { result ≡ (recursive || not (has_children standing.now.machine place.now)) }
{
    recursive || !standing.has_children(&place.0, &place.1)
}

/// Refuses with a lock.
fn none_locked(lock: Option<(LockValue, u32)>) -> Result<Need, Refusal>
    ensures { result ≡ lock_ruling lock }
{
    match lock {
        Some(lock) => Err(Refusal::NoModificationAllowedError(lock.0, lock.1)),
        None => Ok(NO_NEED),
    }
}

/// removeEntry.
pub fn remove_entry_ruling(
    alloc: Global,
    standing: &Standing,
    dir: &Locator,
    name: &Text,
    recursive: bool,
) -> Ruled<Need>
    requires { standing.now.prepared.place ≡ None }
    ensures { IfOk result (λ ruled. ruled ≡ remove_entry_ruling standing.now.machine dir.now name.now recursive) }
{
    if !is_valid_name(name.as_str()) {
        return Ok(Err(Refusal::TypeError));
    }
    if !is_located(standing, Kind::Directory, dir) {
        return Ok(Err(Refusal::NotFoundError));
    }
    let place = child_place(alloc, dir, name)?;
    if standing.kind(&place.0, &place.1).is_none() {
        return Ok(Err(Refusal::NotFoundError));
    }
    if !may_go(standing, &place, recursive) {
        return Ok(Err(Refusal::InvalidModificationError));
    }
    Ok(none_locked(standing.first_locked(&place.0, &place.1)))
}
