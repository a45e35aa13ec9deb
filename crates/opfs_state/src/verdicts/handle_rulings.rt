//! What the calls on access handles refuse, or ask for.
#![tactic(auto, unfolding(opfs_machine::specs::Machine::machine))]

ghost use Rattle.std.specs.Prelude.{◌≡◌, IfOk};
ghost use Rattle.opfs_laws.specs.Lengths.Kept.{Kept};
ghost use Rattle.opfs_machine.specs.Contents.{in_lengths};
ghost use Rattle.opfs_machine.specs.Rulings.{create_sync_ruling, grow_handle_ruling, handle_ruling};
ghost use Rattle.opfs_state.specs.Verdicts.Callers.{IsAgent};

use crate::verdicts::agents::open_handle;
use crate::verdicts::locks::{is_given, lock_at};
use crate::verdicts::rulings::{NO_NEED, is_located};
use opfs_base::{Kind, Locator, blocks, times};
use opfs_hist::{Mode, Refusal};
use opfs_machine::{Need, Ruled, Sizes, want_of};
use opfs_state_rows::Standing;

/// createSyncAccessHandle.
pub fn create_sync_ruling(standing: &Standing, at: &Locator, mode: Mode) -> Result<Need, Refusal>
    requires { Kept standing.now.machine }
    ensures { result ≡ create_sync_ruling standing.now.machine at.now mode }
{
    if !is_located(standing, Kind::File, at) {
        return Err(Refusal::NotFoundError);
    }
    let lock = lock_at(standing, &at.key, &at.path);
    if !is_given(want_of(mode), lock) {
        return Err(Refusal::NoModificationAllowedError(lock.0, lock.1));
    }
    Ok(NO_NEED)
}

/// write and truncate of an access handle, to a length.
pub fn grow_handle_ruling(
    standing: &Standing,
    sizes: Sizes,
    agent: u32,
    row: u32,
    size: u64,
) -> Ruled<Need>
    requires agent { IsAgent standing.now.machine agent }
    requires kept { Kept standing.now.machine }
    ensures { IfOk result (λ ruled. ruled ≡ grow_handle_ruling in_lengths standing.now.machine sizes agent row size) }
{
    let Some(handle) = open_handle(standing, agent, row) else {
        return Ok(Err(Refusal::InvalidStateError));
    };
    if handle.mode == Mode::ReadOnly {
        let lock = lock_at(standing, &handle.file.0, &handle.file.1);
        return Ok(Err(Refusal::NoModificationAllowedError(lock.0, lock.1)));
    }
    let pool = handle.reserve.max(blocks(size)) - handle.reserve;
    let charge = times(8, pool)?;
    Ok(Ok(Need {
        quota: blocks(size).saturating_sub(blocks(sizes.size)),
        pool,
        charge,
    }))
}

/// A call on an open access handle that asks for nothing.
pub fn handle_ruling(standing: &Standing, agent: u32, row: u32) -> Result<Need, Refusal>
    requires { IsAgent standing.now.machine agent }
    ensures { result ≡ handle_ruling in_lengths standing.now.machine agent row }
{
    if open_handle(standing, agent, row).is_none() {
        return Err(Refusal::InvalidStateError);
    }
    Ok(NO_NEED)
}
