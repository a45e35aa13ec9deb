//! What the calls on access handles refuse, or ask for.
#![tactic(auto, unfolding(opfs_machine::specs::Machine::machine))]

ghost use Rattle.std.specs.Prelude.{◌≡◌, IfOk, option_map};
ghost use Rattle.std.specs.Option.{option_copied};
ghost use Rattle.opfs_machine.specs.Agents.{open_handle};
ghost use Rattle.opfs_rulings.specs.Known.{IsAgent};
ghost use Rattle.opfs_machine.specs.Contents.{in_bytes};
ghost use Rattle.opfs_machine.specs.Rulings.{create_sync_ruling, grow_handle_ruling, handle_ruling};

use crate::agents::own_row;
use crate::board::Board;
use crate::rulings::{NO_NEED, file_at, is_located, lock_of, taken};
use opfs_base::{Kind, Locator, blocks, times};
use opfs_hist::{Mode, Refusal};
use opfs_machine::{HandleRow, Need, Own, Ruled, Sizes, want_of};

/// createSyncAccessHandle.
pub fn create_sync_ruling(state: &Board, at: &Locator, mode: Mode) -> Ruled<Need>
    ensures { IfOk result (λ ruled. ruled ≡ create_sync_ruling state.now at.now mode) }
{
    if !is_located(state, Kind::File, at) {
        return Ok(Err(Refusal::NotFoundError));
    }
    let lock = lock_of(file_at(state, &at.key, &at.path));
    if taken(want_of(mode), lock)?.is_none() {
        return Ok(Err(Refusal::NoModificationAllowedError(lock.0, lock.1)));
    }
    Ok(Ok(NO_NEED))
}

/// The open access handle of a number.
pub fn open_handle(state: &Board, number: u32, row: u32) -> Option<&HandleRow>
    requires { IsAgent state.now number }
    ensures { option_map (λ h. record { file = h.file; mode = h.mode; reserve = h.reserve }) (option_copied result) ≡ open_handle in_bytes state.now number row }
{
    match own_row(state, number, row) {
        Some(Own::Handle(handle)) => Some(handle),
        _ => None,
    }
}

/// write and truncate of an access handle, to a length.
pub fn grow_handle_ruling(
    state: &Board,
    sizes: Sizes,
    number: u32,
    row: u32,
    size: u64,
) -> Ruled<Need>
    requires { IsAgent state.now number }
    ensures { IfOk result (λ ruled. ruled ≡ grow_handle_ruling in_bytes state.now sizes number row size) }
{
    let Some(handle) = open_handle(state, number, row) else {
        return Ok(Err(Refusal::InvalidStateError));
    };
    if handle.mode == Mode::ReadOnly {
        let lock = lock_of(file_at(state, &handle.file.0, &handle.file.1));
        return Ok(Err(Refusal::NoModificationAllowedError(lock.0, lock.1)));
    }
    let pool = handle.reserve.max(blocks(size)) - handle.reserve;
    let charge = times(8, pool)?;
    Ok(Ok(Need {
        quota: blocks(size).saturating_sub(blocks(sizes.size)),
        pool,
        charge,
    }))
}

/// A call on an open access handle that asks for nothing.
pub fn handle_ruling(state: &Board, number: u32, row: u32) -> Result<Need, Refusal>
    requires { IsAgent state.now number }
    ensures { result ≡ handle_ruling in_bytes state.now number row }
{
    if open_handle(state, number, row).is_none() {
        return Err(Refusal::InvalidStateError);
    }
    Ok(NO_NEED)
}
