//! What removeEntry refuses.
#![tactic(auto, unfolding(opfs_machine::specs::Machine::machine))]

ghost use Rattle.std.specs.Prelude.{◌≡◌, ◌||◌, IfOk, filter, not};
ghost use Rattle.opfs_base.specs.Places.{is_within};
ghost use Rattle.opfs_machine.specs.Rows.{has_children, first_locked};
ghost use Rattle.opfs_machine.specs.Rulings.{remove_entry_ruling};
ghost use Rattle.opfs_rulings.specs.Known.{lock_ruling};

use crate::board::Board;
use crate::rows::PlacedRow;
use crate::rulings::{NO_NEED, is_located};
use opfs_base::{
    Key, Kind, Locator, Path, SharedBytes, Text, child_name, is_valid_name, is_within,
};
use opfs_hist::Refusal;
use opfs_locks::LockValue;
use opfs_machine::{Need, Place, Row, Ruled, child_place};
use std::alloc::Global;

/// Whether a directory has children.
pub fn has_children(state: &Board, dir: &Place) -> bool
    ensures { result ≡ has_children state.now dir.now }
{
    state
        .held()
        .rows
        .items
        .iter()
        .any(|entry| child_name(&dir.0, &dir.1, &entry.0).is_some())
}

/// Whether what is below a place does not keep it.
fn may_go(state: &Board, place: &Place, recursive: bool) -> bool
    ensures { result ≡ (recursive || not (has_children state.now place.now)) }
{
    recursive || !has_children(state, place)
}

/// The first lock at a place or below it that is not open.
fn first_locked(rows: &[PlacedRow], place: &Place) -> Option<(LockValue, u32)>
    ensures { result ≡ first_locked (filter (λ e. is_within place.now e.0) rows.now) }
{
    for entry in rows {
        if let (true, Row::File(file)) = (is_within(&place.0, &place.1, &entry.0), &entry.1) {
            if file.lock.0 != LockValue::Free {
                return Some(file.lock);
            }
        }
    }
    None
}

/// Refuses with a lock.
fn none_locked(lock: Option<(LockValue, u32)>) -> Result<Need, Refusal>
    ensures { result ≡ lock_ruling lock }
{
    match lock {
        Some(lock) => Err(Refusal::NoModificationAllowedError(lock.0, lock.1)),
        None => Ok(NO_NEED),
    }
}

/// removeEntry.
pub fn remove_entry_ruling(
    alloc: Global,
    state: &Board,
    dir: &Locator,
    name: &Text,
    recursive: bool,
) -> Ruled<Need>
    ensures { IfOk result (λ ruled. ruled ≡ remove_entry_ruling state.now dir.now name.now recursive) }
{
    if !is_valid_name(name.as_str()) {
        return Ok(Err(Refusal::TypeError));
    }
    if !is_located(state, Kind::Directory, dir) {
        return Ok(Err(Refusal::NotFoundError));
    }
    let place = child_place(alloc, dir, name)?;
    if state.row_at(&place.0, &place.1).is_none() {
        return Ok(Err(Refusal::NotFoundError));
    }
    if !may_go(state, &place, recursive) {
        return Ok(Err(Refusal::InvalidModificationError));
    }
    let lock = first_locked(state.held().rows.items.as_slice(), &place);
    Ok(none_locked(lock))
}
