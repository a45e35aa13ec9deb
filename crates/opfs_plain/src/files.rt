//! What calls change of a file.

ghost use Rattle.std.specs.Prelude.{◌≡◌, OnOk, OnErr};
ghost use Rattle.opfs_machine.specs.Effects.{with_lock, unlocked, replaced, flushed, undone};
ghost use Rattle.opfs_locks.specs.Taking.{released};
ghost use Rattle.opfs_machine.specs.Rows.{change_at, changed_row, with_file};

use opfs_base::SharedBytes;
use opfs_locks::{LockValue, Want};
use opfs_machine::{Place, Row};
use opfs_rulings::{Board, taken};
use std::alloc::AllocError;

/// The lock after one holder released it.
fn released(lock: (LockValue, u32)) -> (LockValue, u32)
    ensures { result ≡ released lock }
{
    match lock {
        (LockValue::Free | LockValue::Exclusive, _) | (_, 1) => (LockValue::Free, 0),
        (value, count) => (value, count.saturating_sub(1)),
    }
}

/// Takes a file's lock as asked, where that is given.
fn lock_row(row: &mut Row<SharedBytes>, want: Want) -> Result<(), AllocError>
    ensures ok { OnOk result (row.new ≡ changed_row (with_lock want) row.old) }
    ensures err { OnErr result (row.new ≡ row.old) }
{
    if let Row::File(file) = row {
        if let Some(lock) = taken(want, file.lock)? {
            file.lock = lock;
        }
    }
    Ok(())
}

/// Takes a file's lock as asked, where that is given.
pub fn lock(state: &mut Board, place: &Place, want: Want) -> Result<(), AllocError>
    ensures { OnOk result (state.new ≡ with_file state.old place.now (with_lock want)) }
{
    let Some(at) = state.spot(place) else {
        return Ok(());
    };
    let mut row = state.swap_row(at, place, Row::Directory);
    let done = lock_row(&mut row, want);
    state.swap_row(at, place, row);
    done?;
    Ok(())
}

/// Releases a file's lock once.
fn unlock_row(row: &mut Row<SharedBytes>)
    ensures { row.new ≡ changed_row (unlocked) row.old }
{
    if let Row::File(file) = row {
        file.lock = released(file.lock);
    }
}

/// Releases a file's lock once.
pub fn unlock(state: &mut Board, place: &Place)
    ensures { state.new ≡ with_file state.old place.now (unlocked) }
{
    if let Some(at) = state.spot(place) {
        let mut row = state.swap_row(at, place, Row::Directory);
        unlock_row(&mut row);
        state.swap_row(at, place, row);
    }
}

/// Gives a file new bytes for good; they come twice, and take no memory here.
fn replace_row(row: &mut Row<SharedBytes>, present: SharedBytes, durable: SharedBytes, stamp: u64)
    requires { present ≡ durable }
    ensures { row.new ≡ changed_row (replaced present stamp) row.old }
{
    if let Row::File(file) = row {
        file.present = present;
        file.stamp = stamp;
        file.durable = durable;
        file.durable_stamp = stamp;
    }
}

/// Gives a file new bytes for good; they come twice, and take no memory here.
pub fn replace(
    state: &mut Board,
    place: &Place,
    present: SharedBytes,
    durable: SharedBytes,
    stamp: u64,
)
    requires { present ≡ durable }
    ensures { state.new ≡ with_file state.old place.now (replaced present stamp) }
{
    if let Some(at) = state.spot(place) {
        let mut row = state.swap_row(at, place, Row::Directory);
        replace_row(&mut row, present, durable, stamp);
        state.swap_row(at, place, row);
    }
}

/// Stores a file's present bytes for good.
fn flush_row(row: &mut Row<SharedBytes>) -> Result<(), AllocError>
    ensures ok { OnOk result (row.new ≡ changed_row (flushed) row.old) }
    ensures err { OnErr result (row.new ≡ row.old) }
{
    if let Row::File(file) = row {
        file.durable = file.present.share()?;
        file.durable_stamp = file.stamp;
    }
    Ok(())
}

/// Stores a file's present bytes for good.
pub fn flush(state: &mut Board, place: &Place) -> Result<(), AllocError>
    ensures { OnOk result (state.new ≡ with_file state.old place.now (flushed)) }
{
    let Some(at) = state.spot(place) else {
        return Ok(());
    };
    let mut row = state.swap_row(at, place, Row::Directory);
    let done = flush_row(&mut row);
    state.swap_row(at, place, row);
    done?;
    Ok(())
}

/// Gives a file its durable bytes again.
fn undo_row(row: &mut Row<SharedBytes>) -> Result<(), AllocError>
    ensures ok { OnOk result (row.new ≡ changed_row (undone) row.old) }
    ensures err { OnErr result (row.new ≡ row.old) }
{
    if let Row::File(file) = row {
        file.present = file.durable.share()?;
        file.stamp = file.durable_stamp;
    }
    Ok(())
}

/// Gives a file its durable bytes again.
pub fn undo(state: &mut Board, place: &Place) -> Result<(), AllocError>
    ensures { OnOk result (state.new ≡ with_file state.old place.now (undone)) }
{
    let Some(at) = state.spot(place) else {
        return Ok(());
    };
    let mut row = state.swap_row(at, place, Row::Directory);
    let done = undo_row(&mut row);
    state.swap_row(at, place, row);
    done?;
    Ok(())
}
