//! What calls change of access handles and their files.

ghost use Rattle.std.specs.Prelude.{◌≡◌, OnOk, IfOk};
ghost use Rattle.opfs_base.specs.Places.{place_of};
ghost use Rattle.opfs_machine.specs.Agents.{agent_of, adds_own, open_handle};
ghost use Rattle.opfs_machine.specs.Contents.{in_bytes, moved_row};
ghost use Rattle.opfs_machine.specs.Effects.{with_lock, with_changed, with_written, flushed, undone, changes_file, flushes, closes_handle, discards};
ghost use Rattle.opfs_machine.specs.Rows.{changed_row, change_at, with_file};
ghost use Rattle.opfs_machine.specs.Rulings.{want_of};
ghost use Rattle.opfs_machine.specs.declared.state.Sizes.{Sizes};
ghost use Rattle.opfs_rulings.specs.Known.{IsAgent, IsOwn};
ghost use Rattle.opfs_splice.specs.Splicing.{splice, resize};

use crate::files::{flush, lock, undo, unlock};
use crate::splicing::{no_bytes, resized, spliced};
use opfs_base::{Data, Locator, SharedBytes, blocks, copy_place};
use opfs_hist::Mode;
use opfs_machine::{HandleRow, Own, Place, Row, Sizes, want_of};
use opfs_rulings::{Board, agent, open_handle, place_of};
use std::alloc::{AllocError, Global};
use std::mem;

/// createSyncAccessHandle.
pub fn create_sync(
    alloc: Global,
    state: &mut Board,
    number: u32,
    at: &Locator,
    mode: Mode,
) -> Result<(), AllocError>
    requires { IsAgent state.old number }
    ensures { OnOk result (state.new ≡ adds_own (with_file state.old (place_of at.now) (with_lock (want_of mode))) number (in_bytes.handle (place_of at.now) mode)) }
{
    let place = place_of(alloc, at)?;
    lock(state, &place, want_of(mode))?;
    state.add_own(
        number,
        Own::Handle(HandleRow {
            file: place,
            mode,
            cursor: 0,
            reserve: 0,
        }),
    )
}

/// An access handle with another cursor and reserve.
fn move_row(row: &mut Own, cursor: u64, reserve: u64)
    ensures { row.new ≡ moved_row row.old cursor reserve }
{
    if let Own::Handle(handle) = row {
        handle.cursor = cursor;
        handle.reserve = reserve;
    }
}

/// Gives an access handle another cursor and reserve.
#[tactic(auto, unfolding(opfs_machine::specs::Effects::with_changed))]
pub fn move_handle(state: &mut Board, number: u32, row: u32, cursor: u64, reserve: u64)
    requires agent { IsAgent state.old number }
    requires row { IsOwn (agent_of state.old number) row }
    ensures { state.new ≡ with_changed state.old number row (λ r. moved_row r cursor reserve) }
{
    let mut own = state.swap_own(number, row, Own::ClosedHandle);
    move_row(&mut own, cursor, reserve);
    state.swap_own(number, row, own);
}

/// A file with bytes written at a position.
fn overwrite_row(
    alloc: Global,
    row: &mut Row<SharedBytes>,
    position: u64,
    bytes: &Data,
    stamp: u64,
) -> Result<(), AllocError>
    ensures { OnOk result (row.new ≡ changed_row (λ f. record f { present = splice f.present position bytes.now; stamp = stamp }) row.old) }
{
    if let Row::File(file) = row {
        let empty = no_bytes(alloc)?;
        let old = mem::replace(&mut file.present, empty);
        file.present = spliced(alloc, old, position, bytes)?;
        file.stamp = stamp;
    }
    Ok(())
}

/// A file cut or extended to a size.
fn cut_row(
    alloc: Global,
    row: &mut Row<SharedBytes>,
    size: u64,
    stamp: u64,
) -> Result<(), AllocError>
    ensures { OnOk result (row.new ≡ changed_row (λ f. record f { present = resize f.present size; stamp = stamp }) row.old) }
{
    if let Row::File(file) = row {
        let empty = no_bytes(alloc)?;
        let old = mem::replace(&mut file.present, empty);
        file.present = resized(alloc, old, size)?;
        file.stamp = stamp;
    }
    Ok(())
}

/// Writes bytes of the file at a place.
fn overwrite(
    alloc: Global,
    state: &mut Board,
    place: &Place,
    position: u64,
    bytes: &Data,
    stamp: u64,
) -> Result<(), AllocError>
    ensures { OnOk result (state.new ≡ with_file state.old place.now (λ f. record f { present = splice f.present position bytes.now; stamp = stamp })) }
{
    let Some(at) = state.spot(place) else {
        return Ok(());
    };
    let mut row = state.swap_row(at, place, Row::Directory);
    let done = overwrite_row(alloc, &mut row, position, bytes, stamp);
    state.swap_row(at, place, row);
    done?;
    Ok(())
}

/// Cuts or extends the file at a place.
fn cut(
    alloc: Global,
    state: &mut Board,
    place: &Place,
    size: u64,
    stamp: u64,
) -> Result<(), AllocError>
    ensures { OnOk result (state.new ≡ with_file state.old place.now (λ f. record f { present = resize f.present size; stamp = stamp })) }
{
    let Some(at) = state.spot(place) else {
        return Ok(());
    };
    let mut row = state.swap_row(at, place, Row::Directory);
    let done = cut_row(alloc, &mut row, size, stamp);
    state.swap_row(at, place, row);
    done?;
    Ok(())
}

/// Where a write of an access handle leaves it.
#[derive(Clone, Copy)]
pub struct Reached {
    /// Where the next read or write begins, in bytes.
    pub cursor: u64,
    /// How many bytes its file has.
    pub size: u64,
}

/// write of an access handle.
#[tactic(auto, unfolding(opfs_machine::specs::Effects::changes_file))]
pub fn write_file(
    alloc: Global,
    state: &mut Board,
    number: u32,
    row: u32,
    position: u64,
    bytes: &Data,
    reached: Reached,
) -> Result<(), AllocError>
    requires agent { IsAgent state.old number }
    requires row { IsOwn (agent_of state.old number) row }
    ensures { OnOk result (state.new ≡ changes_file in_bytes state.old number row (λ f. splice f position bytes.now) reached.cursor reached.size (open_handle in_bytes state.old number row)) }
{
    let Some(handle) = open_handle(state, number, row) else {
        return Ok(());
    };
    let place = copy_place(alloc, &handle.file.0, &handle.file.1)?;
    let reserve = handle.reserve.max(blocks(reached.size));
    let stamp = agent(state, number).moment;
    overwrite(alloc, state, &place, position, bytes, stamp)?;
    move_handle(state, number, row, reached.cursor, reserve);
    Ok(())
}

/// truncate of an access handle.
#[tactic(auto, unfolding(opfs_machine::specs::Effects::changes_file))]
pub fn cut_file(
    alloc: Global,
    state: &mut Board,
    number: u32,
    row: u32,
    cursor: u64,
    size: u64,
) -> Result<(), AllocError>
    requires agent { IsAgent state.old number }
    requires row { IsOwn (agent_of state.old number) row }
    ensures { OnOk result (state.new ≡ changes_file in_bytes state.old number row (λ f. resize f size) cursor size (open_handle in_bytes state.old number row)) }
{
    let Some(handle) = open_handle(state, number, row) else {
        return Ok(());
    };
    let place = copy_place(alloc, &handle.file.0, &handle.file.1)?;
    let reserve = handle.reserve.max(blocks(size));
    let stamp = agent(state, number).moment;
    cut(alloc, state, &place, size, stamp)?;
    move_handle(state, number, row, cursor, reserve);
    Ok(())
}

/// Stores a file's present bytes, where the access handle may write.
fn flush_written(state: &mut Board, mode: Mode, place: &Place) -> Result<(), AllocError>
    ensures { OnOk result (state.new ≡ with_written state.old mode place.now flushed) }
{
    match mode {
        Mode::ReadOnly => Ok(()),
        Mode::ReadWrite => flush(state, place),
    }
}

/// Gives a file its durable bytes again, where the access handle may write.
fn undo_written(state: &mut Board, mode: Mode, place: &Place) -> Result<(), AllocError>
    ensures { OnOk result (state.new ≡ with_written state.old mode place.now undone) }
{
    match mode {
        Mode::ReadOnly => Ok(()),
        Mode::ReadWrite => undo(state, place),
    }
}

/// flush of an access handle, whose cursor is told.
pub fn flush_handle(
    alloc: Global,
    state: &mut Board,
    sizes: Sizes,
    number: u32,
    row: u32,
) -> Result<(), AllocError>
    requires agent { IsAgent state.old number }
    requires row { IsOwn (agent_of state.old number) row }
    ensures { OnOk result (state.new ≡ flushes in_bytes state.old sizes number row (open_handle in_bytes state.old number row)) }
{
    let Some(handle) = open_handle(state, number, row) else {
        return Ok(());
    };
    let mode = handle.mode;
    let place = copy_place(alloc, &handle.file.0, &handle.file.1)?;
    flush_written(state, mode, &place)?;
    move_handle(state, number, row, sizes.position, 0);
    Ok(())
}

/// close of an access handle.
pub fn close_handle(
    alloc: Global,
    state: &mut Board,
    number: u32,
    row: u32,
) -> Result<(), AllocError>
    requires agent { IsAgent state.old number }
    requires row { IsOwn (agent_of state.old number) row }
    ensures { OnOk result (state.new ≡ closes_handle in_bytes state.old number row (open_handle in_bytes state.old number row)) }
{
    let Some(handle) = open_handle(state, number, row) else {
        return Ok(());
    };
    let mode = handle.mode;
    let place = copy_place(alloc, &handle.file.0, &handle.file.1)?;
    flush_written(state, mode, &place)?;
    unlock(state, &place);
    state.swap_own(number, row, Own::ClosedHandle);
    Ok(())
}

/// What a script's end does to an open access handle.
pub fn discard_handle(
    alloc: Global,
    state: &mut Board,
    number: u32,
    row: u32,
) -> Result<(), AllocError>
    requires agent { IsAgent state.old number }
    requires row { IsOwn (agent_of state.old number) row }
    ensures { OnOk result (state.new ≡ discards in_bytes state.old number row (open_handle in_bytes state.old number row)) }
{
    let Some(handle) = open_handle(state, number, row) else {
        return Ok(());
    };
    let mode = handle.mode;
    let place = copy_place(alloc, &handle.file.0, &handle.file.1)?;
    undo_written(state, mode, &place)?;
    unlock(state, &place);
    state.swap_own(number, row, Own::ClosedHandle);
    Ok(())
}
