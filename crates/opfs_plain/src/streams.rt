//! What calls change of streams.

ghost use Rattle.std.specs.Prelude.{◌≡◌, ◌+◌, [], OnOk, length, if◌then◌else◌, IfOk};
ghost use Rattle.opfs_base.specs.Places.{place_of};
ghost use Rattle.opfs_machine.specs.Contents.{in_bytes, written_row, truncated_row, sought_row};
ghost use Rattle.opfs_machine.specs.Effects.{opens_stream, with_changed, closes_stream, aborts_stream};
ghost use Rattle.opfs_machine.specs.Rows.{file_at};
ghost use Rattle.opfs_machine.specs.Rulings.{first_reserve};
ghost use Rattle.opfs_rulings.specs.Known.{IsAgent, IsOwn};
ghost use Rattle.opfs_machine.specs.Agents.{agent_of, open_stream};
ghost use Rattle.opfs_machine.specs.declared.state.Sizes.{Sizes};

use crate::files::{lock, replace, unlock};
use crate::splicing::{no_bytes, resized, spliced};
use opfs_base::{Data, Locator, SharedBytes, copy_place, plus};
use opfs_locks::Want;
use opfs_machine::{FileRow, Own, StreamRow};
use opfs_rulings::{Board, agent, file_at, first_reserve, own_row, place_of};
use std::alloc::{AllocError, Global};

/// What a new stream has: its file's bytes where they are kept, else none.
fn first_buffer(
    alloc: Global,
    file: &FileRow<SharedBytes>,
    keep: bool,
) -> Result<SharedBytes, AllocError>
    ensures { IfOk result (λ bytes. bytes ≡ (if keep then file.now.present else [])) }
{
    if keep {
        let bytes = file.present.share()?;
        return Ok(bytes);
    }
    let none = no_bytes(alloc)?;
    Ok(none)
}

/// createWritable.
pub fn open_stream(
    alloc: Global,
    state: &mut Board,
    number: u32,
    at: &Locator,
    keep: bool,
) -> Result<(), AllocError>
    requires { IsAgent state.old number }
    ensures { OnOk result (state.new ≡ opens_stream in_bytes state.old number (place_of at.now)
        (first_reserve in_bytes state.old at.now keep) keep (file_at state.old (place_of at.now))) }
{
    let Some(file) = file_at(state, &at.key, &at.path) else {
        return Ok(());
    };
    let buffer = first_buffer(alloc, file, keep)?;
    let reserve = first_reserve(Some(file), keep);
    let place = place_of(alloc, at)?;
    lock(state, &place, Want::Shared)?;
    state.add_own(
        number,
        Own::Stream(StreamRow {
            file: place,
            buffer,
            offset: 0,
            reserve,
        }),
    )
}

/// A write of a stream.
fn write_row(
    alloc: Global,
    row: Own,
    position: u64,
    bytes: &Data,
    reserve: u64,
) -> Result<Own, AllocError>
    ensures { IfOk result (λ after. after ≡ written_row row position bytes.now reserve) }
{
    let Own::Stream(stream) = row else {
        return Ok(row);
    };
    let StreamRow {
        file,
        buffer,
        offset: _,
        reserve: _,
    } = stream;
    let buffer = spliced(alloc, buffer, position, bytes)?;
    let offset = plus(position, bytes.len())?;
    Ok(Own::Stream(StreamRow {
        file,
        buffer,
        offset,
        reserve,
    }))
}

/// write of a stream, with the reserve that it then has.
#[tactic(auto, unfolding(opfs_machine::specs::Effects::with_changed))]
pub fn write(
    alloc: Global,
    state: &mut Board,
    number: u32,
    row: u32,
    position: u64,
    bytes: &Data,
    reserve: u64,
) -> Result<(), AllocError>
    requires agent { IsAgent state.old number }
    requires row { IsOwn (agent_of state.old number) row }
    ensures { OnOk result (state.new ≡ with_changed state.old number row (λ r. written_row r position bytes.now reserve)) }
{
    let old = state.swap_own(number, row, Own::ClosedStream);
    let own = write_row(alloc, old, position, bytes, reserve)?;
    state.swap_own(number, row, own);
    Ok(())
}

/// A truncate of a stream.
fn truncate_row(alloc: Global, row: Own, size: u64, reserve: u64) -> Result<Own, AllocError>
    ensures { IfOk result (λ after. after ≡ truncated_row row size reserve) }
{
    let Own::Stream(stream) = row else {
        return Ok(row);
    };
    let StreamRow {
        file,
        buffer,
        offset,
        reserve: _,
    } = stream;
    let buffer = resized(alloc, buffer, size)?;
    Ok(Own::Stream(StreamRow {
        file,
        buffer,
        offset: offset.min(size),
        reserve,
    }))
}

/// truncate of a stream, with the reserve that it then has.
#[tactic(auto, unfolding(opfs_machine::specs::Effects::with_changed))]
pub fn truncate(
    alloc: Global,
    state: &mut Board,
    number: u32,
    row: u32,
    size: u64,
    reserve: u64,
) -> Result<(), AllocError>
    requires agent { IsAgent state.old number }
    requires row { IsOwn (agent_of state.old number) row }
    ensures { OnOk result (state.new ≡ with_changed state.old number row (λ r. truncated_row r size reserve)) }
{
    let old = state.swap_own(number, row, Own::ClosedStream);
    let own = truncate_row(alloc, old, size, reserve)?;
    state.swap_own(number, row, own);
    Ok(())
}

/// A seek of a stream.
fn seek_row(row: &mut Own, offset: u64)
    ensures { row.new ≡ sought_row row.old offset }
{
    if let Own::Stream(stream) = row {
        stream.offset = offset;
    }
}

/// seek of a stream.
#[tactic(auto, unfolding(opfs_machine::specs::Effects::with_changed))]
pub fn seek(state: &mut Board, number: u32, row: u32, offset: u64)
    requires agent { IsAgent state.old number }
    requires row { IsOwn (agent_of state.old number) row }
    ensures { state.new ≡ with_changed state.old number row (λ r. sought_row r offset) }
{
    let mut own = state.swap_own(number, row, Own::ClosedStream);
    seek_row(&mut own, offset);
    state.swap_own(number, row, own);
}

/// close of a stream: its file has the buffer, for good.
pub fn close_stream(
    alloc: Global,
    state: &mut Board,
    number: u32,
    row: u32,
) -> Result<(), AllocError>
    requires agent { IsAgent state.old number }
    requires row { IsOwn (agent_of state.old number) row }
    ensures { OnOk result ((z : Sizes) → state.new ≡ closes_stream in_bytes state.old z number row (open_stream in_bytes state.old number row)) }
{
    let Some(Own::Stream(stream)) = own_row(state, number, row) else {
        return Ok(());
    };
    let present = stream.buffer.share()?;
    let durable = stream.buffer.share()?;
    let place = copy_place(alloc, &stream.file.0, &stream.file.1)?;
    let stamp = agent(state, number).moment;
    replace(state, &place, present, durable, stamp);
    unlock(state, &place);
    state.swap_own(number, row, Own::ClosedStream);
    Ok(())
}

/// abort of a stream.
pub fn abort_stream(
    alloc: Global,
    state: &mut Board,
    number: u32,
    row: u32,
) -> Result<(), AllocError>
    requires agent { IsAgent state.old number }
    requires row { IsOwn (agent_of state.old number) row }
    ensures { OnOk result (state.new ≡ aborts_stream in_bytes state.old number row (open_stream in_bytes state.old number row)) }
{
    let Some(Own::Stream(stream)) = own_row(state, number, row) else {
        return Ok(());
    };
    let place = copy_place(alloc, &stream.file.0, &stream.file.1)?;
    unlock(state, &place);
    state.swap_own(number, row, Own::ClosedStream);
    Ok(())
}
