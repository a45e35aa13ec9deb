//! What each call changes where it is not refused.
#![tactic(auto, unfolding(opfs_machine::specs::Machine::machine))]

ghost use Rattle.std.specs.Prelude.{◌≡◌, ◌+◌, OnOk, IfOk, min, length};
ghost use Rattle.opfs_machine.specs.Contents.{in_bytes};
ghost use Rattle.opfs_machine.specs.Effects.{effect, cursor_after_read};
ghost use Rattle.opfs_machine.specs.Rulings.{start_of};
ghost use Rattle.opfs_rulings.specs.Known.{IsAgent, IsOwn};
ghost use Rattle.opfs_plain.specs.Changing.{IsFitting};
ghost use Rattle.opfs_machine.specs.Agents.{agent_of};
ghost use Rattle.opfs_hist.specs.declared.op.Op.TheVariants.{Write, Truncate, SyncRead, SyncWrite, SyncTruncate, Wait};

use crate::entries::{add_iterator, advance, make_child, open_bucket, remove_child, take_snapshot};
use crate::handles::{
    Reached, close_handle, create_sync, cut_file, discard_handle, flush_handle, move_handle,
    write_file,
};
use crate::marks::{persist, post};
use crate::streams::{abort_stream, close_stream, open_stream, seek, truncate, write};
use opfs_base::{Bytes, Data, Kind, Text, blocks, plus};
use opfs_hist::Op;
use opfs_machine::{Sizes, size_written};
use opfs_rulings::{Board, reserve_at};
use std::alloc::{AllocError, Global};

/// Where a read of an access handle leaves the cursor.
fn cursor_after_read(sizes: Sizes, len: u64, at: Option<u64>) -> Result<u64, AllocError>
    ensures { IfOk result (λ cursor. cursor ≡ cursor_after_read sizes len at) }
{
    let start = at.unwrap_or(sizes.position);
    let end = plus(start, len.min(sizes.size.saturating_sub(start)))?;
    Ok(sizes.size.min(end))
}

/// write and truncate of streams.
fn write_stream(
    alloc: Global,
    state: &mut Board,
    sizes: Sizes,
    number: u32,
    row: u32,
    bytes: &Data,
    position: Option<u64>,
) -> Result<(), AllocError>
    requires agent { IsAgent state.old number }
    requires row { IsOwn (agent_of state.old number) row }
    ensures { OnOk result (state.new ≡ effect in_bytes state.old sizes number (Write row bytes.now position)) }
{
    let size = size_written(sizes, position, bytes)?;
    let reserve = reserve_at(state, number, row).max(blocks(size));
    write(
        alloc,
        state,
        number,
        row,
        position.unwrap_or(sizes.position),
        bytes,
        reserve,
    )
}

/// truncate of a stream.
fn truncate_stream(
    alloc: Global,
    state: &mut Board,
    sizes: Sizes,
    number: u32,
    row: u32,
    size: u64,
) -> Result<(), AllocError>
    requires agent { IsAgent state.old number }
    requires row { IsOwn (agent_of state.old number) row }
    ensures { OnOk result (state.new ≡ effect in_bytes state.old sizes number (Truncate row size)) }
{
    let reserve = reserve_at(state, number, row).max(blocks(size));
    truncate(alloc, state, number, row, size, reserve)
}

/// read of an access handle, which moves its cursor.
fn read_handle(
    state: &mut Board,
    sizes: Sizes,
    number: u32,
    row: u32,
    len: u64,
    at: Option<u64>,
) -> Result<(), AllocError>
    requires agent { IsAgent state.old number }
    requires row { IsOwn (agent_of state.old number) row }
    ensures { OnOk result (state.new ≡ effect in_bytes state.old sizes number (SyncRead row len at)) }
{
    let cursor = cursor_after_read(sizes, len, at)?;
    let reserve = reserve_at(state, number, row);
    move_handle(state, number, row, cursor, reserve);
    Ok(())
}

/// write of an access handle.
fn write_handle(
    alloc: Global,
    state: &mut Board,
    sizes: Sizes,
    number: u32,
    row: u32,
    bytes: &Data,
    at: Option<u64>,
) -> Result<(), AllocError>
    requires agent { IsAgent state.old number }
    requires row { IsOwn (agent_of state.old number) row }
    ensures { OnOk result (state.new ≡ effect in_bytes state.old sizes number (SyncWrite row bytes.now at)) }
{
    let size = size_written(sizes, at, bytes)?;
    let start = at.unwrap_or(sizes.position);
    let cursor = plus(start, bytes.len())?;
    write_file(
        alloc,
        state,
        number,
        row,
        start,
        bytes,
        Reached { cursor, size },
    )
}

/// truncate of an access handle.
fn truncate_handle(
    alloc: Global,
    state: &mut Board,
    sizes: Sizes,
    number: u32,
    row: u32,
    size: u64,
) -> Result<(), AllocError>
    requires agent { IsAgent state.old number }
    requires row { IsOwn (agent_of state.old number) row }
    ensures { OnOk result (state.new ≡ effect in_bytes state.old sizes number (SyncTruncate row size)) }
{
    let cursor = sizes.position.min(size);
    cut_file(alloc, state, number, row, cursor, size)
}

/// wait of an agent for a tag.
fn wait(
    alloc: Global,
    state: &mut Board,
    sizes: Sizes,
    number: u32,
    tag: &Text,
) -> Result<(), AllocError>
    requires { IsAgent state.old number }
    ensures { OnOk result (state.new ≡ effect in_bytes state.old sizes number (Wait tag.now)) }
{
    let tag = Bytes::copy_of(alloc, tag.as_bytes())?;
    state.set_waiting(number, Some(tag));
    Ok(())
}

/// What a call changes where it is not refused, its own count aside.
#[tactic(auto, unfolding(opfs_machine::specs::Machine::machine, crate::specs::Changing::IsFittingFor))]
pub fn apply(
    alloc: Global,
    state: &mut Board,
    sizes: Sizes,
    number: u32,
    op: &Op,
) -> Result<(), AllocError>
    requires agent { IsAgent state.old number }
    requires fitting { IsFitting state.old number op.now }
    ensures { OnOk result (state.new ≡ effect in_bytes state.old sizes number op.now) }
{
    match op {
        Op::GetDirectory { bucket } => open_bucket(alloc, state, number, bucket)?,
        Op::GetDirectoryHandle { dir, name, .. } => make_child(
            alloc,
            state,
            number,
            Kind::Directory,
            dir,
            name,
        )?,
        Op::GetFileHandle { dir, name, .. } => make_child(
            alloc,
            state,
            number,
            Kind::File,
            dir,
            name,
        )?,
        Op::RemoveEntry { dir, name, .. } => remove_child(alloc, state, dir, name)?,
        Op::Values { dir } => add_iterator(alloc, state, number, dir)?,
        Op::Next { row, dir } => advance(alloc, state, number, *row, dir)?,
        Op::GetFile { file } => take_snapshot(state, number, file)?,
        Op::CreateWritable { file, keep } => open_stream(alloc, state, number, file, *keep)?,
        Op::Write {
            row,
            bytes,
            position,
        } => write_stream(alloc, state, sizes, number, *row, bytes, *position)?,
        Op::Seek { row, position } => seek(state, number, *row, *position),
        Op::Truncate { row, size } => truncate_stream(alloc, state, sizes, number, *row, *size)?,
        Op::Close { row } => close_stream(alloc, state, number, *row)?,
        Op::Abort { row } => abort_stream(alloc, state, number, *row)?,
        Op::CreateSyncAccessHandle { file, mode } => create_sync(
            alloc, state, number, file, *mode,
        )?,
        Op::SyncRead { row, len, at } => read_handle(state, sizes, number, *row, *len, *at)?,
        Op::SyncWrite { row, bytes, at } => write_handle(
            alloc, state, sizes, number, *row, bytes, *at,
        )?,
        Op::SyncTruncate { row, size } => truncate_handle(
            alloc, state, sizes, number, *row, *size,
        )?,
        Op::SyncFlush { row } => flush_handle(alloc, state, sizes, number, *row)?,
        Op::SyncClose { row } => close_handle(alloc, state, number, *row)?,
        Op::Discard { row } => discard_handle(alloc, state, number, *row)?,
        Op::Persist { bucket } => persist(alloc, state, number, bucket)?,
        Op::Moment { ms } => state.set_moment(number, *ms),
        Op::Post { tag } => post(alloc, state, number, tag)?,
        Op::Await { .. } => state.set_waiting(number, None),
        Op::Wait { tag } => wait(alloc, state, sizes, number, tag)?,
        Op::End => state.end(number),
        _ => {}
    }
    Ok(())
}
