//! Whether a call may have an entry.
#![tactic(auto, unfolding(opfs_machine::specs::Machine::machine))]

ghost use Rattle.std.specs.Prelude.{◌≡◌, false, IsTrue};
ghost use Rattle.std.specs.Option.{option_copied};
ghost use Rattle.opfs_base.specs.Places.{same_locator};
ghost use Rattle.opfs_machine.specs.Agents.{agent_of, own_of, has_open_row, is_open_row};
ghost use Rattle.opfs_machine.specs.Contents.{in_bytes, outline_of};
ghost use Rattle.opfs_machine.specs.Histories.{is_own, is_stream, is_handle, is_open_handle, is_snapshot, is_iterator_of, asks_stuck, may_enter};
ghost use Rattle.opfs_rulings.specs.Known.{IsAgent};

use crate::agents::{agent, own_row};
use crate::board::Board;
use crate::sums::is_of;
use opfs_base::{Locator, same};
use opfs_hist::Op;
use opfs_machine::Own;

/// Whether a locator is of the agent's origin.
fn is_own(state: &Board, number: u32, at: &Locator) -> bool
    requires { IsAgent state.now number }
    ensures { result ≡ is_own state.now number at.now }
{
    match &agent(state, number).key {
        None => false,
        Some(origin) => is_of(origin.as_bytes(), &at.key),
    }
}

/// Whether an own row is a stream, open or closed.
fn is_stream(state: &Board, number: u32, row: u32) -> bool
    requires { IsAgent state.now number }
    ensures { result ≡ is_stream (own_of (agent_of state.now number) row) }
{
    matches!(
        own_row(state, number, row),
        Some(Own::Stream(_) | Own::ClosedStream)
    )
}

/// Whether an own row is an access handle, open or closed.
fn is_handle(state: &Board, number: u32, row: u32) -> bool
    requires { IsAgent state.now number }
    ensures { result ≡ is_handle (own_of (agent_of state.now number) row) }
{
    matches!(
        own_row(state, number, row),
        Some(Own::Handle(_) | Own::ClosedHandle)
    )
}

/// Whether an own row is an open access handle.
fn is_open_handle(state: &Board, number: u32, row: u32) -> bool
    requires { IsAgent state.now number }
    ensures { result ≡ is_open_handle (own_of (agent_of state.now number) row) }
{
    matches!(own_row(state, number, row), Some(Own::Handle(_)))
}

/// Whether an own row is a snapshot.
fn is_snapshot(state: &Board, number: u32, row: u32) -> bool
    requires { IsAgent state.now number }
    ensures { result ≡ is_snapshot (own_of (agent_of state.now number) row) }
{
    matches!(own_row(state, number, row), Some(Own::Snapshot(_)))
}

/// Whether an own row is an iterator over a directory.
fn is_iterator_of(state: &Board, number: u32, row: u32, dir: &Locator) -> bool
    requires { IsAgent state.now number }
    ensures { result ≡ is_iterator_of dir.now (own_of (agent_of state.now number) row) }
{
    match own_row(state, number, row) {
        Some(Own::Iterator(iterator)) => same(&iterator.dir, dir),
        _ => false,
    }
}

/// Whether an agent has an open stream or access handle.
fn has_open_row(state: &Board, number: u32) -> bool
    requires { IsAgent state.now number }
    ensures { result ≡ has_open_row in_bytes state.now number }
{
    agent(state, number)
        .own
        .items
        .iter()
        .any(|row| is_open(row))
}

/// Whether an own row is an open stream or access handle.
fn is_open(row: &Own) -> bool
    ensures { result ≡ is_open_row (outline_of row.now) }
{
    matches!(row, Own::Stream(_) | Own::Handle(_))
}

/// Whether a call may have an entry. Of calls that ask which agents are stuck this does not tell.
pub fn may_enter(state: &Board, number: u32, op: &Op) -> bool
    requires { IsAgent state.now number }
    ensures may { IsTrue result → IsTrue (may_enter state.now number op.now) }
    ensures exact { asks_stuck op.now ≡ false → result ≡ may_enter state.now number op.now }
{
    match op {
        Op::GetDirectoryHandle { dir, .. }
        | Op::GetFileHandle { dir, .. }
        | Op::RemoveEntry { dir, .. }
        | Op::Values { dir } => is_own(state, number, dir),
        Op::Next { row, dir } => is_own(state, number, dir)
            && is_iterator_of(state, number, *row, dir),
        Op::GetFile { file }
        | Op::CreateWritable { file, .. }
        | Op::CreateSyncAccessHandle { file, .. } => is_own(state, number, file),
        Op::Slice { row, .. } => is_snapshot(state, number, *row),
        Op::Write { row, .. }
        | Op::Seek { row, .. }
        | Op::Truncate { row, .. }
        | Op::Close { row }
        | Op::Abort { row } => is_stream(state, number, *row),
        Op::SyncRead { row, .. } | Op::SyncWrite { row, .. } | Op::SyncTruncate { row, .. } =>
            is_handle(state, number, *row),
        Op::SyncGetSize { row } | Op::SyncFlush { row } | Op::SyncClose { row } => is_handle(
            state, number, *row,
        ),
        Op::Discard { row } => is_open_handle(state, number, *row),
        Op::Await { .. } | Op::Wait { .. } | Op::Evict { .. } => false,
        Op::End => !has_open_row(state, number),
        _ => true,
    }
}
