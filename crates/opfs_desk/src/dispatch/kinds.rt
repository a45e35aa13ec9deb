//! Which kind of call a call is.

ghost use Rattle.std.specs.Prelude.{◌≡◌, true, is_some, IsTrue};
ghost use Rattle.opfs_store.specs.Acts.Asking.{is_shared};
ghost use Rattle.opfs_state_rows.specs.Changes.Asking.{makes_row};
ghost use Rattle.opfs_desk.specs.Dispatch.Kinds.{IsOfKind, has_handle};
ghost use Rattle.opfs_desk_contents.specs.Words.{may_write};
ghost use Rattle.opfs_hist.specs.declared.op.Op.TheVariants as op;
ghost use Rattle.opfs_machine.specs.Agents.{open_handle};
ghost use Rattle.opfs_machine.specs.Contents.{in_lengths};
ghost use Rattle.opfs_state.specs.Applied.{IsPrepared};
ghost use Rattle.opfs_state.specs.Verdicts.Callers.{IsAgent};

use opfs_base::Text;
use opfs_hist::{Mode, Op};
use opfs_state::State;

/// How a call is acted.
#[derive(Clone, Copy)]
pub(crate) enum CallKind {
    /// It is answered by that it is done, and changes nothing that is stored.
    Told,
    /// It asks for a bucket's mode, and gives none.
    Persisted,
    /// It gives a bucket's mode.
    Given,
    Next,
    Estimate,
    /// It makes or removes a row of the tree.
    Kept,
    GetFile,
    /// It opens a row.
    Opened,
    /// It puts bytes into a row, or gives it a size.
    Put,
    SyncRead,
    /// It stores a content.
    Stored,
    /// It flushes what is only read.
    Idle,
    /// It ends a row, and stores nothing.
    Left,
}

// A call that makes a row of the tree, if none is there.
fn kind_of_making(state: &State, agent: u32, op: &Op) -> CallKind
    requires prepared { IsPrepared state.now agent op.now }
    requires word { makes_row op.now ≡ true }
    ensures { IsOfKind result state.now.store.machine agent op.now }
{
    if state.growth() == 0 {
        CallKind::Told
    } else {
        CallKind::Kept
    }
}

// A persist.
fn kind_of_persist(state: &State, agent: u32, bucket: &Text) -> CallKind
    requires prepared { IsPrepared state.now agent (op.Persist bucket.now) }
    ensures { IsOfKind result state.now.store.machine agent (op.Persist bucket.now) }
{
    if state.growth() == 0 {
        CallKind::Persisted
    } else {
        CallKind::Given
    }
}

// Whether an open access handle may write.
fn may_write(state: &State, agent: u32, row: u32) -> bool
    requires agent { IsAgent state.now.store.machine agent }
    requires there { is_some (open_handle in_lengths state.now.store.machine agent row) ≡ true }
    ensures { result ≡ may_write (open_handle in_lengths state.now.store.machine agent row) }
{
    match state.handle(agent, row) {
        Some(handle) => handle.mode == Mode::ReadWrite,
        None => unreachable!(),
    }
}

// A flush of an open access handle.
fn kind_of_flush(state: &State, agent: u32, row: u32) -> CallKind
    requires agent { IsAgent state.now.store.machine agent }
    requires there { is_some (open_handle in_lengths state.now.store.machine agent row) ≡ true }
    ensures { IsOfKind result state.now.store.machine agent (op.SyncFlush row) }
{
    if may_write(state, agent, row) {
        CallKind::Stored
    } else {
        CallKind::Idle
    }
}

// A close of an open access handle.
fn kind_of_close(state: &State, agent: u32, row: u32) -> CallKind
    requires agent { IsAgent state.now.store.machine agent }
    requires there { is_some (open_handle in_lengths state.now.store.machine agent row) ≡ true }
    ensures { IsOfKind result state.now.store.machine agent (op.SyncClose row) }
{
    if may_write(state, agent, row) {
        CallKind::Stored
    } else {
        CallKind::Left
    }
}

/// The kind of a call for which all stands ready. An access handle that it flushes or closes is open.
pub(crate) fn kind_of(state: &State, agent: u32, op: &Op) -> CallKind
    requires agent { IsAgent state.now.store.machine agent }
    requires prepared { IsPrepared state.now agent op.now }
    requires shared { IsTrue (is_shared op.now) }
    requires handle { has_handle state.now.store.machine agent op.now ≡ true }
    ensures { IsOfKind result state.now.store.machine agent op.now }
{
    match op {
        Op::GetDirectory { .. } | Op::GetDirectoryHandle { .. } | Op::GetFileHandle { .. } => {
            kind_of_making(state, agent, op)
        }
        Op::RemoveEntry { .. } => CallKind::Kept,
        Op::Next { .. } => CallKind::Next,
        Op::GetFile { .. } => CallKind::GetFile,
        Op::CreateWritable { .. } | Op::CreateSyncAccessHandle { .. } => CallKind::Opened,
        Op::Write { .. } | Op::Truncate { .. } => CallKind::Put,
        Op::SyncWrite { .. } | Op::SyncTruncate { .. } => CallKind::Put,
        Op::SyncRead { .. } => CallKind::SyncRead,
        Op::Close { .. } => CallKind::Stored,
        Op::Abort { .. } | Op::Discard { .. } => CallKind::Left,
        Op::SyncFlush { row } => kind_of_flush(state, agent, *row),
        Op::SyncClose { row } => kind_of_close(state, agent, *row),
        Op::Persist { bucket } => kind_of_persist(state, agent, bucket),
        Op::Persisted { .. } => CallKind::Persisted,
        Op::Estimate => CallKind::Estimate,
        Op::Post { .. } => CallKind::Told,
        Op::Await { .. } => CallKind::Told,
        Op::Wait { .. } => CallKind::Told,
        Op::End => CallKind::Told,
        _ => unreachable!(),
    }
}
