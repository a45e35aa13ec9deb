//! Whether a call may need the disk.
#![tactic(auto, unfolding(opfs_machine::specs::Machine::machine))]

ghost use Rattle.std.specs.Prelude.{◌≡◌};
ghost use Rattle.opfs_machine.specs.Histories.{is_writer, is_disk_op};
ghost use Rattle.opfs_rulings.specs.Known.{IsAgent};

use crate::board::Board;
use crate::handle_rulings::open_handle;
use opfs_base::SharedBytes;
use opfs_hist::{Mode, Op};

/// Whether an access handle is open and may write.
fn is_writer(state: &Board, number: u32, row: u32) -> bool
    requires { IsAgent state.now number }
    ensures { result ≡ is_writer state.now number row }
{
    match open_handle(state, number, row) {
        Some(handle) => handle.mode == Mode::ReadWrite,
        None => false,
    }
}

/// Whether a call that is not refused may need the disk.
pub fn is_disk_op(state: &Board, number: u32, op: &Op) -> bool
    requires { IsAgent state.now number }
    ensures { result ≡ is_disk_op state.now number op.now }
{
    match op {
        Op::GetDirectory { .. }
        | Op::GetDirectoryHandle { .. }
        | Op::GetFileHandle { .. }
        | Op::RemoveEntry { .. }
        | Op::GetFile { .. }
        | Op::CreateWritable { .. }
        | Op::Write { .. }
        | Op::Truncate { .. }
        | Op::Close { .. }
        | Op::CreateSyncAccessHandle { .. }
        | Op::SyncRead { .. }
        | Op::Persist { .. } => true,
        Op::SyncWrite { row, .. } | Op::SyncTruncate { row, .. } => is_writer(state, number, *row),
        Op::SyncFlush { row } | Op::SyncClose { row } => is_writer(state, number, *row),
        _ => false,
    }
}
