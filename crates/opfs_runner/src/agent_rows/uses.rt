//! How calls use rows.

ghost use Rattle.std.specs.Prelude.{◌≡◌};
ghost use Rattle.opfs_runner.specs.AgentRows.Tables.{use_of};

use opfs_hist::Op;

/// How a call uses the rows of its agent.
#[derive(Clone, Copy, PartialEq, Eq)]
pub enum Use {
    /// It leaves all.
    Plain,
    /// It makes one, the last.
    Makes,
    /// It is lent the one of a number.
    Lends(u32),
    /// It spends the one of a number.
    Spends(u32),
}

/// How a call uses rows.
pub fn use_of(op: &Op) -> Use
    ensures { result ≡ use_of op.now }
{
    match op {
        Op::Values { .. }
        | Op::GetFile { .. }
        | Op::CreateWritable { .. }
        | Op::CreateSyncAccessHandle { .. } => Use::Makes,
        Op::Next { row, .. }
        | Op::Slice { row, .. }
        | Op::Write { row, .. }
        | Op::Seek { row, .. }
        | Op::Truncate { row, .. }
        | Op::SyncRead { row, .. }
        | Op::SyncWrite { row, .. }
        | Op::SyncTruncate { row, .. }
        | Op::SyncGetSize { row }
        | Op::SyncFlush { row } => Use::Lends(*row),
        Op::Close { row } | Op::Abort { row } | Op::SyncClose { row } => Use::Spends(*row),
        _ => Use::Plain,
    }
}
