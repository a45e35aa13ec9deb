//! What the words of these calls say.

ghost use Rattle.std.specs.Prelude.{◌≡◌, true};
ghost use Rattle.opfs_desk_contents.specs.Words.{is_storing, ends_row};
ghost use Rattle.opfs_machine.specs.Replies.{row_named};

use opfs_hist::Op;

/// The row that such a call names.
pub(crate) fn row_of(op: &Op) -> u32
    requires { is_storing op.now ≡ true }
    ensures { result ≡ row_named op.now }
{
    match op {
        Op::Close { row } | Op::SyncFlush { row } | Op::SyncClose { row } => *row,
        _ => unreachable!(),
    }
}

/// Whether the row ends with it.
pub(crate) fn is_last(op: &Op) -> bool
    ensures { result ≡ ends_row op.now }
{
    match op {
        Op::Close { .. } | Op::SyncClose { .. } => true,
        _ => false,
    }
}
