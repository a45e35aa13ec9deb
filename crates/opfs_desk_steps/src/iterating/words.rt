//! What a call asks of iterators, by its word.

ghost use Rattle.std.specs.Prelude.{◌≡◌};
ghost use Rattle.opfs_desk_steps.specs.Iterating.Reached.{asked_row, may_make};

use opfs_hist::Op;

/// The iterator that a call asks; 0 for any other call.
pub fn asked_row(op: &Op) -> u32
    ensures { result ≡ asked_row op.now }
{
    match op {
        Op::Next { row, .. } => *row,
        _ => 0,
    }
}

/// Whether a call may make a row.
pub fn may_make(op: &Op) -> bool
    ensures { result ≡ may_make op.now }
{
    match op {
        Op::GetDirectory { .. } => true,
        Op::GetDirectoryHandle { create, .. } => *create,
        Op::GetFileHandle { create, .. } => *create,
        _ => false,
    }
}
