//! What the words of these calls say.

ghost use Rattle.std.specs.Prelude.{◌≡◌, true, is_some, Some};
ghost use Rattle.opfs_desk_contents.specs.Words.{is_storing, ends_row, stamp_stored};
ghost use Rattle.opfs_machine.specs.Replies.{row_named};
ghost use Rattle.opfs_tree.specs.Rows.{file_at as file_in_tree};
ghost use Rattle.opfs_tree.specs.declared.row.FileRow.{FileRow};
ghost use Rattle.opfs_state.specs.Verdicts.Callers.{IsAgent};

use opfs_hist::Op;
use opfs_machine::Place;
use opfs_state::State;

/// The row that such a call names.
pub fn row_of(op: &Op) -> u32
    requires { is_storing op.now ≡ true }
    ensures { result ≡ row_named op.now }
{
    match op {
        Op::Close { row } | Op::SyncFlush { row } | Op::SyncClose { row } => *row,
        _ => unreachable!(),
    }
}

/// Whether the row ends with it.
pub fn is_last(op: &Op) -> bool
    ensures { result ≡ ends_row op.now }
{
    match op {
        Op::Close { .. } | Op::SyncClose { .. } => true,
        _ => false,
    }
}

// The time stamp that a read of a file gives.
fn stamp_in(state: &State, place: &Place) -> u64
    requires there { is_some (file_in_tree place.now state.now.store.tree) ≡ true }
    ensures { (f : FileRow) → file_in_tree place.now state.now.store.tree ≡ Some f → result ≡ f.present_stamp }
{
    match state.file(&place.0, &place.1) {
        Some(file) => file.present_stamp,
        None => unreachable!(),
    }
}

/// The time stamp of what it stores in a file.
pub(crate) fn stamp_of(state: &State, agent: u32, op: &Op, place: &Place) -> u64
    requires agent { IsAgent state.now.store.machine agent }
    requires word { is_storing op.now ≡ true }
    requires there { is_some (file_in_tree place.now state.now.store.tree) ≡ true }
    ensures { (f : FileRow) → file_in_tree place.now state.now.store.tree ≡ Some f → result ≡ stamp_stored state.now.store.machine agent op.now f }
{
    match op {
        Op::Close { .. } => state.moment(agent),
        Op::SyncFlush { .. } | Op::SyncClose { .. } => stamp_in(state, place),
        _ => unreachable!(),
    }
}
