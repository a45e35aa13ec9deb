//! The snapshot that a step's variable names, before the step and behind it.

ghost use Rattle.std.specs.Prelude.{◌≡◌};
ghost use Rattle.opfs_script_run.specs.Runs.Running.{named_by, a_snapshot};
ghost use Rattle.opfs_runner.specs.RunLaws.Leaving.{snapshot_bound, row_left};

use opfs_base::Text;
use opfs_script::Step;
use opfs_script_run::{Hand, Named};

// The row of the snapshot that a variable names.
fn snapshot_named(hand: &Hand, variable: &Text) -> Option<u32>
    ensures { result ≡ a_snapshot (named_by hand.now variable.now) }
{
    match hand.bound.named_by(variable) {
        Some(Named::Snapshot(row)) => Some(*row),
        _ => None,
    }
}

/// The row of the snapshot that is named by the variable which a step binds.
pub fn snapshot_bound(hand: &Hand, step: &Step) -> Option<u32>
    ensures { result ≡ snapshot_bound hand.now step.now }
{
    match step {
        Step::GetDirectory { bind, .. }
        | Step::GetDirectoryHandle { bind, .. }
        | Step::GetFileHandle { bind, .. }
        | Step::Values { bind, .. }
        | Step::Next { bind, .. }
        | Step::GetFile { bind, .. }
        | Step::CreateWritable { bind, .. }
        | Step::CreateSyncAccessHandle { bind, .. } => snapshot_named(hand, bind),
        _ => None,
    }
}

/// The row that was named before, and is not now.
pub fn row_left(before: Option<u32>, now: Option<u32>) -> Option<u32>
    ensures { result ≡ row_left before now }
{
    let row = before?;
    let Some(other) = now else {
        return Some(row);
    };
    if row == other { None } else { Some(row) }
}
