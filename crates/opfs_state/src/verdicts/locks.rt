//! The lock of a file.

ghost use Rattle.std.specs.Prelude.{◌≡◌, is_some};
ghost use Rattle.opfs_laws.specs.Lengths.Kept.{Kept};
ghost use Rattle.opfs_locks.specs.Taking.{taken};
ghost use Rattle.opfs_machine.specs.Rows.{file_at};
ghost use Rattle.opfs_machine.specs.Rulings.{lock_in};

use opfs_base::{Key, Kind, Path};
use opfs_locks::{LockValue, Want};
use opfs_state_rows::Standing;

/// Whether a lock is given as asked.
pub fn is_given(want: Want, lock: (LockValue, u32)) -> bool
    ensures { result ≡ is_some (taken want lock) }
{
    matches!(
        (want, lock.0),
        (Want::Exclusive, LockValue::Free)
            | (Want::Shared, LockValue::Free | LockValue::Shared)
            | (Want::ReadOnly, LockValue::Free | LockValue::ReadOnly)
    )
}

/// The lock of the file at a place, open where there is no such file.
pub fn lock_at(standing: &Standing, unit: &Key, path: &Path) -> (LockValue, u32)
    requires { Kept standing.now.machine }
    ensures { result ≡ lock_in (file_at standing.now.machine (unit.now, path.now)) }
{
    match standing.kind(unit, path) {
        Some(Kind::File) => standing
            .first_locked(unit, path)
            .unwrap_or((LockValue::Free, 0)),
        _ => (LockValue::Free, 0),
    }
}
