//! The one record of a checkpoint.

ghost use Rattle.std.specs.Prelude.{◌≡◌, ◌≤◌, ℕ, [], ◌∷◌, Some, length, OnOk, OnErr, vec_capacity, is_ok, IsTrue};
ghost use Rattle.opfs_codec.specs.declared.change.Format.TheVariants.{New};
ghost use Rattle.opfs_records.specs.Replay.Applying.{rows_of};
ghost use Rattle.opfs_records.specs.Replay.Built.{IsSound};
ghost use Rattle.opfs_records.specs.Replay.Sums.{charge_of, persistent_in};
ghost use Rattle.opfs_records.specs.Checkpoint.Written.{AreWritable, built_bytes, stored_rows};

use crate::checkpoint::rows::write_rows;
use crate::checkpoint::units::write_units;
use opfs_shed::Shed;
use opfs_tree::ReadyTree;
use std::alloc::AllocError;

/// Writes the body of a checkpoint's one record in place of what the buffer holds: a list of changes in format 2 that
/// builds, from nothing, the rows of a tree as they are stored, whatever their locks are and a read gives now, and the
/// persistent units of a shed. It is no longer than their charge in
/// bytes. Takes memory only as the buffer grows, and none where it has room for the charge; where there is no memory,
/// the buffer is left empty.
pub fn snapshot(tree: &ReadyTree, shed: &Shed, into: &mut Vec<u8>) -> Result<(), AllocError>
    requires { AreWritable tree.now.rows (persistent_in shed.now.buckets) }
    ensures bytes { OnOk result (into.new.items ≡ built_bytes (record { rows = tree.now.rows; persistent = persistent_in shed.now.buckets })) }
    ensures builds { OnOk result ((size : ℕ) → IsSound size (stored_rows tree.now.rows) → rows_of New size (into.new.items ∷ []) ≡ Some (record { rows = stored_rows tree.now.rows; persistent = persistent_in shed.now.buckets })) }
    ensures fits { OnOk result ((size : ℕ) → IsSound size (stored_rows tree.now.rows) → length into.new.items ≤ charge_of New (record { rows = stored_rows tree.now.rows; persistent = persistent_in shed.now.buckets })) }
    ensures err { OnErr result (into.new.items ≡ []) }
    ensures capacity { vec_capacity into.old ≤ vec_capacity into.new }
    ensures room { (size : ℕ) → IsSound size (stored_rows tree.now.rows) → charge_of New (record { rows = stored_rows tree.now.rows; persistent = persistent_in shed.now.buckets }) ≤ vec_capacity into.old → IsTrue (is_ok result) }
{
    into.clear();
    match write_all(tree, shed, into) {
        Ok(()) => Ok(()),
        Err(e) => {
            into.clear();
            Err(e)
        }
    }
}

// Writes the body into an empty buffer.
fn write_all(tree: &ReadyTree, shed: &Shed, into: &mut Vec<u8>) -> Result<(), AllocError>
    requires empty { into.old.items ≡ [] }
    requires writable { AreWritable tree.now.rows (persistent_in shed.now.buckets) }
    ensures bytes { OnOk result (into.new.items ≡ built_bytes (record { rows = tree.now.rows; persistent = persistent_in shed.now.buckets })) }
    ensures builds { OnOk result ((size : ℕ) → IsSound size (stored_rows tree.now.rows) → rows_of New size (into.new.items ∷ []) ≡ Some (record { rows = stored_rows tree.now.rows; persistent = persistent_in shed.now.buckets })) }
    ensures fits { OnOk result ((size : ℕ) → IsSound size (stored_rows tree.now.rows) → length into.new.items ≤ charge_of New (record { rows = stored_rows tree.now.rows; persistent = persistent_in shed.now.buckets })) }
    ensures capacity { vec_capacity into.old ≤ vec_capacity into.new }
    ensures room { (size : ℕ) → IsSound size (stored_rows tree.now.rows) → charge_of New (record { rows = stored_rows tree.now.rows; persistent = persistent_in shed.now.buckets }) ≤ vec_capacity into.old → IsTrue (is_ok result) }
{
    tree.know_order();
    write_rows(tree, into)?;
    write_units(shed, into)?;
    Ok(())
}
