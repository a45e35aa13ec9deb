//! The one record of a checkpoint that has one change more.

ghost use Rattle.std.specs.Prelude.{◌≡◌, ◌≤◌, ◌+◌, ◌++◌, ℕ, [], ◌∷◌, Some, length, OnOk, OnErr, vec_len, vec_capacity, is_ok, IsTrue, if◌then◌else◌};
ghost use Rattle.opfs_codec.specs.Charges.{charge};
ghost use Rattle.opfs_codec.specs.Fields.{plain};
ghost use Rattle.opfs_codec.specs.Spelling.{IsChange};
ghost use Rattle.opfs_codec.specs.declared.change.Format.TheVariants.{New};
ghost use Rattle.opfs_records.specs.Replay.Applying.{rows_of, tried};
ghost use Rattle.opfs_records.specs.Replay.Built.{Built, IsSound};
ghost use Rattle.opfs_records.specs.Replay.Sums.{charge_of, persistent_in};
ghost use Rattle.opfs_records.specs.Checkpoint.After.{is_shown, made_bytes};
ghost use Rattle.opfs_records.specs.Checkpoint.Written.{AreWritable, stored_rows};

use crate::checkpoint::rows_after::write_rows_after;
use crate::checkpoint::units::write_units;
use opfs_codec::{ChangeRef, write};
use opfs_shed::Shed;
use opfs_tree::ReadyTree;
use std::alloc::AllocError;

/// Writes the body of a checkpoint's one record in place of what the buffer holds: a list of changes in format 2 that
/// builds, from nothing, what one change makes of the rows of a tree as they are stored and of the persistent units of a
/// shed. The tree and the shed do not have the change yet. It is no longer than the charge of what it builds in bytes.
/// Takes memory only as the buffer grows, and none where it has room for the charge; where there is no memory, the
/// buffer is left empty.
pub fn snapshot_after(
    tree: &ReadyTree,
    shed: &Shed,
    own: &ChangeRef<'_>,
    into: &mut Vec<u8>,
) -> Result<(), AllocError>
    requires writable { AreWritable tree.now.rows (persistent_in shed.now.buckets) }
    requires again { IsChange New (plain own.now) }
    ensures builds { OnOk result ((size : ℕ) (next : Built) → IsSound size (stored_rows tree.now.rows) → tried New size (record { rows = stored_rows tree.now.rows; persistent = persistent_in shed.now.buckets }) (plain own.now) ≡ Some next → rows_of New size (into.new.items ∷ []) ≡ Some next) }
    ensures fits { OnOk result ((size : ℕ) (next : Built) → IsSound size (stored_rows tree.now.rows) → tried New size (record { rows = stored_rows tree.now.rows; persistent = persistent_in shed.now.buckets }) (plain own.now) ≡ Some next → length into.new.items ≤ charge_of New next) }
    ensures err { OnErr result (into.new.items ≡ []) }
    ensures capacity { vec_capacity into.old ≤ vec_capacity into.new }
    ensures room { (size : ℕ) (next : Built) → IsSound size (stored_rows tree.now.rows) → tried New size (record { rows = stored_rows tree.now.rows; persistent = persistent_in shed.now.buckets }) (plain own.now) ≡ Some next → charge_of New next ≤ vec_capacity into.old → IsTrue (is_ok result) }
{
    into.clear();
    match write_after(tree, shed, own, into) {
        Ok(()) => Ok(()),
        Err(e) => {
            into.clear();
            Err(e)
        }
    }
}

// Writes the body into an empty buffer.
fn write_after(
    tree: &ReadyTree,
    shed: &Shed,
    own: &ChangeRef<'_>,
    into: &mut Vec<u8>,
) -> Result<(), AllocError>
    requires empty { into.old.items ≡ [] }
    requires writable { AreWritable tree.now.rows (persistent_in shed.now.buckets) }
    requires again { IsChange New (plain own.now) }
    ensures builds { OnOk result ((size : ℕ) (next : Built) → IsSound size (stored_rows tree.now.rows) → tried New size (record { rows = stored_rows tree.now.rows; persistent = persistent_in shed.now.buckets }) (plain own.now) ≡ Some next → rows_of New size (into.new.items ∷ []) ≡ Some next) }
    ensures fits { OnOk result ((size : ℕ) (next : Built) → IsSound size (stored_rows tree.now.rows) → tried New size (record { rows = stored_rows tree.now.rows; persistent = persistent_in shed.now.buckets }) (plain own.now) ≡ Some next → length into.new.items ≤ charge_of New next) }
    ensures capacity { vec_capacity into.old ≤ vec_capacity into.new }
    ensures room { (size : ℕ) (next : Built) → IsSound size (stored_rows tree.now.rows) → tried New size (record { rows = stored_rows tree.now.rows; persistent = persistent_in shed.now.buckets }) (plain own.now) ≡ Some next → charge_of New next ≤ vec_capacity into.old → IsTrue (is_ok result) }
{
    tree.know_order();
    shed.know_order();
    write_rows_after(tree, own, into)?;
    write_units(shed, into)?;
    write_made(shed, own, into)?;
    Ok(())
}

// Appends the change itself, unless what was written tells it already.
fn write_made(shed: &Shed, own: &ChangeRef<'_>, into: &mut Vec<u8>) -> Result<(), AllocError>
    requires { IsChange New (plain own.now) }
    ensures written { OnOk result (into.new.items ≡ into.old.items ++ made_bytes shed.now.buckets (plain own.now)) }
    ensures capacity { vec_capacity into.old ≤ vec_capacity into.new }
    ensures room { vec_len into.old + (if is_shown shed.now.buckets (plain own.now) then 0 else charge (plain own.now)) ≤ vec_capacity into.old → IsTrue (is_ok result) }
{
    if is_shown(shed, own) {
        return Ok(());
    }
    write(own, into)?;
    Ok(())
}

// Whether the rows that are left and the persistent units tell a change.
#[tactic(auto, unfolding(opfs_codec::specs::Fields::plain, crate::specs::Checkpoint::After::is_shown))]
fn is_shown(shed: &Shed, own: &ChangeRef<'_>) -> bool
    ensures { result ≡ is_shown shed.now.buckets (plain own.now) }
{
    match own {
        ChangeRef::Remove(_, _) => true,
        ChangeRef::Content(_, _, _, _, _) => true,
        ChangeRef::Persist(unit) => shed.is_persistent(unit),
        ChangeRef::Evict(_) => true,
        _ => false,
    }
}
