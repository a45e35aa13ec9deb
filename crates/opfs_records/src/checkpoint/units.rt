//! The persistent units of a shed are written.

ghost use Rattle.std.specs.Prelude.{◌≡◌, ◌≤◌, ◌+◌, ◌++◌, OnOk, sum_by, vec_len, vec_capacity, is_ok, IsTrue};
ghost use Rattle.opfs_codec.specs.Charges.{unit_bytes};
ghost use Rattle.std.specs.List.{AllByRecursion};
ghost use Rattle.std.specs.List.Sorted.{IsStrictlySortedBy};
ghost use Rattle.opfs_codec.specs.Spelling.{spelling, IsKey};
ghost use Rattle.opfs_codec.specs.declared.change.Format.TheVariants.{New};
ghost use Rattle.opfs_codec.specs.declared.change.Change.TheVariants.{Persist};
ghost use Rattle.opfs_records.specs.Replay.Sums.{persistent_in};
ghost use Rattle.opfs_shed.specs.Buckets.{text_cmp};
ghost use Rattle.opfs_records.specs.Checkpoint.Written.{units_bytes};

use opfs_base::Key;
use opfs_codec::{ChangeRef, write};
use opfs_shed::Shed;
use std::alloc::AllocError;

/// Appends the changes that make the persistent units so.
pub(crate) fn write_units(shed: &Shed, into: &mut Vec<u8>) -> Result<(), AllocError>
    requires { AllByRecursion (IsKey New) (persistent_in shed.now.buckets) }
    ensures written { OnOk result (into.new.items ≡ into.old.items ++ units_bytes (persistent_in shed.now.buckets)) }
    ensures ordered { OnOk result (IsStrictlySortedBy text_cmp (persistent_in shed.now.buckets)) }
    ensures capacity { vec_capacity into.old ≤ vec_capacity into.new }
    ensures room { vec_len into.old + sum_by (λ unit. 3 + unit_bytes unit) (persistent_in shed.now.buckets) ≤ vec_capacity into.old → IsTrue (is_ok result) }
{
    let mut last = None;
    while let Some(unit) = shed.persistent_after(last) {
        write_unit(unit, into)?;
        last = Some(unit);
    }
    Ok(())
}

// Appends the change that makes a unit persistent.
#[tactic(auto, unfolding(opfs_codec::specs::Fields::plain, opfs_codec::specs::Fields::Fits, opfs_codec::specs::Fields::HasFewExtents, opfs_codec::specs::Charges::charge))]
fn write_unit(unit: &Key, into: &mut Vec<u8>) -> Result<(), AllocError>
    requires { IsKey New unit.now }
    ensures written { OnOk result (into.new.items ≡ into.old.items ++ spelling New (Persist unit.now)) }
    ensures capacity { vec_capacity into.old ≤ vec_capacity into.new }
    ensures room { vec_len into.old + (3 + unit_bytes unit.now) ≤ vec_capacity into.old → IsTrue (is_ok result) }
{
    write(&ChangeRef::Persist(unit), into)?;
    Ok(())
}
