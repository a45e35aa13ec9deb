//! What a migration writes.

ghost use Rattle.std.specs.Prelude.{◌≡◌, ◌⊎◌, ◌+◌, ◌≤◌, ℕ, true, [], ◌∷◌, Some, length, Err, IfOk, IfErr, IsErrOf};
ghost use Rattle.opfs_codec.specs.declared.change.Format.TheVariants.{Old, New};
ghost use Rattle.opfs_outside.specs.Faults.{Rose};
ghost use Rattle.opfs_image.specs.Reading.{read_as};
ghost use Rattle.opfs_image.specs.Superblock.{area_bytes, image_size, is_in_range};
ghost use Rattle.opfs_journal.specs.Walking.{OnlyRead};
ghost use Rattle.opfs_migrate.specs.Migrating.{IsPlanned};
ghost use Rattle.opfs_records.specs.Replay.Applying.{rows_of};
ghost use Rattle.opfs_records.specs.Replay.Built.{IsSound};
ghost use Rattle.opfs_records.specs.Replay.Sums.{charge_of, persistent_in};
ghost use Rattle.opfs_records.specs.Checkpoint.Written.{stored_rows, AreWritable};

use crate::counting::count_files;
use opfs_codec::Format;
use opfs_image::{Geometry, ImageRefusal, ReadImage, read_image};
use opfs_outside::Disk;
use opfs_records::{Rebuilt, snapshot};
use opfs_tree::ReadyTree;
use std::alloc::{AllocError, Global};

/// What a migration writes: one record that builds the same, and how many files that has.
#[derive(Drop)]
pub struct Plan {
    /// The sizes of the image.
    pub geometry: Geometry,
    /// How many files there are.
    pub files: u64,
    /// The record.
    pub body: Vec<u8>,
}

/// Reads an image of format 1, and writes one record of format 2 that builds the same.
pub(crate) fn read_plan<D: Disk>(alloc: Global, disk: &mut D) -> Result<Plan, ImageRefusal>
    ensures only { OnlyRead D.Disk disk.old disk.new }
    ensures range { IfOk result (λ plan. is_in_range plan.geometry ≡ true) }
    ensures length { IfOk result (λ plan. image_size plan.geometry ≤ D.size disk.old) }
    ensures fits { IfOk result (λ plan. length plan.body.items + 7 ≤ area_bytes plan.geometry) }
    ensures planned { IfOk result (λ plan. D.tells → IsPlanned plan.geometry plan.files plan.body.items (D.content disk.old)) }
    ensures refused { IfErr result (λ e. (e ≡ ImageRefusal.DiskFault) ⊎ (e ≡ ImageRefusal.NoMemory) ⊎ (D.tells → read_as Old New (D.content disk.old) ≡ Err e)) }
    ensures cause { IsErrOf result ImageRefusal.DiskFault → Rose (D.faults disk.old) (D.faults disk.new) }
{
    let image = read_image(alloc, disk, Format::Old)?;
    let files = count_files(&image.parts.tree)?;
    let ReadImage { geometry, parts } = image;
    let body = spell(alloc, parts)?;
    Ok(Plan {
        geometry,
        files,
        body,
    })
}

// One record of format 2 that builds what was read.
fn spell(alloc: Global, parts: Rebuilt) -> Result<Vec<u8>, AllocError>
    requires { AreWritable parts.tree (persistent_in parts.shed.buckets) }
    ensures builds { IfOk result (λ body. (size : ℕ) → IsSound size (stored_rows parts.tree) → rows_of New size (body.items ∷ []) ≡ Some (record { rows = stored_rows parts.tree; persistent = persistent_in parts.shed.buckets })) }
    ensures fits { IfOk result (λ body. (size : ℕ) → IsSound size (stored_rows parts.tree) → length body.items ≤ charge_of New (record { rows = stored_rows parts.tree; persistent = persistent_in parts.shed.buckets })) }
{
    let tree = ReadyTree::make(alloc, parts.tree);
    let mut body = Vec::new(alloc);
    snapshot(&tree, &parts.shed, &mut body)?;
    Ok(body)
}
