//! The rows of a tree are written.

ghost use Rattle.std.specs.Prelude.{◌≡◌, ◌≤◌, ◌+◌, ◌*◌, ◌++◌, ℕ, OnOk, [], length, sum_by, vec_len, vec_capacity, is_ok, IsTrue};
ghost use Rattle.std.specs.List.{AllByRecursion};
ghost use Rattle.opfs_records.specs.Checkpoint.Contents.{as_file};
ghost use Rattle.opfs_records.specs.Checkpoint.Written.{dir_bytes, content_bytes, file_bytes, row_bytes, rows_bytes, IsWritablePlace, IsWritableFile, IsWritableRow, stored_row};
ghost use Rattle.opfs_base.specs.Blocks.{blocks};
ghost use Rattle.opfs_codec.specs.Charges.{unit_bytes, path_bytes};
ghost use Rattle.opfs_codec.specs.declared.change.Format.TheVariants.{New};
ghost use Rattle.opfs_records.specs.Replay.Built.{IsSoundRow};
ghost use Rattle.opfs_records.specs.Replay.Sums.{row_charge};
ghost use Rattle.opfs_tree.specs.declared.row.Row.TheVariants as row;

use crate::checkpoint::content::FileContent;
use opfs_base::{Key, Path};
use opfs_codec::{ChangeRef, write};
use opfs_tree::{ReadyTree, Row, Walk};
use std::alloc::AllocError;

/// Appends the changes that build the rows.
pub(crate) fn write_rows(tree: &ReadyTree, into: &mut Vec<u8>) -> Result<(), AllocError>
    requires { AllByRecursion (λ e. IsWritableRow e.0 e.1) tree.now.rows }
    ensures written { OnOk result (into.new.items ≡ into.old.items ++ rows_bytes tree.now.rows) }
    ensures capacity { vec_capacity into.old ≤ vec_capacity into.new }
    ensures room { (size : ℕ) → AllByRecursion (λ e. IsSoundRow size (stored_row e.1)) tree.now.rows → vec_len into.old + sum_by (λ e. row_charge New e.0 e.1) tree.now.rows ≤ vec_capacity into.old → IsTrue (is_ok result) }
{
    let mut walk = Walk::make();
    while let Some(row) = tree.step(&mut walk) {
        write_row(walk.key(), walk.path(), row, into)?;
    }
    Ok(())
}

/// Appends the changes that make a row.
pub(crate) fn write_row(
    unit: &Key,
    path: &Path,
    row: &Row,
    into: &mut Vec<u8>,
) -> Result<(), AllocError>
    requires { IsWritableRow (unit.now, path.now) row.now }
    ensures written { OnOk result (into.new.items ≡ into.old.items ++ row_bytes (unit.now, path.now) row.now) }
    ensures capacity { vec_capacity into.old ≤ vec_capacity into.new }
    ensures room { (size : ℕ) → IsSoundRow size (stored_row row.now) → vec_len into.old + row_charge New (unit.now, path.now) row.now ≤ vec_capacity into.old → IsTrue (is_ok result) }
{
    match row {
        Row::Dir => write_dir(unit, path, into)?,
        Row::File(file) => write_file(unit, path, &FileContent::of(file), into)?,
    }
    Ok(())
}

// Appends the change that makes a directory.
#[tactic(auto, unfolding(opfs_codec::specs::Fields::plain, opfs_codec::specs::Fields::Fits, opfs_codec::specs::Fields::HasFewExtents, opfs_codec::specs::Charges::charge))]
fn write_dir(unit: &Key, path: &Path, into: &mut Vec<u8>) -> Result<(), AllocError>
    requires { IsWritablePlace (unit.now, path.now) }
    ensures written { OnOk result (into.new.items ≡ into.old.items ++ dir_bytes unit.now path.now) }
    ensures capacity { vec_capacity into.old ≤ vec_capacity into.new }
    ensures room { vec_len into.old + row_charge New (unit.now, path.now) row.Dir ≤ vec_capacity into.old → IsTrue (is_ok result) }
{
    if path.names().is_empty() {
        write(&ChangeRef::MakeRoot(unit), into)?;
    } else {
        write(&ChangeRef::MakeDir(unit, path), into)?;
    }
    Ok(())
}

/// Appends the changes that make a file and its content.
#[tactic(auto, unfolding(opfs_codec::specs::Fields::plain, opfs_codec::specs::Fields::Fits, opfs_codec::specs::Fields::HasFewExtents, opfs_codec::specs::Charges::charge))]
pub(crate) fn write_file(
    unit: &Key,
    path: &Path,
    file: &FileContent<'_>,
    into: &mut Vec<u8>,
) -> Result<(), AllocError>
    requires place { IsWritablePlace (unit.now, path.now) }
    requires file { IsWritableFile path.now (as_file file.now) }
    ensures written { OnOk result (into.new.items ≡ into.old.items ++ file_bytes unit.now path.now (as_file file.now)) }
    ensures capacity { vec_capacity into.old ≤ vec_capacity into.new }
    ensures room { length file.now.extents.now ≤ blocks file.now.length → vec_len into.old + row_charge New (unit.now, path.now) (row.File (as_file file.now)) ≤ vec_capacity into.old → IsTrue (is_ok result) }
{
    write(&ChangeRef::MakeFile(unit, path, file.stamp), into)?;
    write_content(unit, path, file, into)?;
    Ok(())
}

// Appends the change that gives a file its content, where it has bytes.
#[tactic(auto, unfolding(opfs_codec::specs::Fields::plain, opfs_codec::specs::Fields::Fits, opfs_codec::specs::Fields::HasFewExtents, opfs_codec::specs::Charges::charge))]
fn write_content(
    unit: &Key,
    path: &Path,
    file: &FileContent<'_>,
    into: &mut Vec<u8>,
) -> Result<(), AllocError>
    requires place { IsWritablePlace (unit.now, path.now) }
    requires file { IsWritableFile path.now (as_file file.now) }
    ensures written { OnOk result (into.new.items ≡ into.old.items ++ content_bytes unit.now path.now (as_file file.now)) }
    ensures capacity { vec_capacity into.old ≤ vec_capacity into.new }
    ensures room { length file.now.extents.now ≤ blocks file.now.length → vec_len into.old + (23 + unit_bytes unit.now + path_bytes path.now + 8 * blocks file.now.length) ≤ vec_capacity into.old → IsTrue (is_ok result) }
{
    if file.length == 0 {
        return Ok(());
    }
    let FileContent {
        stamp,
        length,
        extents,
    } = file;
    let content = ChangeRef::Content(unit, path, *stamp, *length, extents);
    write(&content, into)?;
    Ok(())
}
