//! The rows of a tree are written as one change more leaves them.

ghost use Rattle.std.specs.Prelude.{◌≡◌, ◌≤◌, ◌+◌, ◌++◌, ℕ, OnOk, [], ◌∷◌, Some, length, sum_by, option_map, vec_len, vec_capacity, is_ok, IsTrue};
ghost use Rattle.std.specs.List.{AllByRecursion};
ghost use Rattle.opfs_base.specs.Blocks.{blocks};
ghost use Rattle.opfs_codec.specs.Fields.{plain};
ghost use Rattle.opfs_codec.specs.declared.change.Format.TheVariants.{New};
ghost use Rattle.opfs_records.specs.Replay.Built.{IsSoundRow};
ghost use Rattle.opfs_records.specs.Replay.Sums.{row_charge};
ghost use Rattle.opfs_records.specs.Checkpoint.After.{leaves_out, given, row_with, rows_after};
ghost use Rattle.opfs_records.specs.Checkpoint.Contents.{as_file};
ghost use Rattle.opfs_records.specs.Checkpoint.Written.{file_bytes, row_bytes, rows_bytes, IsWritablePlace, IsWritableFile, IsWritableRow, stored_row};
ghost use Rattle.opfs_tree.specs.declared.row.Row.TheVariants as row;

use crate::checkpoint::content::FileContent;
use crate::checkpoint::rows::{write_file, write_row};
use opfs_base::{Key, Path, begins_with};
use opfs_codec::ChangeRef;
use opfs_tree::{ReadyTree, Row, Walk};
use std::alloc::AllocError;

/// Appends the changes that build the rows which a change leaves, with the content that it gives.
pub(crate) fn write_rows_after(
    tree: &ReadyTree,
    own: &ChangeRef<'_>,
    into: &mut Vec<u8>,
) -> Result<(), AllocError>
    requires { AllByRecursion (λ e. IsWritableRow e.0 e.1) (rows_after (plain own.now) tree.now.rows) }
    ensures written { OnOk result (into.new.items ≡ into.old.items ++ rows_bytes (rows_after (plain own.now) tree.now.rows)) }
    ensures capacity { vec_capacity into.old ≤ vec_capacity into.new }
    ensures room { (size : ℕ) → AllByRecursion (λ e. IsSoundRow size (stored_row e.1)) (rows_after (plain own.now) tree.now.rows) → vec_len into.old + sum_by (λ e. row_charge New e.0 e.1) (rows_after (plain own.now) tree.now.rows) ≤ vec_capacity into.old → IsTrue (is_ok result) }
{
    let mut walk = Walk::make();
    while let Some(row) = tree.step(&mut walk) {
        write_row_after(own, walk.key(), walk.path(), row, into)?;
    }
    Ok(())
}

// Appends the changes that make a row which a change leaves, and nothing for one that it takes out.
fn write_row_after(
    own: &ChangeRef<'_>,
    unit: &Key,
    path: &Path,
    row: &Row,
    into: &mut Vec<u8>,
) -> Result<(), AllocError>
    requires { AllByRecursion (λ e. IsWritableRow e.0 e.1) (rows_after (plain own.now) (((unit.now, path.now), row.now) ∷ [])) }
    ensures written { OnOk result (into.new.items ≡ into.old.items ++ rows_bytes (rows_after (plain own.now) (((unit.now, path.now), row.now) ∷ []))) }
    ensures capacity { vec_capacity into.old ≤ vec_capacity into.new }
    ensures room { (size : ℕ) → AllByRecursion (λ e. IsSoundRow size (stored_row e.1)) (rows_after (plain own.now) (((unit.now, path.now), row.now) ∷ [])) → vec_len into.old + sum_by (λ e. row_charge New e.0 e.1) (rows_after (plain own.now) (((unit.now, path.now), row.now) ∷ [])) ≤ vec_capacity into.old → IsTrue (is_ok result) }
{
    if leaves_out(own, unit, path) {
        return Ok(());
    }
    write_row_with(own, unit, path, row, into)?;
    Ok(())
}

// Appends the changes that make a row with the content that its file is given.
fn write_row_with(
    own: &ChangeRef<'_>,
    unit: &Key,
    path: &Path,
    row: &Row,
    into: &mut Vec<u8>,
) -> Result<(), AllocError>
    requires { IsWritableRow (unit.now, path.now) (row_with (given (plain own.now) (unit.now, path.now)) row.now) }
    ensures written { OnOk result (into.new.items ≡ into.old.items ++ row_bytes (unit.now, path.now) (row_with (given (plain own.now) (unit.now, path.now)) row.now)) }
    ensures capacity { vec_capacity into.old ≤ vec_capacity into.new }
    ensures room { (size : ℕ) → IsSoundRow size (stored_row (row_with (given (plain own.now) (unit.now, path.now)) row.now)) → vec_len into.old + row_charge New (unit.now, path.now) (row_with (given (plain own.now) (unit.now, path.now)) row.now) ≤ vec_capacity into.old → IsTrue (is_ok result) }
{
    match content_for(own, unit, path) {
        Some(content) => write_given(unit, path, row, &content, into)?,
        None => write_row(unit, path, row, into)?,
    }
    Ok(())
}

// Appends the changes that make a row whose file is given a content.
fn write_given(
    unit: &Key,
    path: &Path,
    row: &Row,
    content: &FileContent<'_>,
    into: &mut Vec<u8>,
) -> Result<(), AllocError>
    requires { IsWritableRow (unit.now, path.now) (row_with (Some (as_file content.now)) row.now) }
    ensures written { OnOk result (into.new.items ≡ into.old.items ++ row_bytes (unit.now, path.now) (row_with (Some (as_file content.now)) row.now)) }
    ensures capacity { vec_capacity into.old ≤ vec_capacity into.new }
    ensures room { (size : ℕ) → IsSoundRow size (stored_row (row_with (Some (as_file content.now)) row.now)) → vec_len into.old + row_charge New (unit.now, path.now) (row_with (Some (as_file content.now)) row.now) ≤ vec_capacity into.old → IsTrue (is_ok result) }
{
    match row {
        Row::Dir => write_row(unit, path, row, into)?,
        Row::File(_) => write_file(unit, path, content, into)?,
    }
    Ok(())
}

// Whether a change takes out what stands at a place.
#[tactic(auto, unfolding(opfs_codec::specs::Fields::plain, crate::specs::Checkpoint::After::leaves_out))]
fn leaves_out(own: &ChangeRef<'_>, unit: &Key, path: &Path) -> bool
    ensures { result ≡ leaves_out (plain own.now) (unit.now, path.now) }
{
    match own {
        ChangeRef::Remove(top, above) => {
            **top == *unit && begins_with(above.names(), path.names())
        }
        ChangeRef::Evict(top) => **top == *unit,
        _ => false,
    }
}

// The content that a change gives a file at a place.
#[tactic(auto, unfolding(opfs_codec::specs::Fields::plain, crate::specs::Checkpoint::After::given))]
fn content_for<'a>(own: &ChangeRef<'a>, unit: &Key, path: &Path) -> Option<FileContent<'a>>
    ensures { option_map as_file result ≡ given (plain own.now) (unit.now, path.now) }
{
    match own {
        ChangeRef::Content(top, at, stamp, length, extents) => {
            if !(**top).cmp(unit).then((**at).cmp(path)).is_eq() {
                return None;
            }
            Some(FileContent {
                stamp: *stamp,
                length: *length,
                extents: *extents,
            })
        }
        _ => None,
    }
}
