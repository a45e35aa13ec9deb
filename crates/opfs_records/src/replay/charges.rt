//! What rows and persistent units add to the charge.

ghost use Rattle.std.specs.Prelude.{◌≡◌, ◌+◌, ◌*◌, IfOk};
ghost use Rattle.opfs_base.specs.Blocks.{blocks};
ghost use Rattle.opfs_codec.specs.Charges.{unit_bytes, path_bytes};
ghost use Rattle.opfs_codec.specs.declared.change.Format.TheVariants.{New};
ghost use Rattle.opfs_records.specs.Replay.Sums.{row_charge};
ghost use Rattle.opfs_tree.specs.declared.row.Row.TheVariants as row;

use opfs_base::{Key, Path, path_bytes, plus, unit_bytes};
use opfs_tree::Row;
use std::alloc::AllocError;

/// What a row adds to the charge in format 2.
pub(crate) fn row_charge(unit: &Key, path: &Path, row: &Row) -> Result<u64, AllocError>
    ensures { IfOk result (λ charge. charge ≡ row_charge New (unit.now, path.now) row.now) }
{
    match row {
        Row::Dir => {
            let charge = directory_charge(unit, path)?;
            Ok(charge)
        }
        Row::File(file) => {
            let charge = file_charge(unit, path, file.length)?;
            Ok(charge)
        }
    }
}

// What a directory adds.
fn directory_charge(unit: &Key, path: &Path) -> Result<u64, AllocError>
    ensures { IfOk result (λ charge. charge ≡ row_charge New (unit.now, path.now) row.Dir) }
{
    let unit = unit_bytes(unit)?;
    let root = plus(3, unit)?;
    if path.names().is_empty() {
        return Ok(root);
    }
    let names = path_bytes(path)?;
    let charge = plus(root, names)?;
    Ok(charge)
}

// What a file of so many bytes adds.
fn file_charge(unit: &Key, path: &Path, length: u64) -> Result<u64, AllocError>
    ensures { IfOk result (λ charge. charge ≡ 34 + 2 * (unit_bytes unit.now + path_bytes path.now) + 8 * blocks length) }
{
    let unit = unit_bytes(unit)?;
    let names = path_bytes(path)?;
    let place = plus(unit, names)?;
    let twice = plus(place, place)?;
    let charge = plus(twice, 34 + 8 * length.div_ceil(4096))?;
    Ok(charge)
}
