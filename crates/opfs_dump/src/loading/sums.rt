//! How many blocks the files of a text take, and its charge.

ghost use Rattle.std.specs.Prelude.{◌≡◌, ◌+◌, ◌*◌, map, sum_by, IfOk};
ghost use Rattle.opfs_base.specs.Measures.{mode_charge};
ghost use Rattle.opfs_codec.specs.declared.change.Format.TheVariants.{New};
ghost use Rattle.opfs_dump.specs.Text.Limits.{bare_row, blocks_needed, charge_of_map, stored_blocks};
ghost use Rattle.opfs_dump.specs.Text.Seen.{map_of, row_of, stored_of};
ghost use Rattle.opfs_records.specs.Replay.Sums.{row_charge};
ghost use Rattle.opfs_tree.specs.Rows.{kind_of};

use crate::text::{DumpedFile, DumpedRow};
use opfs_base::{BLOCK_CHARGE, Key, Kind, blocks, mode_charge, place_charge, plus, times};
use std::alloc::AllocError;

// The blocks that a row takes.
fn blocks_of(file: &Option<DumpedFile>) -> u64
    ensures { result ≡ stored_blocks (stored_of file.now) }
{
    match file {
        None => 0,
        Some(file) => blocks(file.bytes.len() as u64),
    }
}

/// The blocks that all files take.
pub(crate) fn blocks_needed(rows: &[DumpedRow]) -> Result<u64, AllocError>
    ensures { IfOk result (λ sum. sum ≡ blocks_needed (map row_of rows.now)) }
{
    let mut sum = 0;
    for row in rows {
        sum = plus(sum, blocks_of(&row.file))?;
    }
    Ok(sum)
}

// What a row is.
fn kind_of(file: &Option<DumpedFile>) -> Kind
    ensures { result ≡ kind_of (bare_row (stored_of file.now)) }
{
    match file {
        None => Kind::Directory,
        Some(_) => Kind::File,
    }
}

// What a row adds to the charge.
fn row_charge(row: &DumpedRow) -> Result<u64, AllocError>
    ensures { IfOk result (λ charge. charge ≡ row_charge New row.now.place (bare_row (stored_of row.now.file))) }
{
    let made = place_charge(kind_of(&row.file), &row.place)?;
    let stored = times(BLOCK_CHARGE, blocks_of(&row.file))?;
    let charge = plus(made, stored)?;
    Ok(charge)
}

// What all rows add to the charge.
fn rows_charge(rows: &[DumpedRow]) -> Result<u64, AllocError>
    ensures { IfOk result (λ sum. sum ≡ sum_by (λ row. row_charge New row.place (bare_row (stored_of row.file))) rows.now) }
{
    let mut sum = 0;
    for row in rows {
        sum = plus(sum, row_charge(row)?)?;
    }
    Ok(sum)
}

// What all persistent units add to the charge.
fn modes_charge(units: &[Key]) -> Result<u64, AllocError>
    ensures { IfOk result (λ sum. sum ≡ sum_by mode_charge units.now) }
{
    let mut sum = 0;
    for unit in units {
        sum = plus(sum, mode_charge(unit)?)?;
    }
    Ok(sum)
}

/// The charge of what was read.
pub(crate) fn charge_of(rows: &[DumpedRow], persistent: &[Key]) -> Result<u64, AllocError>
    ensures { IfOk result (λ charge. charge ≡ charge_of_map (map_of rows.now persistent.now)) }
{
    let rows = rows_charge(rows)?;
    let modes = modes_charge(persistent)?;
    let charge = plus(rows, modes)?;
    Ok(charge)
}
