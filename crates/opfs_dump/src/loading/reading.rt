//! What bytes read as.

ghost use Rattle.std.specs.Prelude.{◌≡◌, ◌⊎◌, [], map, true, None, Some, Ok, Err, IfOk, IfErr};
ghost use Rattle.serde_json.specs.View.{view};
ghost use Rattle.opfs_script.specs.Reading.{json_of};
ghost use Rattle.opfs_dump.specs.Text.Limits.{are_units, may_all_follow};
ghost use Rattle.opfs_dump.specs.Text.Reading.{if_fits, if_json, if_topped, reads_dump};
ghost use Rattle.opfs_dump.specs.Text.Seen.{map_of, row_of};
ghost use Rattle.opfs_dump.specs.Text.Whole.{dump_of};
ghost use Rattle.opfs_image.specs.Superblock.{is_in_range};
ghost use Rattle.opfs_dump.specs.Loading.Answers.{Answers};

use crate::loading::fault::Fault;
use crate::loading::rows::rows_of;
use crate::loading::sums::{blocks_needed, charge_of};
use crate::loading::top::{Top, top_in};
use crate::text::{DumpRefusal, Dumped, DumpedRow};
use opfs_base::{BLOCK_SIZE, Key};
use opfs_image::Geometry;
use serde_json::Value;
use std::alloc::Global;

// The most bytes that a text may have.
const MOST_BYTES: usize = 67_108_864;

// The JSON value that bytes are.
fn json_of(alloc: Global, bytes: &[u8]) -> Result<Value, DumpRefusal>
    ensures value { IfOk result (λ value. json_of bytes.now ≡ Some (view value)) }
    ensures refused { IfErr result (λ why. ((why ≡ DumpRefusal.NotJson) × (json_of bytes.now ≡ None)) ⊎ (why ≡ DumpRefusal.NoMemory)) }
{
    let Ok(text) = str::from_utf8(bytes) else {
        return Err(DumpRefusal::NotJson);
    };
    match Value::from_str(alloc, text) {
        Ok(value) => Ok(value),
        Err(error) if error.is_memory() => Err(DumpRefusal::NoMemory),
        Err(_) => Err(DumpRefusal::NotJson),
    }
}

// What was read, if there is room for it.
#[tactic(auto, unfolding(crate::specs::Text::Reading::if_fits))]
fn fitting(
    geometry: Geometry,
    rows: Vec<DumpedRow>,
    persistent: Vec<Key>,
) -> Result<Dumped, DumpRefusal>
    requires range { is_in_range geometry ≡ true }
    requires order { may_all_follow [] (map row_of rows.items) ≡ true }
    requires units { are_units persistent.items ≡ true }
    ensures { Answers dump_of result (if_fits (record { geometry = geometry; map = map_of rows.items persistent.items })) }
{
    let need = blocks_needed(&rows)?;
    let blocks = u64::from(geometry.blocks);
    if blocks < need {
        return Err(DumpRefusal::Full(need, blocks));
    }
    let charge = charge_of(&rows, &persistent)?;
    let area = BLOCK_SIZE * u64::from(geometry.areas);
    if area < charge.saturating_add(7) {
        return Err(DumpRefusal::Overfull(charge, area));
    }
    Ok(Dumped {
        geometry,
        rows,
        persistent,
    })
}

// The rows, and what was read.
fn with_rows(
    alloc: Global,
    geometry: Geometry,
    persistent: Vec<Key>,
    rows: &[Value],
) -> Result<Dumped, DumpRefusal>
    requires range { is_in_range geometry ≡ true }
    requires units { are_units persistent.items ≡ true }
    ensures { Answers dump_of result (if_topped (Some (record { geometry = geometry; persistent = persistent.items; rows = map view rows.now }))) }
{
    let rows = rows_of(alloc, rows)?;
    fitting(geometry, rows, persistent)
}

// What a JSON value is.
fn dump_of(alloc: Global, value: &Value) -> Result<Dumped, DumpRefusal>
    ensures { Answers dump_of result (if_json (Some (view value.now))) }
{
    match top_in(alloc, value) {
        Ok(
            Top {
                geometry,
                persistent,
                rows,
            },
        ) => with_rows(alloc, geometry, persistent, rows),
        Err(Fault::Form) => Err(DumpRefusal::BadDump(0)),
        Err(Fault::Memory) => Err(DumpRefusal::NoMemory),
    }
}

/// What bytes are as the dump of an image. Of several reasons to refuse them the first one counts: that they are too many; that
/// they are no JSON; the form of the whole but for its rows; per row, in order, its form, that it comes behind the row before
/// it, that its unit is one, and that it can be made; that the files have blocks enough; and that all fits an area.
#[tactic(auto, unfolding(crate::specs::Text::Reading::reads_dump))]
pub fn read_dump(alloc: Global, bytes: &[u8]) -> Result<Dumped, DumpRefusal>
    ensures ok { IfOk result (λ dumped. reads_dump bytes.now ≡ Ok (dump_of dumped)) }
    ensures err { IfErr result (λ why. (reads_dump bytes.now ≡ Err why) ⊎ (why ≡ DumpRefusal.NoMemory)) }
{
    if bytes.len() > MOST_BYTES {
        return Err(DumpRefusal::TooLong);
    }
    let value = json_of(alloc, bytes)?;
    dump_of(alloc, &value)
}
