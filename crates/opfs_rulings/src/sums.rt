//! What is counted in blocks, added up anew each time.

ghost use Rattle.std.specs.Prelude.{◌≡◌, IfOk, MatchOption, filter, flat_map, sum_by};
ghost use Rattle.std.specs.List.{list_any};
ghost use Rattle.opfs_base.specs.Texts.{Text, same_text};
ghost use Rattle.opfs_base.specs.Units.{origin_of};
ghost use Rattle.opfs_rulings.specs.Known.{IsAgent, freed};
ghost use Rattle.opfs_machine.specs.Agents.{agent_of, own_of};
ghost use Rattle.opfs_machine.specs.Contents.{in_bytes, outline_of};
ghost use Rattle.opfs_machine.specs.Sums.{usage, pool, charge, present_blocks, durable_blocks, row_reserve, reserve_of, row_charge};
ghost use Rattle.opfs_base.specs.Measures.{mode_charge};
ghost use Rattle.opfs_machine.specs.declared.own.Own.{Own};
ghost use Rattle.opfs_machine.specs.declared.state.Agent.{Agent};

use crate::agents::own_row;
use crate::board::Board;
use crate::rows::PlacedRow;
use crate::weights::{durable_blocks, reserve_of};
use opfs_base::{Key, origin_of, plus};
use std::alloc::AllocError;

/// Whether a unit is of an origin, whose key is told.
pub fn is_of(origin: &[u8], unit: &Key) -> bool
    ensures { result ≡ same_text origin.now (origin_of unit.now) }
{
    origin == origin_of(unit.as_bytes())
}

/// Whether a unit is among some.
fn is_among(units: &[Key], unit: &Key) -> bool
    ensures { result ≡ list_any (λ u. same_text u unit.now) units.now }
{
    units.iter().any(|other| *other == *unit)
}

/// The blocks of the durable bytes of a unit's files.
fn unit_pool(rows: &[PlacedRow], unit: &Key) -> Result<u64, AllocError>
    ensures { IfOk result (λ total. total ≡ sum_by (λ e. durable_blocks in_bytes e.1) (filter (λ e. same_text unit.now e.0.0) rows.now)) }
{
    let mut total = 0;
    for entry in rows {
        if *unit == entry.0.0 {
            total = plus(total, durable_blocks(&entry.1))?;
        }
    }
    Ok(total)
}

/// The blocks that clearing a unit frees, once some units are cleared.
pub fn freed(state: &Board, gone: &[Key], unit: &Key) -> Result<u64, AllocError>
    ensures { IfOk result (λ total. total ≡ freed gone.now unit.now state.now.rows) }
{
    if is_among(gone, unit) {
        return Ok(0);
    }
    let total = unit_pool(state.held().rows.items.as_slice(), unit)?;
    Ok(total)
}

/// The reserve of the own row of a number; 0 where there is none.
pub fn reserve_at(state: &Board, number: u32, row: u32) -> u64
    requires { IsAgent state.now number }
    ensures { MatchOption (own_of (agent_of state.now number) row) (result ≡ 0) (λ r. result ≡ reserve_of (outline_of r)) }
{
    match own_row(state, number, row) {
        Some(row) => reserve_of(row),
        None => 0,
    }
}
