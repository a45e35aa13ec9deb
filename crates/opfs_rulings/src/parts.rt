//! The parts of a state, changed.

ghost use Rattle.std.specs.Prelude.{◌≡◌, ℕ, ◌+◌, ◌<◌, ◌≤◌, ◌++◌, ◌∷◌, [], None, Some, true, false, not, IfOk, IfErr, IfSome, OnOk, OnErr, filter, length, sum_by, slice_get, slice_set};
ghost use Rattle.std.specs.List.{insert};
ghost use Rattle.std.specs.Option.{option_copied};
ghost use Rattle.std.specs.Ordering.{nat_cmp};
ghost use Rattle.std.specs.Cmp.Lexicographic.{slice_cmp};
ghost use Rattle.opfs_base.specs.Places.{is_within};
ghost use Rattle.opfs_machine.specs.Ordered.{insert_by};
ghost use Rattle.opfs_machine.specs.Rows.{row_at, without};
ghost use Rattle.opfs_machine.specs.Agents.{agent_of, own_of, with_agent, with_own, adds_own, counted};
ghost use Rattle.opfs_machine.specs.Effects.{with_waiting};
ghost use Rattle.opfs_rulings.specs.Known.{IsAgent, IsOwn};
ghost use Rattle.opfs_rulings.specs.Spots.{AreRising, IsThere, IsMissing};
ghost use Rattle.opfs_rulings.specs.Tallies.{Count, row_weight, IsTallyOf};

use crate::agents::key_of;
use crate::ordered::{insert, put};
use crate::rows::PlacedRow;
use crate::spots::{find_row, remove_rows, spot_of};
use crate::tally::Tally;
use crate::weights::lowered_within;
use opfs_base::{Bytes, Key, Path, SharedBytes, plus};
use opfs_machine::{Own, Place, Row, State};
use std::alloc::{AllocError, Global};
use std::mem;

/// The index of the row at a place, or else the one that it would have.
pub fn spot_in(state: &State<SharedBytes, Own>, key: &Key, path: &Path) -> Result<usize, usize>
    requires { AreRising state.now.rows }
    ensures there { IfOk result (IsThere (key.now, path.now) state.now.rows) }
    ensures missing { IfErr result (IsMissing (key.now, path.now) state.now.rows) }
{
    let spot = spot_of(state.rows.items.as_slice(), key, path);
    spot
}

/// The row at a place.
pub fn row_in<'a>(
    state: &'a State<SharedBytes, Own>,
    key: &Key,
    path: &Path,
) -> Option<&'a Row<SharedBytes>>
    requires { AreRising state.now.rows }
    ensures { option_copied result ≡ row_at state.now (key.now, path.now) }
{
    find_row(state.rows.items.as_slice(), key, path)
}

/// Puts a row at an index, behind those before it.
pub fn insert_row(
    state: &mut State<SharedBytes, Own>,
    at: usize,
    place: Place,
    row: Row<SharedBytes>,
) -> Result<(), AllocError>
    requires { IsMissing place state.old.rows at }
    ensures ok { OnOk result (state.new ≡ record state.old { rows = insert state.old.rows at (place, row) }) }
    ensures err { OnErr result (state.new ≡ state.old) }
{
    state.rows.items.insert(at, (place, row))?;
    Ok(())
}

/// Puts another row at the place of one, and gives that.
pub fn exchange_row(
    state: &mut State<SharedBytes, Own>,
    at: usize,
    place: &Place,
    row: Row<SharedBytes>,
) -> Row<SharedBytes>
    requires { IsThere place.now state.old.rows at }
    ensures rows { state.new ≡ record state.old { rows = slice_set state.old.rows at (place.now, row) } }
    ensures old { slice_get state.old.rows at ≡ Some (place.now, result) }
{
    let _ = place;
    let gone = exchange_in(state.rows.items.as_mut_slice(), at, place, row);
    gone
}

/// The same in a list of rows.
fn exchange_in(
    rows: &mut [PlacedRow],
    at: usize,
    place: &Place,
    row: Row<SharedBytes>,
) -> Row<SharedBytes>
    requires { IsThere place.now rows.old at }
    ensures rows { rows.new ≡ slice_set rows.old at (place.now, row) }
    ensures old { slice_get rows.old at ≡ Some (place.now, result) }
{
    let _ = place;
    mem::replace(&mut rows[at].1, row)
}

/// Takes out the row at a place and all below it.
pub fn remove_in(state: &mut State<SharedBytes, Own>, place: &Place)
    ensures { state.new ≡ without state.old place.now }
{
    remove_rows(&mut state.rows.items, place);
}

/// A tally without the rows at a place and below it.
pub fn lowered_in(
    tally: Option<Tally>,
    state: &State<SharedBytes, Own>,
    place: &Place,
) -> Option<Tally>
    ensures { (rest : Count → ℕ) → IfSome tally (IsTallyOf (λ c. sum_by (row_weight c) state.now.rows + rest c))
        → IfSome result (IsTallyOf (λ c. sum_by (row_weight c) (filter (λ e. not (is_within place.now e.0)) state.now.rows) + rest c)) }
{
    lowered_within(tally, state.rows.items.as_slice(), place)
}

/// Makes a unit persistent, and tells whether it was not.
pub fn insert_mode(state: &mut State<SharedBytes, Own>, unit: Key) -> Result<bool, AllocError>
    ensures state { OnOk result (state.new ≡ record state.old { persistent = insert_by (slice_cmp nat_cmp) unit state.old.persistent }) }
    ensures new { IfOk result (λ is_new. is_new ≡ true → length state.old.persistent < length state.new.persistent) }
    ensures old { IfOk result (λ is_new. is_new ≡ false → length state.new.persistent ≤ length state.old.persistent) }
    ensures err { OnErr result (state.new.rows ≡ state.old.rows) }
{
    let before = state.persistent.items.len();
    insert(&mut state.persistent.items, unit)?;
    let is_new = before < state.persistent.items.len();
    Ok(is_new)
}

/// Gives an agent one more own row.
pub fn add_own(state: &mut State<SharedBytes, Own>, number: u32, row: Own) -> Result<(), AllocError>
    requires { IsAgent state.old number }
    ensures ok { OnOk result (state.new ≡ adds_own state.old number row) }
    ensures err { OnErr result (state.new ≡ state.old) }
{
    let agent = &mut state.agents.items[number as usize - 1];
    agent.own.items.push(row)?;
    Ok(())
}

/// Puts another own row in the place of one, and gives that.
pub fn exchange_own(state: &mut State<SharedBytes, Own>, number: u32, row: u32, own: Own) -> Own
    requires agent { IsAgent state.old number }
    requires row { IsOwn (agent_of state.old number) row }
    ensures state { state.new ≡ with_own state.old number row own }
    ensures old { own_of (agent_of state.old number) row ≡ Some result }
{
    let agent = &mut state.agents.items[number as usize - 1];
    mem::replace(&mut agent.own.items[row as usize - 1], own)
}

/// Sets an agent's clock, in milliseconds.
pub fn set_moment(state: &mut State<SharedBytes, Own>, number: u32, moment: u64)
    requires { IsAgent state.old number }
    ensures { state.new ≡ with_agent state.old number (record (agent_of state.old number) { moment = moment }) }
{
    let agent = &mut state.agents.items[number as usize - 1];
    agent.moment = moment;
}

/// Marks an agent as waiting for a tag, or for none.
pub fn set_waiting(state: &mut State<SharedBytes, Own>, number: u32, tag: Option<Bytes>)
    requires { IsAgent state.old number }
    ensures { state.new ≡ with_waiting state.old number tag }
{
    let agent = &mut state.agents.items[number as usize - 1];
    agent.waits = tag;
}

/// Ends an agent.
pub fn end(state: &mut State<SharedBytes, Own>, number: u32)
    requires { IsAgent state.old number }
    ensures { state.new ≡ with_agent state.old number (record (agent_of state.old number) { live = false; waits = None }) }
{
    let agent = &mut state.agents.items[number as usize - 1];
    agent.live = false;
    agent.waits = None;
}

/// Counts an entry of an agent, which is the last use of its origin.
pub fn count(
    alloc: Global,
    state: &mut State<SharedBytes, Own>,
    number: u32,
) -> Result<(), AllocError>
    ensures ok { OnOk result (state.new ≡ counted state.old number) }
    ensures rows { state.new.rows ≡ state.old.rows }
    ensures agents { state.new.agents ≡ state.old.agents }
    ensures modes { state.new.persistent ≡ state.old.persistent }
{
    let entry = plus(state.entries, 1)?;
    if let Some(origin) = key_of(alloc, state, number)? {
        put(&mut state.used.items, origin, entry)?;
    }
    state.entries = entry;
    Ok(())
}
