//! What rows weigh in a tally.

ghost use Rattle.std.specs.Prelude.{◌≡◌, ℕ, ◌+◌, if◌then◌else◌, not, filter, sum_by, IfOk, IfSome};
ghost use Rattle.opfs_base.specs.Places.{is_within};
ghost use Rattle.opfs_base.specs.Units.{origin_of};
ghost use Rattle.opfs_machine.specs.Contents.{in_bytes, outline_of};
ghost use Rattle.opfs_machine.specs.Sums.{present_blocks, durable_blocks, reserve_of, row_charge};
ghost use Rattle.opfs_rulings.specs.Tallies.{Count, row_weight, own_origin, stream_part, IsTallyOf, IsRowWeight, IsOwnWeight};

use crate::rows::PlacedRow;
use crate::tally::{Tally, Weight, lowered};
use opfs_base::{Kind, SharedBytes, blocks, is_within, origin_of, place_charge};
use opfs_machine::{Own, Place, Row};
use std::alloc::AllocError;

/// The blocks of a row's present bytes.
pub fn present_blocks(row: &Row<SharedBytes>) -> u64
    ensures { result ≡ present_blocks in_bytes row.now }
{
    match row {
        Row::Directory => 0,
        Row::File(file) => blocks(file.present.len() as u64),
    }
}

/// The blocks of a row's durable bytes.
pub fn durable_blocks(row: &Row<SharedBytes>) -> u64
    ensures { result ≡ durable_blocks in_bytes row.now }
{
    match row {
        Row::Directory => 0,
        Row::File(file) => blocks(file.durable.len() as u64),
    }
}

/// The charge of a row at a place.
pub fn charge_at(place: &Place, row: &Row<SharedBytes>) -> Result<u64, AllocError>
    ensures { IfOk result (λ charge. charge ≡ row_charge (place.now, row.now)) }
{
    match row {
        Row::Directory => place_charge(Kind::Directory, place),
        Row::File(_) => place_charge(Kind::File, place),
    }
}

/// What a row at a place weighs; none where its charge is too large.
pub fn weigh_row(place: &Place, row: &Row<SharedBytes>) -> Option<Weight>
    ensures { IfSome result (IsRowWeight place.now row.now) }
{
    let charge = match charge_at(place, row) {
        Ok(charge) => charge,
        Err(_) => return None,
    };
    Some(Weight {
        pool: durable_blocks(row),
        charge,
        usage: present_blocks(row),
    })
}

/// The reserve of an own row.
pub fn reserve_of(row: &Own) -> u64
    ensures { result ≡ reserve_of (outline_of row.now) }
{
    match row {
        Own::Stream(stream) => stream.reserve,
        Own::Handle(handle) => handle.reserve,
        _ => 0,
    }
}

/// The reserve of a stream; 0 for another own row.
fn stream_part(row: &Own) -> u64
    ensures { result ≡ stream_part row.now }
{
    match row {
        Own::Stream(stream) => stream.reserve,
        _ => 0,
    }
}

/// The origin of an own row that counts for one; no text for another.
pub fn own_origin(row: &Own) -> &[u8]
    ensures { result.now ≡ own_origin row.now }
{
    match row {
        Own::Stream(stream) => origin_of(stream.file.0.as_bytes()),
        _ => &[],
    }
}

/// What an own row weighs.
pub fn weigh_own(row: &Own) -> Weight
    ensures { IsOwnWeight row.now result }
{
    Weight {
        pool: reserve_of(row),
        charge: 0,
        usage: stream_part(row),
    }
}

/// A tally without a row, where that stands at a place or below it.
fn lowered_by(tally: Option<Tally>, entry: &PlacedRow, place: &Place) -> Option<Tally>
    ensures { (counts : Count → ℕ) → IfSome tally (IsTallyOf (λ c. (if is_within place.now entry.now.0 then row_weight c entry.now else 0) + counts c)) → IfSome result (IsTallyOf counts) }
{
    if is_within(&place.0, &place.1, &entry.0) {
        return lowered(
            tally,
            origin_of(entry.0.0.as_bytes()),
            weigh_row(&entry.0, &entry.1),
        );
    }
    tally
}

/// A tally without the rows at a place and below it.
pub fn lowered_within(tally: Option<Tally>, rows: &[PlacedRow], place: &Place) -> Option<Tally>
    ensures { (rest : Count → ℕ) → IfSome tally (IsTallyOf (λ c. sum_by (row_weight c) rows.now + rest c))
        → IfSome result (IsTallyOf (λ c. sum_by (row_weight c) (filter (λ e. not (is_within place.now e.0)) rows.now) + rest c)) }
{
    let mut left = tally;
    for entry in rows {
        left = lowered_by(left, entry, place);
    }
    left
}
