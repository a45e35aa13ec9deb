//! Where a place stands among rows in their order.

ghost use Rattle.std.specs.Prelude.{◌≡◌, ◌≤◌, not, filter, length, take, IfOk, IfErr};
ghost use Rattle.std.specs.Option.{option_copied};
ghost use Rattle.std.specs.FinMap.Entries.{find};
ghost use Rattle.opfs_base.specs.Places.{place_cmp, is_within};
ghost use Rattle.opfs_rulings.specs.Courses.{names_in};
ghost use Rattle.opfs_rulings.specs.Spots.{AreRising, IsFirst, IsThere, IsMissing, IsUpto};

use crate::rows::PlacedRow;
use opfs_base::{Key, Path, SharedBytes, compare_places, is_within};
use opfs_machine::{Place, Row};

/// The index of the row at a place, or else the one that it would have.
pub fn spot_of(rows: &[PlacedRow], key: &Key, path: &Path) -> Result<usize, usize>
    requires { AreRising rows.now }
    ensures there { IfOk result (IsThere (key.now, path.now) rows.now) }
    ensures missing { IfErr result (IsMissing (key.now, path.now) rows.now) }
{
    let mut low = 0;
    let mut high = rows.len();
    while low < high {
        let middle = low + (high - low) / 2;
        let order = compare_places(key, path, &rows[middle].0);
        if order.is_eq() {
            return Ok(middle);
        }
        if order.is_lt() {
            high = middle;
        } else {
            low = middle + 1;
        }
    }
    Err(low)
}

/// The row at a place.
pub fn find_row<'a>(rows: &'a [PlacedRow], key: &Key, path: &Path) -> Option<&'a Row<SharedBytes>>
    requires { AreRising rows.now }
    ensures { option_copied result ≡ find place_cmp (key.now, path.now) rows.now }
{
    match spot_of(rows, key, path) {
        Ok(at) => Some(&rows[at].1),
        Err(_) => None,
    }
}

/// The index of the first row that is not before a place.
fn first_from(rows: &[PlacedRow], place: &Place) -> usize
    requires { AreRising rows.now }
    ensures { IsFirst place.now rows.now result }
{
    match spot_of(rows, &place.0, &place.1) {
        Ok(at) => at,
        Err(at) => at,
    }
}

/// The rows that are not before a place.
fn rows_from<'a>(rows: &'a [PlacedRow], place: &Place) -> &'a [PlacedRow]
    requires { AreRising rows.now }
    ensures rising { AreRising result.now }
    ensures upto { IsUpto place.now result.now }
    ensures names { names_in place.now result.now ≡ names_in place.now rows.now }
{
    let at = first_from(rows, place);
    &rows[at..]
}

/// How many rows, none of them before a place, stand in front of the first that is not within it.
fn end_within(rows: &[PlacedRow], place: &Place) -> usize
    requires rising { AreRising rows.now }
    requires upto { IsUpto place.now rows.now }
    ensures within { result ≤ length rows.now }
    ensures names { names_in place.now (take result rows.now) ≡ names_in place.now rows.now }
{
    let mut low = 0;
    let mut high = rows.len();
    while low < high {
        let middle = low + (high - low) / 2;
        if is_within(&place.0, &place.1, &rows[middle].0) {
            low = middle + 1;
        } else {
            high = middle;
        }
    }
    high
}

/// The row at a place and those below it.
pub fn rows_within<'a>(rows: &'a [PlacedRow], place: &Place) -> &'a [PlacedRow]
    requires { AreRising rows.now }
    ensures { names_in place.now result.now ≡ names_in place.now rows.now }
{
    let rest = rows_from(rows, place);
    let end = end_within(rest, place);
    &rest[..end]
}

/// Takes out the row at a place and all below it.
pub fn remove_rows(rows: &mut Vec<PlacedRow>, place: &Place)
    ensures { rows.new.items ≡ filter (λ e. not (is_within place.now e.0)) rows.old.items }
{
    rows.retain(|entry| !is_within(&place.0, &place.1, &entry.0));
}
