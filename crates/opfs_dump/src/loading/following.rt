//! Rows that may follow others.

ghost use Rattle.std.specs.Prelude.{◌≡◌, ◌&&◌, [], true, false, not, nat_le, length, map, is_some, None, IfErr, IfOk, IsTrue, OnOk, MatchResult};
ghost use Rattle.std.specs.FinMap.Entries.{put};
ghost use Rattle.serde_json.specs.View.{view};
ghost use Rattle.opfs_base.specs.Names.{is_valid_name};
ghost use Rattle.opfs_base.specs.Places.{place_cmp};
ghost use Rattle.opfs_dump.specs.Text.Limits.{bare_row, bare_rows, can_stand, is_behind, last_of, may_follow, places_of};
ghost use Rattle.opfs_dump.specs.Text.Reading.{next_row};
ghost use Rattle.opfs_dump.specs.Text.Seen.{row_of, stored_of};
ghost use Rattle.opfs_records.specs.Replay.Applying.{can_make, is_directory};
ghost use Rattle.opfs_tree.specs.Rows.{row_at, IsInOrder};
ghost use Rattle.opfs_dump.specs.Loading.Answers.{Follows};

use crate::loading::fault::Fault;
use crate::loading::forms::row_in;
use crate::loading::units::is_unit;
use crate::text::{DumpedFile, DumpedRow};
use opfs_base::{Extents, Key, Kind, Name, Path, compare_places};
use opfs_locks::FileLock;
use opfs_machine::Place;
use opfs_tree::{FileRow, Row, Tree};
use serde_json::Value;
use std::alloc::Global;
use std::cmp::Ordering;

// Whether a place comes behind that of the last row.
fn is_behind(rows: &[DumpedRow], place: &Place) -> bool
    ensures { result ≡ is_behind (last_of (places_of (map row_of rows.now))) place.now }
{
    match rows.last() {
        None => true,
        Some(last) => compare_places(&last.place.0, &last.place.1, place) == Ordering::Less,
    }
}

// Whether a row is at a place.
fn is_taken(tree: &Tree, unit: &Key, path: &Path) -> bool
    ensures { result ≡ is_some (row_at (unit.now, path.now) tree.now) }
{
    match tree.kind(unit, path) {
        Some(_) => true,
        None => false,
    }
}

// Whether a directory is at a place.
fn is_directory(tree: &Tree, unit: &Key, path: &Path) -> bool
    ensures { result ≡ is_directory (row_at (unit.now, path.now) tree.now) }
{
    match tree.kind(unit, path) {
        Some(Kind::Directory) => true,
        _ => false,
    }
}

// Whether nothing is at a place, whose path is not too long.
fn is_free(tree: &Tree, unit: &Key, path: &Path) -> bool
    ensures { result ≡ (not (is_some (row_at (unit.now, path.now) tree.now)) && nat_le (length path.now) 32) }
{
    !is_taken(tree, unit, path) && path.names().len() <= 32
}

// Whether a name has at most 255 bytes.
fn is_short(name: &Name) -> bool
    ensures { result ≡ (is_valid_name name.now && nat_le (length name.now) 255) }
{
    name.as_str().len() <= 255
}

// Whether a directory is at a place, and a name is not too long for it.
fn can_hold(tree: &Tree, unit: &Key, path: &Path, name: &Name) -> bool
    ensures { result ≡ (is_directory (row_at (unit.now, path.now) tree.now) && (is_valid_name name.now && nat_le (length name.now) 255)) }
{
    is_directory(tree, unit, path) && is_short(name)
}

// The path again, where a row can be made there: its directory is there and nothing else, and its name and path keep the
// limits.
fn free_path(tree: &Tree, unit: &Key, path: Path) -> Result<Path, Fault>
    ensures { MatchResult result (λ same. (same ≡ path) × (can_make unit.now path tree.now ≡ true)) (λ fault. fault ≡ Fault.Form → can_make unit.now path tree.now ≡ false) }
{
    if !is_free(tree, unit, &path) {
        return Err(Fault::Form);
    }
    let mut names = path.into_vec();
    let Some(name) = names.pop() else {
        return Err(Fault::Form);
    };
    let dir = Path::from_vec(names);
    if !can_hold(tree, unit, &dir, &name) {
        return Err(Fault::Form);
    }
    let mut names = dir.into_vec();
    match names.push(name) {
        Ok(()) => Ok(Path::from_vec(names)),
        Err(_) => Err(Fault::Memory),
    }
}

// A row that is no root again, where it can be made.
fn child_placed(tree: &Tree, row: DumpedRow) -> Result<DumpedRow, Fault>
    ensures { MatchResult result (λ same. (row_of same ≡ row_of row) × (can_make row.place.0 row.place.1 tree.now ≡ true)) (λ fault. fault ≡ Fault.Form → can_make row.place.0 row.place.1 tree.now ≡ false) }
{
    let DumpedRow { place, file } = row;
    let (unit, path) = place;
    match free_path(tree, &unit, path) {
        Ok(path) => Ok(DumpedRow {
            place: (unit, path),
            file,
        }),
        Err(fault) => Err(fault),
    }
}

// Whether a root can be made of a row.
fn is_new_root(tree: &Tree, row: &DumpedRow) -> bool
    requires { row.now.place.1 ≡ [] }
    ensures { result ≡ can_stand tree.now row.now.place (stored_of row.now.file) }
{
    match &row.file {
        None => !is_taken(tree, &row.place.0, &row.place.1),
        Some(_) => false,
    }
}

// A row again, where it can be made.
fn placed(tree: &Tree, row: DumpedRow) -> Result<DumpedRow, Fault>
    ensures { MatchResult result (λ same. (row_of same ≡ row_of row) × (can_stand tree.now row.place (stored_of row.file) ≡ true)) (λ fault. fault ≡ Fault.Form → can_stand tree.now row.place (stored_of row.file) ≡ false) }
{
    if !row.place.1.names().is_empty() {
        return child_placed(tree, row);
    }
    if is_new_root(tree, &row) {
        Ok(row)
    } else {
        Err(Fault::Form)
    }
}

// A row again, where it may follow others.
fn following(rows: &[DumpedRow], tree: &Tree, row: DumpedRow) -> Result<DumpedRow, Fault>
    requires { tree.now ≡ bare_rows (map row_of rows.now) }
    ensures { MatchResult result (λ same. (row_of same ≡ row_of row) × (may_follow (map row_of rows.now) (row_of row) ≡ true)) (λ fault. fault ≡ Fault.Form → may_follow (map row_of rows.now) (row_of row) ≡ false) }
{
    if !is_behind(rows, &row.place) {
        return Err(Fault::Form);
    }
    if !is_unit(&row.place.0) {
        return Err(Fault::Form);
    }
    placed(tree, row)
}

// A row without its bytes.
fn bare_row(alloc: Global, file: &Option<DumpedFile>) -> Row
    ensures { result ≡ bare_row (stored_of file.now) }
{
    match file {
        None => Row::Dir,
        Some(file) => Row::File(FileRow {
            length: file.bytes.len() as u64,
            stamp: file.stamp,
            present: file.bytes.len() as u64,
            present_stamp: file.stamp,
            extents: Extents::none(alloc),
            lock: FileLock::make(),
        }),
    }
}

// Adds a row without its bytes.
fn insert(alloc: Global, tree: &mut Tree, row: &DumpedRow) -> Result<(), Fault>
    requires { can_stand tree.old row.now.place (stored_of row.now.file) ≡ true }
    ensures ok { OnOk result (tree.new ≡ put place_cmp row.now.place (bare_row (stored_of row.now.file)) tree.old) }
    ensures kind { IfErr result (λ fault. fault ≡ Fault.Memory) }
    ensures order { IsInOrder tree.old }
{
    let _none = tree.kind(&row.place.0, &row.place.1);
    let bare = bare_row(alloc, &row.file);
    match tree.add(alloc, &row.place.0, &row.place.1, bare) {
        Ok(()) => Ok(()),
        Err(_) => Err(Fault::Memory),
    }
}

/// Reads a row and adds it behind others.
#[tactic(auto, unfolding(crate::specs::Text::Reading::next_row))]
pub(crate) fn add_row(
    alloc: Global,
    rows: &mut Vec<DumpedRow>,
    tree: &mut Tree,
    value: &Value,
) -> Result<(), Fault>
    requires { tree.old ≡ bare_rows (map row_of rows.old.items) }
    ensures tree { OnOk result (tree.new ≡ bare_rows (map row_of rows.new.items)) }
    ensures added { OnOk result (Follows (map row_of rows.old.items) (view value.now) (map row_of rows.new.items)) }
    ensures fault { IfErr result (λ fault. fault ≡ Fault.Form → next_row (map row_of rows.old.items) (view value.now) ≡ None) }
{
    let row = row_in(alloc, value)?;
    let row = following(rows, tree, row)?;
    insert(alloc, tree, &row)?;
    rows.push(row)?;
    Ok(())
}
