//! Whether a row can be made at a place.

ghost use Rattle.std.specs.Prelude.{◌≡◌, true, false, not, ◌&&◌, length, is_some, nat_le, IfOk, MatchOption};
ghost use Rattle.opfs_base.specs.Names.{is_valid_name};
ghost use Rattle.opfs_tree.specs.Rows.{row_at};
ghost use Rattle.opfs_base.specs.Keys.{is_origin};
ghost use Rattle.opfs_records.specs.Replay.Applying.{is_unit_in, can_make, is_directory};

use opfs_base::{Key, Kind, Name, Path};
use opfs_codec::Format;
use opfs_tree::Tree;
use std::alloc::AllocError;

/// Whether a format can name a unit.
pub(crate) fn is_unit_in(format: Format, unit: &Key) -> bool
    ensures { result ≡ is_unit_in format unit.now }
{
    match format {
        Format::Old => is_origin(unit),
        Format::New => true,
    }
}

// Whether a unit is an origin's default bucket.
fn is_origin(unit: &Key) -> bool
    ensures { result ≡ is_origin unit.now }
{
    !unit.as_bytes().contains(&b'#')
}

/// The path again, where a row can be made there: its directory is there and nothing else, and its name and path keep
/// the limits.
pub(crate) fn free_place(tree: &Tree, unit: &Key, path: Path) -> Result<Option<Path>, AllocError>
    ensures { IfOk result (λ found. MatchOption found (can_make unit.now path tree.now ≡ false) (λ same. (same ≡ path) × (can_make unit.now path tree.now ≡ true))) }
{
    if !is_free(tree, unit, &path) {
        return Ok(None);
    }
    let mut names = path.into_vec();
    let Some(name) = names.pop() else {
        return Ok(None);
    };
    let dir = Path::from_vec(names);
    if !can_hold(tree, unit, &dir, &name) {
        return Ok(None);
    }
    let mut names = dir.into_vec();
    names.push(name)?;
    Ok(Some(Path::from_vec(names)))
}

// Whether nothing is at a place, whose path is not too long.
fn is_free(tree: &Tree, unit: &Key, path: &Path) -> bool
    ensures { result ≡ (not (is_some (row_at (unit.now, path.now) tree.now)) && nat_le (length path.now) 32) }
{
    !is_taken(tree, unit, path) && path.names().len() <= 32
}

// Whether a directory is at a place, and a name is not too long for it.
fn can_hold(tree: &Tree, unit: &Key, path: &Path, name: &Name) -> bool
    ensures { result ≡ (is_directory (row_at (unit.now, path.now) tree.now) && (is_valid_name name.now && nat_le (length name.now) 255)) }
{
    is_directory(tree, unit, path) && is_short(name)
}

// Whether a name has at most 255 bytes.
fn is_short(name: &Name) -> bool
    ensures { result ≡ (is_valid_name name.now && nat_le (length name.now) 255) }
{
    name.as_str().len() <= 255
}

// Whether a directory is at a place.
fn is_directory(tree: &Tree, unit: &Key, path: &Path) -> bool
    ensures { result ≡ is_directory (row_at (unit.now, path.now) tree.now) }
{
    match tree.kind(unit, path) {
        Some(Kind::Directory) => true,
        _ => false,
    }
}

/// Whether a row is at a place.
pub(crate) fn is_taken(tree: &Tree, unit: &Key, path: &Path) -> bool
    ensures { result ≡ is_some (row_at (unit.now, path.now) tree.now) }
{
    match tree.kind(unit, path) {
        Some(_) => true,
        None => false,
    }
}
