//! Places: where rows of the store stand.

ghost use Rattle.std.specs.Prelude.{◌≡◌, ◌++◌, ◌∷◌, [], IfOk};
ghost use Rattle.std.specs.Option.{option_copied};
ghost use Rattle.opfs_base.specs.Places.{place_cmp, begins_with, is_within, rest_below, child_name, child_of};
ghost use Rattle.opfs_base.specs.Units.{unit_of};

use crate::key::Key;
use crate::locator::{Kind, Locator};
use crate::name::Name;
use crate::path::Path;
use std::alloc::{AllocError, Global};
use std::cmp::Ordering;

/// A unit, and the names from its root down.
pub type Place = (Key, Path);

/// How a place stands to another: by unit, then by path, a prefix first.
pub fn compare_places(key: &Key, path: &Path, place: &Place) -> Ordering
    ensures { result ≡ place_cmp (key.now, path.now) place.now }
{
    key.cmp(&place.0).then(path.cmp(&place.1))
}

/// Whether a list of names begins with another.
pub fn begins_with(front: &[Name], names: &[Name]) -> bool
    ensures { result ≡ begins_with front.now names.now }
{
    for (at, name) in front.iter().enumerate() {
        if at >= names.len() || *name != names[at] {
            return false;
        }
    }
    true
}

/// Whether a place is the first one, or below it.
pub fn is_within(key: &Key, path: &Path, place: &Place) -> bool
    ensures { result ≡ is_within (key.now, path.now) place.now }
{
    *key == place.0 && begins_with(path.names(), place.1.names())
}

/// The names that are left of a path below a directory's; None where it is not there.
pub fn rest_below<'a>(dir: &[Name], names: &'a [Name]) -> Option<&'a [Name]>
    ensures { option_copied result ≡ rest_below dir.now names.now }
{
    for (at, name) in dir.iter().enumerate() {
        if at >= names.len() || *name != names[at] {
            return None;
        }
    }
    Some(&names[dir.len()..])
}

/// The name of a child of a directory; None for a place that is no child of it.
pub fn child_name<'a>(key: &Key, path: &Path, place: &'a Place) -> Option<&'a Name>
    ensures { option_copied result ≡ child_name (key.now, path.now) place.now }
{
    if *key != place.0 {
        return None;
    }
    match rest_below(path.names(), place.1.names()) {
        Some([name]) => Some(name),
        _ => None,
    }
}

/// A place in new memory.
pub fn copy_place(alloc: Global, key: &Key, path: &Path) -> Result<Place, AllocError>
    ensures { IfOk result (λ place. place ≡ (key.now, path.now)) }
{
    Ok((key.copy(alloc)?, path.copy(alloc)?))
}

/// A key in new memory, if there is one.
pub fn copy_key(alloc: Global, key: Option<&Key>) -> Result<Option<Key>, AllocError>
    ensures { IfOk result (λ copy. copy ≡ option_copied key.entry) }
{
    match key {
        None => Ok(None),
        Some(key) => Ok(Some(key.copy(alloc)?)),
    }
}

/// The locator of a child of a directory.
pub fn child_of(
    alloc: Global,
    dir: &Locator,
    name: &Name,
    kind: Kind,
) -> Result<Locator, AllocError>
    ensures { IfOk result (λ at. at ≡ child_of dir.now name.now kind) }
{
    let key = dir.key.copy(alloc)?;
    let path = dir.path.child(alloc, name)?;
    Ok(Locator { key, path, kind })
}

/// The unit of a bucket of an origin, whatever the two texts are. `Key::unit` tests the bucket's name too.
pub fn unit_of(alloc: Global, origin: &Key, bucket: &str) -> Result<Key, AllocError>
    ensures { IfOk result (λ unit. unit ≡ unit_of origin.now bucket.now) }
{
    if bucket == "default" {
        origin.copy(alloc)
    } else {
        let text = format!(in alloc; "{}#{}", origin.as_str(), bucket)?;
        Key::of_text(alloc, text.as_str())
    }
}
