//! How many bytes changes take.

ghost use Rattle.std.specs.Prelude.{◌≡◌, ◌<◌, ◌^◌};
ghost use Rattle.opfs_base.specs.Units.{bucket_of};
ghost use Rattle.opfs_codec.specs.Charges.{unit_bytes, path_bytes, charge, spelled};
ghost use Rattle.opfs_codec.specs.Fields.{plain, UnitFits, PathFits, Fits};

use crate::change::ChangeRef;
use opfs_base::{Key, Path, origin_of};

/// The name of a unit's bucket: the bytes behind the first `#`, or `default`.
pub fn bucket_of(unit: &[u8]) -> &[u8]
    ensures { result.now ≡ bucket_of unit.now }
{
    let end = origin_of(unit).len();
    if end < unit.len() {
        &unit[end + 1..]
    } else {
        b"default"
    }
}

/// The bytes of a unit.
pub fn unit_len(unit: &Key) -> usize
    requires { UnitFits unit.now }
    ensures len { result ≡ unit_bytes unit.now }
    ensures small { result < 2 ^ 17 }
{
    let unit = unit.as_bytes();
    origin_of(unit).len() + 1 + bucket_of(unit).len()
}

/// The bytes of a path.
pub fn path_len(path: &Path) -> usize
    requires { PathFits path.now }
    ensures len { result ≡ path_bytes path.now }
    ensures small { result < 2 ^ 17 }
{
    let mut total = 1;
    for name in path.names() {
        total += 1 + name.as_bytes().len();
    }
    total
}

/// What a change adds to the charge.
#[tactic(auto, unfolding(crate::specs::Fields::plain, crate::specs::Fields::Fits, crate::specs::Charges::charge))]
pub fn charge(change: &ChangeRef<'_>) -> u64
    requires { Fits (plain change.now) }
    ensures { result ≡ charge (plain change.now) }
{
    match change {
        ChangeRef::MakeRoot(unit) => 3 + unit_len(unit) as u64,
        ChangeRef::MakeDir(unit, path) => 3 + unit_len(unit) as u64 + path_len(path) as u64,
        ChangeRef::MakeFile(unit, path, _) => 11 + unit_len(unit) as u64 + path_len(path) as u64,
        ChangeRef::Remove(unit, path) => 3 + unit_len(unit) as u64 + path_len(path) as u64,
        ChangeRef::Content(unit, path, _, size, _) => {
            let fields = 23 + unit_len(unit) as u64 + path_len(path) as u64;
            fields + 8 * size.div_ceil(4096)
        }
        ChangeRef::Persist(unit) => 3 + unit_len(unit) as u64,
        ChangeRef::Evict(unit) => 3 + unit_len(unit) as u64,
    }
}

/// How many bytes a change's spelling has.
#[tactic(auto, unfolding(crate::specs::Fields::plain, crate::specs::Fields::Fits, crate::specs::Charges::spelled))]
pub fn spelled_len(change: &ChangeRef<'_>) -> usize
    requires { Fits (plain change.now) }
    ensures { result ≡ spelled (plain change.now) }
{
    match change {
        ChangeRef::MakeRoot(unit) => 3 + unit_len(unit),
        ChangeRef::MakeDir(unit, path) => 3 + unit_len(unit) + path_len(path),
        ChangeRef::MakeFile(unit, path, _) => 11 + unit_len(unit) + path_len(path),
        ChangeRef::Remove(unit, path) => 3 + unit_len(unit) + path_len(path),
        ChangeRef::Content(unit, path, _, _, extents) => {
            23 + unit_len(unit) + path_len(path) + 8 * extents.len()
        }
        ChangeRef::Persist(unit) => 3 + unit_len(unit),
        ChangeRef::Evict(unit) => 3 + unit_len(unit),
    }
}
