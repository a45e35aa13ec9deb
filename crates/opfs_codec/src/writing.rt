//! Changes are written.

ghost use Rattle.std.specs.Prelude.{◌≡◌, ◌+◌, ◌*◌, ◌<◌, ◌≤◌, ◌^◌, ◌++◌, ◌∷◌, length, vec_len, vec_capacity, OnOk, OnErr, IsTrue, is_ok};
ghost use Rattle.std.specs.Int.{w8, w16, w64, to_le_bytes};
ghost use Rattle.opfs_codec.specs.declared.change.Format.TheVariants.{New};
ghost use Rattle.opfs_codec.specs.Charges.{unit_bytes, path_bytes, charge, spelled};
ghost use Rattle.opfs_codec.specs.Fields.{plain, UnitFits, PathFits, Fits, HasFewExtents};
ghost use Rattle.opfs_codec.specs.Spelling.{text, key, path, extent, extents, spelling};

use crate::change::ChangeRef;
use crate::lengths::{bucket_of, spelled_len};
use opfs_base::{Extent, Extents, Key, Path, origin_of};
use std::alloc::AllocError;

/// Appends the spelling of a change. Takes no memory where there is room for the change's charge, and it has no more
/// extents than its bytes take blocks.
#[tactic(auto, using(crate::proofs::WritingLemmas::length_spelling))]
pub fn write(change: &ChangeRef<'_>, into: &mut Vec<u8>) -> Result<(), AllocError>
    requires { Fits (plain change.now) }
    ensures written { OnOk result (into.new.items ≡ into.old.items ++ spelling New (plain change.now)) }
    ensures len { OnOk result (vec_len into.new ≡ vec_len into.old + length (spelling New (plain change.now))) }
    ensures unchanged { OnErr result ((into.new.items ≡ into.old.items) × (vec_len into.new ≡ vec_len into.old)) }
    ensures capacity { vec_capacity into.old ≤ vec_capacity into.new }
    ensures room { vec_len into.old + charge (plain change.now) ≤ vec_capacity into.old → HasFewExtents (plain change.now) → IsTrue (is_ok result) }
{
    into.reserve(spelled_len(change))?;
    put_change(into, change);
    Ok(())
}

// Bytes for which there is room.
fn put(into: &mut Vec<u8>, bytes: &[u8])
    requires { vec_len into.old + length bytes.now ≤ vec_capacity into.old }
    ensures items { into.new.items ≡ into.old.items ++ bytes.now }
    ensures len { vec_len into.new ≡ vec_len into.old + length bytes.now }
    ensures capacity { vec_capacity into.old ≤ vec_capacity into.new }
{
    match into.extend_from_slice(bytes) {
        Ok(()) => {}
        Err(_) => unreachable!(),
    }
}

// A text behind its length in one byte.
fn put_short(into: &mut Vec<u8>, bytes: &[u8])
    requires fits { length bytes.now < 2 ^ 8 }
    requires room { vec_len into.old + (1 + length bytes.now) ≤ vec_capacity into.old }
    ensures items { into.new.items ≡ into.old.items ++ text w8 bytes.now }
    ensures len { vec_len into.new ≡ vec_len into.old + (1 + length bytes.now) }
    ensures capacity { vec_capacity into.old ≤ vec_capacity into.new }
{
    let len = bytes.len() as u8;
    put(into, &len.to_le_bytes());
    put(into, bytes);
}

// A text behind its length in two bytes.
fn put_long(into: &mut Vec<u8>, bytes: &[u8])
    requires fits { length bytes.now < 2 ^ 16 }
    requires room { vec_len into.old + (2 + length bytes.now) ≤ vec_capacity into.old }
    ensures items { into.new.items ≡ into.old.items ++ text w16 bytes.now }
    ensures len { vec_len into.new ≡ vec_len into.old + (2 + length bytes.now) }
    ensures capacity { vec_capacity into.old ≤ vec_capacity into.new }
{
    let len = bytes.len() as u16;
    put(into, &len.to_le_bytes());
    put(into, bytes);
}

// A kind and a unit.
fn put_unit(into: &mut Vec<u8>, kind: u8, unit: &Key)
    requires fits { UnitFits unit.now }
    requires room { vec_len into.old + (3 + unit_bytes unit.now) ≤ vec_capacity into.old }
    ensures items { into.new.items ≡ into.old.items ++ kind ∷ key New unit.now }
    ensures len { vec_len into.new ≡ vec_len into.old + (3 + unit_bytes unit.now) }
    ensures capacity { vec_capacity into.old ≤ vec_capacity into.new }
{
    let unit = unit.as_bytes();
    put(into, &[kind]);
    put_long(into, origin_of(unit));
    put_short(into, bucket_of(unit));
}

// The names of a path.
fn put_path(into: &mut Vec<u8>, place: &Path)
    requires fits { PathFits place.now }
    requires room { vec_len into.old + path_bytes place.now ≤ vec_capacity into.old }
    ensures items { into.new.items ≡ into.old.items ++ path place.now }
    ensures len { vec_len into.new ≡ vec_len into.old + path_bytes place.now }
    ensures capacity { vec_capacity into.old ≤ vec_capacity into.new }
{
    let names = place.names();
    let count = names.len() as u8;
    put(into, &count.to_le_bytes());
    for name in names {
        put_short(into, name.as_bytes());
    }
}

// An extent.
fn put_extent(into: &mut Vec<u8>, run: &Extent)
    requires { vec_len into.old + 8 ≤ vec_capacity into.old }
    ensures items { into.new.items ≡ into.old.items ++ extent run.now }
    ensures len { vec_len into.new ≡ vec_len into.old + 8 }
    ensures capacity { vec_capacity into.old ≤ vec_capacity into.new }
{
    put(into, &run.start.to_le_bytes());
    put(into, &run.count.to_le_bytes());
}

// The extents of a content.
fn put_extents(into: &mut Vec<u8>, runs: &Extents)
    requires fits { length runs.now < 2 ^ 32 }
    requires room { vec_len into.old + (4 + 8 * length runs.now) ≤ vec_capacity into.old }
    ensures items { into.new.items ≡ into.old.items ++ extents runs.now }
    ensures len { vec_len into.new ≡ vec_len into.old + (4 + 8 * length runs.now) }
    ensures capacity { vec_capacity into.old ≤ vec_capacity into.new }
{
    let runs = runs.as_slice();
    let count = runs.len() as u32;
    put(into, &count.to_le_bytes());
    for run in runs {
        put_extent(into, run);
    }
}

// A number of 8 bytes.
fn put_u64(into: &mut Vec<u8>, number: u64)
    requires { vec_len into.old + 8 ≤ vec_capacity into.old }
    ensures items { into.new.items ≡ into.old.items ++ to_le_bytes w64 number }
    ensures len { vec_len into.new ≡ vec_len into.old + 8 }
    ensures capacity { vec_capacity into.old ≤ vec_capacity into.new }
{
    put(into, &number.to_le_bytes());
}

// A change for which there is room.
#[tactic(auto, unfolding(crate::specs::Fields::plain, crate::specs::Fields::Fits, crate::specs::Charges::spelled, crate::specs::Spelling::spelling))]
fn put_change(into: &mut Vec<u8>, change: &ChangeRef<'_>)
    requires fits { Fits (plain change.now) }
    requires room { vec_len into.old + spelled (plain change.now) ≤ vec_capacity into.old }
    ensures items { into.new.items ≡ into.old.items ++ spelling New (plain change.now) }
    ensures len { vec_len into.new ≡ vec_len into.old + spelled (plain change.now) }
    ensures capacity { vec_capacity into.old ≤ vec_capacity into.new }
{
    match change {
        ChangeRef::MakeRoot(unit) => put_unit(into, 1, unit),
        ChangeRef::MakeDir(unit, path) => put_place(into, 2, unit, path),
        ChangeRef::MakeFile(unit, path, stamp) => {
            put_place(into, 3, unit, path);
            put_u64(into, *stamp);
        }
        ChangeRef::Remove(unit, path) => put_place(into, 4, unit, path),
        ChangeRef::Content(unit, path, stamp, size, runs) => {
            put_place(into, 5, unit, path);
            put_u64(into, *stamp);
            put_u64(into, *size);
            put_extents(into, runs);
        }
        ChangeRef::Persist(unit) => put_unit(into, 6, unit),
        ChangeRef::Evict(unit) => put_unit(into, 7, unit),
    }
}

// A kind, a unit and a path.
fn put_place(into: &mut Vec<u8>, kind: u8, unit: &Key, place: &Path)
    requires fits { UnitFits unit.now × PathFits place.now }
    requires room { vec_len into.old + (3 + unit_bytes unit.now + path_bytes place.now) ≤ vec_capacity into.old }
    ensures items { into.new.items ≡ into.old.items ++ kind ∷ (key New unit.now ++ path place.now) }
    ensures len { vec_len into.new ≡ vec_len into.old + (3 + unit_bytes unit.now + path_bytes place.now) }
    ensures capacity { vec_capacity into.old ≤ vec_capacity into.new }
{
    put_unit(into, kind, unit);
    put_path(into, place);
}
