//! The small pieces of the text.

ghost use Rattle.std.specs.Prelude.{◌≡◌, false, map, IfOk, string_bytes};
ghost use Rattle.serde_json.specs.Data.{string, array};
ghost use Rattle.serde_json.specs.View.{view, items_of};
ghost use Rattle.serde_json.specs.Written.{compact_text, items_have_float};
ghost use Rattle.opfs_records.specs.Replay.Sums.{persistent_in};
ghost use Rattle.opfs_dump.specs.Text.Texts.{texts_value};
ghost use Rattle.opfs_dump.specs.Dumping.Pieces.{behind_digits, folder_text, head_by, head_text, place_text};

use opfs_base::{Key, Path};
use opfs_image::Geometry;
use opfs_print::names_text;
use opfs_shed::Shed;
use serde_json::Value;
use std::alloc::{AllocError, Global};

// A unit as JSON.
fn key_text(alloc: Global, key: &Key) -> Result<String, AllocError>
    ensures { IfOk result (λ text. string_bytes text ≡ compact_text (string key.now)) }
{
    Value::try_from_str(alloc, key.as_str())?.to_string(alloc)
}

// A unit and a path.
fn place_text(alloc: Global, key: &Key, path: &Path) -> Result<String, AllocError>
    ensures { IfOk result (λ text. string_bytes text ≡ place_text (key.now, path.now)) }
{
    let key = key_text(alloc, key)?;
    let path = names_text(alloc, path.names())?;
    format!(in alloc; "\"key\":{},\"path\":{}", key.as_str(), path.as_str())
}

/// A directory.
#[tactic(auto, unfolding(crate::specs::Dumping::Pieces::folder_text))]
pub(crate) fn folder_text(alloc: Global, key: &Key, path: &Path) -> Result<String, AllocError>
    ensures { IfOk result (λ text. string_bytes text ≡ folder_text (key.now, path.now)) }
{
    let place = place_text(alloc, key, path)?;
    format!(in alloc; "{{{}}}", place.as_str())
}

/// What stands behind the digits of a file's bytes.
#[tactic(auto, unfolding(crate::specs::Dumping::Pieces::behind_digits))]
pub(crate) fn behind_digits(
    alloc: Global,
    key: &Key,
    path: &Path,
    stamp: u64,
) -> Result<String, AllocError>
    ensures { IfOk result (λ text. string_bytes text ≡ behind_digits (key.now, path.now) stamp) }
{
    let place = place_text(alloc, key, path)?;
    format!(in alloc; "\",{},\"stamp\":{stamp}}}", place.as_str())
}

// The persistent units of a shed as JSON values.
fn unit_values(alloc: Global, shed: &Shed) -> Result<Vec<Value>, AllocError>
    ensures { IfOk result (λ values. map view values.items ≡ map string (persistent_in shed.now.buckets)) }
{
    let mut values = Vec::new(alloc);
    let mut last: Option<&Key> = None;
    while let Some(key) = shed.persistent_after(last) {
        values.push(Value::try_from_str(alloc, key.as_str())?)?;
        last = Some(key);
    }
    Ok(values)
}

// JSON values without numbers as a JSON array.
fn array_text(alloc: Global, values: Vec<Value>) -> Result<String, AllocError>
    requires { items_have_float (items_of (map view values.items)) ≡ false }
    ensures { IfOk result (λ text. string_bytes text ≡ compact_text (array (items_of (map view values.items)))) }
{
    let array = Value::Array(values);
    array.to_string(alloc)
}

// The persistent units as JSON.
fn units_text(alloc: Global, shed: &Shed) -> Result<String, AllocError>
    ensures { IfOk result (λ text. string_bytes text ≡ compact_text (texts_value (persistent_in shed.now.buckets))) }
{
    array_text(alloc, unit_values(alloc, shed)?)
}

// What stands before the rows, with the persistent units as JSON.
#[tactic(auto, unfolding(crate::specs::Dumping::Pieces::head_by))]
fn head_by(alloc: Global, geometry: Geometry, units: &str) -> Result<String, AllocError>
    ensures { IfOk result (λ text. string_bytes text ≡ head_by geometry units.now) }
{
    let (areas, blocks, quota) = (geometry.areas, geometry.blocks, geometry.quota);
    format!(in alloc;
        "{{\"areas\":{areas},\"blocks\":{blocks},\"persistent\":{units},\"quota\":{quota},\"rows\":["
    )
}

/// What stands before the rows.
pub(crate) fn head_text(
    alloc: Global,
    geometry: Geometry,
    shed: &Shed,
) -> Result<String, AllocError>
    ensures { IfOk result (λ text. string_bytes text ≡ head_text geometry (persistent_in shed.now.buckets)) }
{
    let units = units_text(alloc, shed)?;
    let text = head_by(alloc, geometry, units.as_str())?;
    Ok(text)
}
