//! The whole of a text but for its rows.

ghost use Rattle.std.specs.Prelude.{◌≡◌, ◌≤◌, ◌^◌, ℕ, Some, true, IfOk, IfSome, MatchOption};
ghost use Rattle.opfs_script.specs.Members.{number};
ghost use Rattle.serde_json.specs.View.{view};
ghost use Rattle.opfs_dump.specs.Text.Limits.{are_units};
ghost use Rattle.opfs_dump.specs.Text.Reading.{is_version, parts_in, sizes_in, top_in};
ghost use Rattle.opfs_image.specs.Superblock.{is_in_range};
ghost use Rattle.opfs_dump.specs.Loading.Answers.{Reads};
ghost use Rattle.opfs_dump.specs.Loading.Tops.{top_of};

use crate::loading::fault::Fault;
use crate::loading::members::{has_only, number, values};
use crate::loading::units::units_in;
use opfs_base::Key;
use opfs_image::Geometry;
use serde_json::Value;
use std::alloc::Global;

/// The sizes, the persistent units, and the rows as they stand.
#[derive(Drop)]
pub(crate) struct Top<'a> {
    pub(crate) geometry: Geometry,
    pub(crate) persistent: Vec<Key>,
    pub(crate) rows: &'a [Value],
}

// A number as one of 32 bits; None where it is none.
fn small(value: &Value, name: &str) -> Option<u32>
    ensures { MatchOption result ((n : ℕ) → number name.now (view value.now) ≡ Some n → 2 ^ 32 ≤ n) (λ n. number name.now (view value.now) ≡ Some n) }
{
    let number = number(value, name)?;
    u32::try_from(number).ok()
}

// The sizes of an image, in range.
fn sizes_in(value: &Value) -> Option<Geometry>
    ensures sizes { result ≡ sizes_in (view value.now) }
    ensures range { IfSome result (λ g. is_in_range g ≡ true) }
{
    let areas = small(value, "areas")?;
    let blocks = small(value, "blocks")?;
    let quota = small(value, "quota")?;
    let geometry = Geometry {
        areas,
        blocks,
        quota,
    };
    if geometry.is_in_range() {
        Some(geometry)
    } else {
        None
    }
}

// Whether the version is 2.
fn is_version(value: &Value) -> bool
    ensures { result ≡ is_version (view value.now) }
{
    match number(value, "version") {
        Some(version) => version == 2,
        None => false,
    }
}

// The parts of the whole.
fn parts_in<'a>(alloc: Global, value: &'a Value) -> Result<Top<'a>, Fault>
    ensures parts { Reads top_of result (parts_in (view value.now)) }
    ensures range { IfOk result (λ top. is_in_range top.geometry ≡ true) }
    ensures units { IfOk result (λ top. are_units top.persistent.items ≡ true) }
{
    let Some(geometry) = sizes_in(value) else {
        return Err(Fault::Form);
    };
    let persistent = units_in(alloc, value)?;
    match values(value, "rows") {
        Some(rows) => Ok(Top {
            geometry,
            persistent,
            rows,
        }),
        None => Err(Fault::Form),
    }
}

/// The whole.
#[tactic(auto, unfolding(crate::specs::Text::Reading::top_in))]
pub(crate) fn top_in<'a>(alloc: Global, value: &'a Value) -> Result<Top<'a>, Fault>
    ensures top { Reads top_of result (top_in (view value.now)) }
    ensures range { IfOk result (λ top. is_in_range top.geometry ≡ true) }
    ensures units { IfOk result (λ top. are_units top.persistent.items ≡ true) }
{
    if !has_only(
        value,
        &["areas", "blocks", "persistent", "quota", "rows", "version"],
    ) {
        return Err(Fault::Form);
    }
    if !is_version(value) {
        return Err(Fault::Form);
    }
    parts_in(alloc, value)
}
