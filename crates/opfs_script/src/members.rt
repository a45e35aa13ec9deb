//! Members of a JSON object, each of its form.

ghost use Rattle.std.specs.Prelude.{◌≡◌, List, map, None, Some, option_map, MatchResult, IfOk, string_bytes};
ghost use Rattle.std.specs.List.{list_any, list_all};
ghost use Rattle.std.specs.BTreeMap.{keys};
ghost use Rattle.std.specs.Option.{option_copied};
ghost use Rattle.serde_json.specs.View.{view};
ghost use Rattle.opfs_base.specs.Texts.{same_text};
ghost use Rattle.opfs_script.specs.Members.{has_only, text, text_or, flag, whole, number, optional_number, read_only_named, read_only};
ghost use Rattle.opfs_script.specs.Faults.{Reads, Finds};

use crate::fault::Fault;
use opfs_base::Text;
use serde_json::{Map, Value};
use std::alloc::Global;

/// Whether a value is an object whose members' names are all among these.
pub fn has_only(value: &Value, names: &[&str]) -> bool
    ensures { result ≡ has_only (map (λ name. name.now) names.now) (view value.now) }
{
    match value.as_object() {
        Some(members) => are_among(members, names),
        None => false,
    }
}

// Whether all members' names are among these.
fn are_among(members: &Map<String, Value>, names: &[&str]) -> bool
    ensures { result ≡ list_all (λ name. list_any (λ other. same_text (string_bytes name) other.now) names.now)
        (keys members.now) }
{
    members.keys().all(|name| is_among(name.as_str(), names))
}

// Whether a name is among these.
fn is_among(name: &str, names: &[&str]) -> bool
    ensures { result ≡ list_any (λ other. same_text name.now other.now) names.now }
{
    names.iter().any(|other| name == *other)
}

/// A text as it stands in the object.
pub fn text_of<'a>(value: &'a Value, name: &str) -> Option<&'a str>
    ensures { option_copied result ≡ text name.now (view value.now) }
{
    value.get(name)?.as_str()
}

/// A text.
pub fn text(alloc: Global, value: &Value, name: &str) -> Result<Text, Fault>
    ensures { Reads result (text name.now (view value.now)) }
{
    match text_of(value, name) {
        Some(text) => copied(alloc, text),
        None => Err(Fault::Shape),
    }
}

/// A text, or another where there is no such member.
pub fn text_or(alloc: Global, value: &Value, name: &str, default: &str) -> Result<Text, Fault>
    ensures { Reads result (text_or default.now name.now (view value.now)) }
{
    let text = match value.get(name) {
        Some(member) => member.as_str(),
        None => Some(default),
    };
    match text {
        Some(text) => copied(alloc, text),
        None => Err(Fault::Shape),
    }
}

// A text in memory of its own.
fn copied(alloc: Global, text: &str) -> Result<Text, Fault>
    ensures { Reads result (Some text.now) }
{
    match Text::copy_of(alloc, text) {
        Ok(copy) => Ok(copy),
        Err(_) => Err(Fault::Memory),
    }
}

/// A truth value, false where there is no such member.
pub fn flag(value: &Value, name: &str) -> Result<bool, Fault>
    ensures { Finds result (flag name.now (view value.now)) }
{
    match value.get(name) {
        Some(member) => found(member.as_bool()),
        None => Ok(false),
    }
}

// What was found, or a fault of shape.
fn found<T: Drop>(value: Option<T>) -> Result<T, Fault>
    ensures { Finds result value }
{
    value.ok_or(Fault::Shape)
}

/// A number.
pub fn number(value: &Value, name: &str) -> Result<u64, Fault>
    ensures { Finds result (number name.now (view value.now)) }
{
    match value.get(name) {
        Some(member) => found(member.as_u64()),
        None => Err(Fault::Shape),
    }
}

/// A number, if there is such a member.
pub fn optional_number(value: &Value, name: &str) -> Result<Option<u64>, Fault>
    ensures { Finds result (optional_number name.now (view value.now)) }
{
    match value.get(name) {
        Some(member) => Ok(Some(found(member.as_u64())?)),
        None => Ok(None),
    }
}

/// The mode of an access handle: whether it only reads.
pub fn read_only(value: &Value, name: &str) -> Result<bool, Fault>
    ensures { Finds result (read_only name.now (view value.now)) }
{
    match value.get(name) {
        Some(member) => match member.as_str() {
            Some(mode) => found(read_only_named(mode)),
            None => Err(Fault::Shape),
        },
        None => Ok(false),
    }
}

// Whether a mode only reads.
fn read_only_named(mode: &str) -> Option<bool>
    ensures { result ≡ read_only_named mode.now }
{
    if mode == "read-only" {
        Some(true)
    } else if mode == "readwrite" {
        Some(false)
    } else {
        None
    }
}
