//! Members of a JSON object, each of its form.

ghost use Rattle.std.specs.Prelude.{◌≡◌, map, option_map, string_bytes};
ghost use Rattle.std.specs.List.{list_any, list_all};
ghost use Rattle.std.specs.BTreeMap.{keys};
ghost use Rattle.std.specs.Option.{option_copied};
ghost use Rattle.serde_json.specs.Find.{as_array};
ghost use Rattle.serde_json.specs.View.{view};
ghost use Rattle.opfs_base.specs.Texts.{same_text};
ghost use Rattle.opfs_script.specs.Members.{has_only, text, number, values, values_of};

use serde_json::{Map, Value};

/// Whether a value is an object whose members' names are all among these.
pub(crate) fn has_only(value: &Value, names: &[&str]) -> bool
    ensures { result ≡ has_only (map (λ name. name.now) names.now) (view value.now) }
{
    match value.as_object() {
        Some(members) => are_among(members, names),
        None => false,
    }
}

// Whether all members' names are among these.
fn are_among(members: &Map<String, Value>, names: &[&str]) -> bool
    ensures { result ≡ list_all (λ name. list_any (λ other. same_text (string_bytes name) other.now) names.now)
        (keys members.now) }
{
    members.keys().all(|name| is_among(name.as_str(), names))
}

// Whether a name is among these.
fn is_among(name: &str, names: &[&str]) -> bool
    ensures { result ≡ list_any (λ other. same_text name.now other.now) names.now }
{
    names.iter().any(|other| name == *other)
}

/// A text.
pub(crate) fn text_of<'a>(value: &'a Value, name: &str) -> Option<&'a str>
    ensures { option_copied result ≡ text name.now (view value.now) }
{
    value.get(name)?.as_str()
}

/// A whole number below 2^64.
pub(crate) fn number(value: &Value, name: &str) -> Option<u64>
    ensures { result ≡ number name.now (view value.now) }
{
    match value.get(name) {
        Some(member) => member.as_u64(),
        None => None,
    }
}

/// The values of an array.
pub(crate) fn values<'a>(value: &'a Value, name: &str) -> Option<&'a [Value]>
    ensures { option_map (λ found. map view found.now) result ≡ values name.now (view value.now) }
{
    match value.get(name) {
        Some(member) => items_of(member),
        None => None,
    }
}

// The items of an array.
fn items_of(value: &Value) -> Option<&[Value]>
    ensures { option_map (λ found. map view found.now) result ≡ option_map values_of (as_array (view value.now)) }
{
    match value.as_array() {
        Some(items) => Some(items.as_slice()),
        None => None,
    }
}
