//! What an agent says besides the members of its steps.

ghost use Rattle.std.specs.Prelude.{◌≡◌, ◌⊎◌, true, false, map, None, Some, option_map, IsTrue, IfOk, IfErr};
ghost use Rattle.std.specs.List.{list_all};
ghost use Rattle.serde_json.specs.View.{view};
ghost use Rattle.opfs_script.specs.Heads.{seen};
ghost use Rattle.opfs_script.specs.Limits.{is_origin_key};
ghost use Rattle.opfs_script.specs.Members.{values, values_of};
ghost use Rattle.serde_json.specs.Find.{as_array};
ghost use Rattle.opfs_script.specs.Reading.{is_grant, grant_among, granted_by, head_of, key_of_agent};
ghost use Rattle.opfs_script.specs.Answers.{Answers};

use crate::members::{has_only, text_of};
use crate::refusal::ScriptRefusal;
use opfs_base::{Key, KeyRefusal};
use serde_json::Value;
use std::alloc::Global;

/// An agent's origin, its grant, and its steps as they stand.
#[derive(Clone, Copy)]
pub struct Head<'a> {
    /// The text of its origin.
    pub origin: &'a str,
    /// Whether it has the grant.
    pub grant: bool,
    /// Its steps.
    pub steps: &'a [Value],
}

/// The members of an agent, or None where one is missing, of another form, or there besides.
pub fn head_of(value: &Value) -> Option<Head<'_>>
    ensures { option_map seen result ≡ head_of (view value.now) }
{
    if !has_only(value, &["origin", "steps", "grants"]) {
        return None;
    }
    let origin = text_of(value, "origin")?;
    let grant = read_grant(value.get("grants"))?;
    let steps = values(value, "steps")?;
    Some(Head {
        origin,
        grant,
        steps,
    })
}

/// An array's values.
pub fn values<'a>(value: &'a Value, name: &str) -> Option<&'a [Value]>
    ensures { option_map (λ found. map view found.now) result ≡ values name.now (view value.now) }
{
    match value.get(name) {
        Some(member) => items_of(member),
        None => None,
    }
}

// The items of an array.
fn items_of(value: &Value) -> Option<&[Value]>
    ensures { option_map (λ found. map view found.now) result ≡ option_map values_of (as_array (view value.now)) }
{
    match value.as_array() {
        Some(items) => Some(items.as_slice()),
        None => None,
    }
}

/// Whether an agent has the grant, by its member `grants`: not, where it has no such member. None where that is no array that
/// names the one grant alone.
pub fn read_grant(member: Option<&Value>) -> Option<bool>
    ensures { result ≡ granted_by (option_map (λ value. view value.now) member.entry) }
{
    match member {
        None => Some(false),
        Some(member) => match items_of(member) {
            Some(items) => grant_among(items),
            None => None,
        },
    }
}

// Whether there is a grant among values that all name it.
fn grant_among(items: &[Value]) -> Option<bool>
    ensures { result ≡ grant_among (map view items.now) }
{
    if are_grants(items) {
        Some(!items.is_empty())
    } else {
        None
    }
}

// Whether all values name the one grant.
fn are_grants(items: &[Value]) -> bool
    ensures { result ≡ list_all (λ item. is_grant (view item)) items.now }
{
    items.iter().all(is_grant)
}

// Whether a value names the one grant.
fn is_grant(item: &Value) -> bool
    ensures { result ≡ is_grant (view item.now) }
{
    match item.as_str() {
        Some(name) => name == "persistent-storage",
        None => false,
    }
}

/// The key of an agent by the URL of its origin: none where that is opaque. An error is that it is no origin's, or want of
/// memory.
pub fn read_origin(alloc: Global, agent: u64, origin: &str) -> Result<Option<Key>, ScriptRefusal>
    ensures key { Answers result (key_of_agent agent origin.now) }
    ensures origin { IfOk result (λ key. IsTrue (is_origin_key key)) }
{
    match Key::of_url(alloc, origin) {
        Ok(key) => Ok(Some(key)),
        Err(KeyRefusal::Opaque) => Ok(None),
        Err(KeyRefusal::NoMemory) => Err(ScriptRefusal::NoMemory),
        Err(_) => Err(ScriptRefusal::BadOrigin(agent)),
    }
}
