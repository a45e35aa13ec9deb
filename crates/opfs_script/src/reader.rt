//! The reader of scripts.

ghost use Rattle.std.specs.Prelude.{◌≡◌, ◌⊎◌, map, None, Some, option_map, IfOk, IfErr};
ghost use Rattle.serde_json.specs.View.{view};
ghost use Rattle.opfs_script.specs.Reading.{agents_of, if_topped, if_json, json_of, reads};
ghost use Rattle.opfs_script.specs.Answers.{Answers};

use crate::agents::{agents_of, finished, fits_limits};
use crate::head::values;
use crate::members::has_only;
use crate::refusal::ScriptRefusal;
use crate::script::Script;
use serde_json::Value;
use std::alloc::Global;

/// The script that bytes are. Of several reasons to refuse them the first one counts: that they are no JSON; the shape
/// of the top; per agent, in order, its shape, its origin and its steps in order; and how much is asked for.
#[tactic(auto, unfolding(crate::specs::Reading::reads))]
pub fn read_script(alloc: Global, bytes: &[u8]) -> Result<Script, ScriptRefusal>
    ensures script { IfOk result (λ script. reads bytes.now ≡ Ok script) }
    ensures refused { IfErr result (λ why. (reads bytes.now ≡ Err why) ⊎ (why ≡ ScriptRefusal.NoMemory)) }
{
    let value = json_of(alloc, bytes)?;
    script_of(alloc, &value)
}

// The JSON value that bytes are.
pub(crate) fn json_of(alloc: Global, bytes: &[u8]) -> Result<Value, ScriptRefusal>
    ensures value { IfOk result (λ value. json_of bytes.now ≡ Some (view value)) }
    ensures refused { IfErr result (λ why. ((why ≡ ScriptRefusal.NotJson) × (json_of bytes.now ≡ None)) ⊎ (why ≡ ScriptRefusal.NoMemory)) }
{
    let Ok(text) = str::from_utf8(bytes) else {
        return Err(ScriptRefusal::NotJson);
    };
    match Value::from_str(alloc, text) {
        Ok(value) => Ok(value),
        Err(error) if error.is_memory() => Err(ScriptRefusal::NoMemory),
        Err(_) => Err(ScriptRefusal::NotJson),
    }
}

// The script that a JSON value is.
fn script_of(alloc: Global, value: &Value) -> Result<Script, ScriptRefusal>
    ensures { Answers result (if_json (Some (view value.now))) }
{
    let Some(items) = items_of(value) else {
        return Err(ScriptRefusal::BadShape(0, 0));
    };
    let drafts = agents_of(alloc, items)?;
    if !fits_limits(drafts.as_slice()) {
        return Err(ScriptRefusal::TooMany);
    }
    Ok(Script::make(finished(alloc, drafts)?))
}

// The values of the top's one member.
pub(crate) fn items_of(value: &Value) -> Option<&[Value]>
    ensures { option_map (λ found. map view found.now) result ≡ agents_of (view value.now) }
{
    if has_only(value, &["agents"]) {
        values(value, "agents")
    } else {
        None
    }
}
