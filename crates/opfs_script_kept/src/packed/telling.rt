//! The step that a text tells.

ghost use Rattle.std.specs.Prelude.{◌≡◌, Some, IfOk, option_map};
ghost use Rattle.serde_json.specs.View.{view};
ghost use Rattle.opfs_script.specs.Limits.{bytes_asked};
ghost use Rattle.opfs_script_kept.specs.Packed.Telling.{step_told, told_by};

use opfs_script::{ScriptRefusal, Step, bytes_asked, read_step};
use serde_json::Value;
use std::alloc::{AllocError, Global};

/// The step that a JSON value is, if it is one.
fn step_in(alloc: Global, value: &Value) -> Result<Option<Step>, AllocError>
    ensures { IfOk result (λ step. step ≡ told_by (Some (view value.now))) }
{
    match read_step(alloc, 0, 0, value) {
        Ok(step) => Ok(Some(step)),
        Err(ScriptRefusal::NoMemory) => Err(AllocError),
        Err(_) => Ok(None),
    }
}

/// How many bytes the step that a JSON value is writes or asks to read; None where it is no step.
pub fn bytes_told(alloc: Global, value: &Value) -> Result<Option<u64>, AllocError>
    ensures { IfOk result (λ asked. asked ≡ option_map bytes_asked (told_by (Some (view value.now)))) }
{
    match read_step(alloc, 0, 0, value) {
        Ok(step) => {
            let asked = bytes_asked(&step);
            drop(step);
            Ok(Some(asked))
        }
        Err(ScriptRefusal::NoMemory) => Err(AllocError),
        Err(_) => Ok(None),
    }
}

/// The step that a JSON text tells, if it tells one.
pub fn step_told(alloc: Global, text: &[u8]) -> Result<Option<Step>, AllocError>
    ensures { IfOk result (λ step. step ≡ step_told text.now) }
{
    let Ok(text) = str::from_utf8(text) else {
        return Ok(None);
    };
    match Value::from_str(alloc, text) {
        Ok(value) => step_in(alloc, &value),
        Err(error) if error.is_memory() => Err(AllocError),
        Err(_) => Ok(None),
    }
}
