//! One JSON value of a text, and the text that it is written with alone.

ghost use Rattle.std.specs.Prelude.{◌≡◌, ◌≤◌, ◌<◌, length, Some, IfOk, IfSome, OnOk};
ghost use Rattle.json.specs.Json.{value};
ghost use Rattle.serde_json.specs.Read.{converted, of_json};
ghost use Rattle.serde_json.specs.View.{view};
ghost use Rattle.opfs_script.specs.Reading.{json_of};
ghost use Rattle.opfs_script_kept.specs.Reading.Values.{IsValue};

use json::{Error, Reader};
use serde_json::Value;
use std::alloc::{AllocError, Global};

/// A value, and a text that is that value.
#[derive(Drop)]
pub struct Told {
    pub text: Vec<u8>,
    pub value: Value,
}

/// The value that a text is; None where it is none.
fn value_of(alloc: Global, text: &[u8]) -> Result<Option<Value>, AllocError>
    ensures { IfOk result (λ value. IfSome value (λ value. json_of text.now ≡ Some (view value))) }
{
    let Ok(bytes) = str::from_utf8(text) else {
        return Ok(None);
    };
    match Value::from_str(alloc, bytes) {
        Ok(value) => Ok(Some(value)),
        Err(error) if error.is_memory() => Err(AllocError),
        Err(_) => Ok(None),
    }
}

/// The next value of a reader, nested at most so deep; None where no such value stands there, or a number in it is out of range.
pub fn read_value(
    alloc: Global,
    reader: &mut Reader<'_>,
    depth: usize,
) -> Result<Option<Told>, AllocError>
    requires { depth ≤ 128 }
    ensures value { IfOk result (λ told. IfSome told (λ told. IsValue depth reader.old (view told.value) reader.new)) }
    ensures text { IfOk result (λ told. IfSome told (λ told. json_of told.text.items ≡ Some (view told.value))) }
    ensures shorter { IfOk result (λ told. IfSome told (λ told. length reader.new < length reader.old)) }
{
    let tree = match json::Value::read(alloc, reader, depth) {
        Ok(tree) => tree,
        Err(Error::OutOfMemory) => return Err(AllocError),
        Err(_) => return Ok(None),
    };
    let text = json::to_vec(alloc, &tree);
    drop(tree);
    let text = text?;
    let Some(value) = value_of(alloc, text.as_slice())? else {
        return Ok(None);
    };
    Ok(Some(Told { text, value }))
}
