//! Scripts that are read step by step.

ghost use Rattle.std.specs.Prelude.{◌≡◌, [], ◌∷◌, Ok, codes, IfOk, IfSome, IsTrue};
ghost use Rattle.json.specs.Token as token;
ghost use Rattle.opfs_script.specs.Reading.{reads};
ghost use Rattle.opfs_script_kept.specs.Reading.Agents.{IsScript};

use crate::packed::PackedScript;
use crate::reading::agents::read_agents;
use json::{Reader, Scratch, Token};
use std::alloc::{AllocError, Global};

/// Whether a script's top begins: an object whose first member is an array of the name `agents`.
fn begins(reader: &mut Reader<'_>) -> bool
    ensures { IsTrue result → reader.old ≡ token.begin_object ∷ token.key (codes "agents") ∷ token.begin_array ∷ reader.new }
{
    let Some(Token::BeginObject) = reader.next() else {
        return false;
    };
    let Some(Token::Key(name)) = reader.next() else {
        return false;
    };
    let Some(Token::BeginArray) = reader.next() else {
        return false;
    };
    name == "agents"
}

/// Whether a script's top ends, and the text with it.
fn ends(reader: &mut Reader<'_>) -> bool
    ensures { IsTrue result → reader.old ≡ token.end_object ∷ [] }
{
    let Some(Token::EndObject) = reader.next() else {
        return false;
    };
    reader.next().is_none()
}

/// Reads a whole script; None where the tokens are none, or are written otherwise than plainly.
fn read_script(alloc: Global, reader: &mut Reader<'_>) -> Result<Option<PackedScript>, AllocError>
    ensures { IfOk result (λ found. IfSome found (IsScript reader.old)) }
{
    if !begins(reader) {
        return Ok(None);
    }
    let Some(agents) = read_agents(alloc, reader)? else {
        return Ok(None);
    };
    if ends(reader) {
        Ok(Some(PackedScript::make(agents)))
    } else {
        Ok(None)
    }
}

/// The script that bytes are, with its steps kept as their texts; None where they are no script that may be run, or one that is
/// written otherwise than plainly.
pub fn read_packed(alloc: Global, bytes: &[u8]) -> Result<Option<PackedScript>, AllocError>
    ensures { IfOk result (λ found. IfSome found (λ script. reads bytes.now ≡ Ok script)) }
{
    let Ok(text) = str::from_utf8(bytes) else {
        return Ok(None);
    };
    let mut scratch = Scratch::new(alloc);
    let mut reader = Reader::new(text, &mut scratch)?;
    let script = read_script(alloc, &mut reader)?;
    Ok(script)
}
