//! One agent of a script.

ghost use Rattle.std.specs.Prelude.{◌≡◌, Some, IfOk, IfSome, IsTrue};
ghost use Rattle.opfs_script.specs.Limits.{is_origin_key};
ghost use Rattle.opfs_script_kept.specs.Reading.Agents.{IsAgent, IsFinished};
ghost use Rattle.opfs_script_kept.specs.Reading.Steps.{ManySteps};
ghost use Rattle.opfs_script_kept.specs.Reading.Sums.{IsWithin};

use crate::packed::PackedAgent;
use crate::reading::members::{Draft, read_members};
use crate::reading::sums::Sums;
use json::{Reader, Token};
use std::alloc::{AllocError, Global};

/// The script of an agent, once its origin and its steps were read.
fn finished(draft: Draft) -> Option<PackedAgent>
    requires { IfSome draft.key (λ key. IsTrue (is_origin_key key)) }
    ensures { IfSome result (IsFinished draft) }
{
    let Draft { key, grant, steps } = draft;
    let key = key?;
    let steps = steps?;
    Some(PackedAgent::make(key, grant, steps))
}

/// Reads an agent; None where something else stands there, or too much is asked for.
pub fn read_agent(
    alloc: Global,
    reader: &mut Reader<'_>,
    number: u64,
    sums: &mut Sums,
) -> Result<Option<PackedAgent>, AllocError>
    ensures read { IfOk result (λ found. IfSome found (λ agent. IsAgent number reader.old agent reader.new)) }
    ensures many { IfOk result (λ found. IfSome found (λ agent. ManySteps sums.old agent.steps sums.new)) }
    ensures within { IfOk result (λ found. IfSome found (λ agent. IsWithin sums.old → IsWithin sums.new)) }
{
    let Some(Token::BeginObject) = reader.next() else {
        return Ok(None);
    };
    let Some(draft) = read_members(alloc, reader, number, sums)? else {
        return Ok(None);
    };
    Ok(finished(draft))
}
