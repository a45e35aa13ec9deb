//! The members of an agent, in whatever order they stand.

ghost use Rattle.std.specs.Prelude.{◌≡◌, true, codes, IfOk, IfSome};
ghost use Rattle.opfs_script_kept.specs.Reading.Members.{AreMembers, Counts, TakesMember, told_of};
ghost use Rattle.opfs_script_kept.specs.Reading.Steps.{ManySteps};
ghost use Rattle.opfs_script_kept.specs.Reading.Sums.{IsWithin};

use crate::packed::Texts;
use crate::reading::steps::read_steps;
use crate::reading::sums::Sums;
use crate::reading::value::{Told, read_value};
use json::{Reader, Token};
use opfs_base::Key;
use opfs_script::{ScriptRefusal, read_grant, read_origin};
use std::alloc::{AllocError, Global};

/// How deep a member may nest within a text of 127 levels: below the top, its agents and one agent.
const DEPTH: usize = 124;

/// What the members of an agent say so far.
#[derive(Drop)]
pub struct Draft {
    /// The key, once the origin was read.
    pub key: Option<Option<Key>>,
    /// Whether it has the grant.
    pub grant: bool,
    /// The steps, once they were read.
    pub steps: Option<Texts>,
}

/// Reads an origin; false where no text of one stands there.
fn take_origin(
    alloc: Global,
    reader: &mut Reader<'_>,
    agent: u64,
    draft: &mut Draft,
) -> Result<bool, AllocError>
    ensures takes { IfOk result (λ stands. stands ≡ true → TakesMember agent (codes "origin") reader.old reader.new draft.old draft.new) }
    ensures steps { draft.new.steps ≡ draft.old.steps }
{
    let Some(Token::String(origin)) = reader.next() else {
        return Ok(false);
    };
    match read_origin(alloc, agent, origin) {
        Ok(key) => {
            draft.key = Some(key);
            Ok(true)
        }
        Err(ScriptRefusal::NoMemory) => Err(AllocError),
        Err(_) => Ok(false),
    }
}

/// Reads grants; false where no array stands there that names the one grant alone.
fn take_grants(
    alloc: Global,
    reader: &mut Reader<'_>,
    agent: u64,
    draft: &mut Draft,
) -> Result<bool, AllocError>
    ensures takes { IfOk result (λ stands. stands ≡ true → TakesMember agent (codes "grants") reader.old reader.new draft.old draft.new) }
    ensures steps { draft.new.steps ≡ draft.old.steps }
{
    let Some(Told { value, .. }) = read_value(alloc, reader, DEPTH)? else {
        return Ok(false);
    };
    let grant = read_grant(Some(&value));
    drop(value);
    let Some(grant) = grant else {
        return Ok(false);
    };
    draft.grant = grant;
    Ok(true)
}

/// Reads steps; false where they were read before, where no array of steps stands there, or where they ask for too much.
fn take_steps(
    alloc: Global,
    reader: &mut Reader<'_>,
    agent: u64,
    draft: &mut Draft,
    sums: &mut Sums,
) -> Result<bool, AllocError>
    ensures takes { IfOk result (λ stands. stands ≡ true → TakesMember agent (codes "steps") reader.old reader.new draft.old draft.new) }
    ensures counts { IfOk result (λ stands. stands ≡ true → Counts draft.old.steps sums.old draft.new.steps sums.new) }
    ensures within { IfOk result (λ stands. stands ≡ true → IsWithin sums.old → IsWithin sums.new) }
{
    if draft.steps.is_some() {
        return Ok(false);
    }
    let Some(Token::BeginArray) = reader.next() else {
        return Ok(false);
    };
    let Some(texts) = read_steps(alloc, reader, sums)? else {
        return Ok(false);
    };
    draft.steps = Some(texts);
    Ok(true)
}

/// Reads the member of a name; false where an agent has none of that name, or another form stands there.
fn take_member(
    alloc: Global,
    reader: &mut Reader<'_>,
    agent: u64,
    name: &str,
    draft: &mut Draft,
    sums: &mut Sums,
) -> Result<bool, AllocError>
    ensures takes { IfOk result (λ stands. stands ≡ true → TakesMember agent name.now reader.old reader.new draft.old draft.new) }
    ensures counts { IfOk result (λ stands. stands ≡ true → Counts draft.old.steps sums.old draft.new.steps sums.new) }
    ensures within { IfOk result (λ stands. stands ≡ true → IsWithin sums.old → IsWithin sums.new) }
{
    if name == "origin" {
        take_origin(alloc, reader, agent, draft)
    } else if name == "grants" {
        take_grants(alloc, reader, agent, draft)
    } else if name == "steps" {
        take_steps(alloc, reader, agent, draft, sums)
    } else {
        Ok(false)
    }
}

/// Reads the members of an agent up to the brace that closes them; None where another member or form stands there, or too much
/// is asked for.
pub fn read_members(
    alloc: Global,
    reader: &mut Reader<'_>,
    agent: u64,
    sums: &mut Sums,
) -> Result<Option<Draft>, AllocError>
    ensures read { IfOk result (λ found. IfSome found (λ draft. AreMembers agent reader.old draft reader.new)) }
    ensures many { IfOk result (λ found. IfSome found (λ draft. ManySteps sums.old (told_of draft.steps) sums.new)) }
    ensures within { IfOk result (λ found. IfSome found (λ draft. IsWithin sums.old → IsWithin sums.new)) }
{
    let mut draft = Draft {
        key: None,
        grant: false,
        steps: None,
    };
    loop {
        let Ok(key) = reader.next_key() else {
            return Ok(None);
        };
        let Some(name) = key else {
            return Ok(Some(draft));
        };
        if !take_member(alloc, reader, agent, name, &mut draft, sums)? {
            return Ok(None);
        }
    }
}
