//! The lines of a conversation: the agents of its first line, and what each other line asks.

ghost use Rattle.std.specs.Prelude.{◌≡◌, ◌⊎◌, map, option_map, IfOk, IfErr, Ok, Err};
ghost use Rattle.serde_json.specs.View.{view};
ghost use Rattle.opfs_script.specs.Answers.{Answers};
ghost use Rattle.opfs_script.specs.Heads.{seen};
ghost use Rattle.opfs_script.specs.Lines.{agent_alone, asked_by, behind, digit, head_alone, heard_agents, if_agents, IsBounded, named_agent, numbered, numbered_by_two, part, two_digits};
ghost use Rattle.opfs_script.specs.Reading.{each_from};

use crate::agents::{finished, fits_limits};
use crate::draft::Draft;
use crate::head::{Head, read_grant, read_origin};
use crate::members::{has_only, text_of};
use crate::reader::{items_of, json_of};
use crate::refusal::ScriptRefusal;
use crate::script::Script;
use crate::step::Step;
use crate::steps::{push, read_step};
use serde_json::Value;
use std::alloc::Global;

// A blank.
const BLANK: u8 = 32;

/// The number of an agent, and what a line has behind it.
#[derive(Clone, Copy)]
pub struct LinePart<'a> {
    pub agent: u32,
    pub text: &'a [u8],
}

/// What a line asks of its agent: a step, or to end as a script's end does.
#[derive(Drop)]
pub enum Asking {
    Step(Step),
    End,
}

/// The agents that the first line of a conversation names, 1 to 64, each without steps. The refusals are a script's.
#[tactic(auto, unfolding(crate::specs::Lines::heard_agents))]
pub fn read_agents(alloc: Global, line: &[u8]) -> Result<Script, ScriptRefusal>
    ensures { Answers result (heard_agents line.now) }
{
    let value = json_of(alloc, line)?;
    let Some(items) = items_of(&value) else {
        return Err(ScriptRefusal::BadShape(0, 0));
    };
    script_alone(alloc, items)
}

// The script of agents without steps, of which there is one at least.
fn script_alone(alloc: Global, items: &[Value]) -> Result<Script, ScriptRefusal>
    ensures { Answers result (if_agents (map view items.now)) }
{
    if items.is_empty() {
        return Err(ScriptRefusal::BadShape(0, 0));
    }
    let drafts = agents_alone(alloc, items)?;
    if !fits_limits(drafts.as_slice()) {
        return Err(ScriptRefusal::TooMany);
    }
    Ok(Script::make(finished(alloc, drafts)?))
}

// The agents, in order.
fn agents_alone(alloc: Global, values: &[Value]) -> Result<Vec<Draft>, ScriptRefusal>
    ensures agents { IfOk result (λ drafts. each_from agent_alone 1 (map view values.now) ≡ Ok drafts.items) }
    ensures refused { IfErr result (λ why. (each_from agent_alone 1 (map view values.now) ≡ Err why) ⊎ (why ≡ ScriptRefusal.NoMemory)) }
{
    each_alone(alloc, values)
}

// The agents, value by value.
fn each_alone(alloc: Global, values: &[Value]) -> Result<Vec<Draft>, ScriptRefusal>
    ensures agents { IfOk result (λ drafts. each_from (λ number value. agent_alone number (view value)) 1 values.now ≡ Ok drafts.items) }
    ensures refused { IfErr result (λ why. (each_from (λ number value. agent_alone number (view value)) 1 values.now ≡ Err why) ⊎ (why ≡ ScriptRefusal.NoMemory)) }
{
    let mut drafts = Vec::new(alloc);
    for (place, value) in values.iter().enumerate() {
        let draft = agent_alone(alloc, place as u64 + 1, value)?;
        push(&mut drafts, draft)?;
    }
    Ok(drafts)
}

// An agent without steps.
#[tactic(auto, unfolding(crate::specs::Lines::agent_alone))]
fn agent_alone(alloc: Global, agent: u64, value: &Value) -> Result<Draft, ScriptRefusal>
    ensures { Answers result (agent_alone agent (view value.now)) }
{
    let Some(head) = head_alone(value) else {
        return Err(ScriptRefusal::BadShape(agent, 0));
    };
    let key = read_origin(alloc, agent, head.origin)?;
    Ok(Draft::make(key, head.grant, Vec::new(alloc)))
}

// The members of such an agent.
fn head_alone(value: &Value) -> Option<Head<'_>>
    ensures { option_map seen result ≡ head_alone (view value.now) }
{
    if !has_only(value, &["origin", "grants"]) {
        return None;
    }
    let origin = text_of(value, "origin")?;
    let grant = read_grant(value.get("grants"))?;
    Some(Head {
        origin,
        grant,
        steps: &[],
    })
}

/// The number of the agent, of so many, that a line names before its first blank, and what stands behind the blank; None where it names
/// none of them.
pub fn named_agent(line: &[u8], agents: u32) -> Option<LinePart<'_>>
    ensures { option_map part result ≡ named_agent agents line.now }
{
    let part = numbered(line)?;
    if 1 <= part.agent && part.agent <= agents {
        Some(part)
    } else {
        None
    }
}

// The number of one or two digits before the first blank of a line, and what stands behind that.
fn numbered(line: &[u8]) -> Option<LinePart<'_>>
    ensures { option_map part result ≡ numbered line.now }
{
    match line {
        [a, b, rest @ ..] => {
            if *b == BLANK {
                behind(digit(*a), rest)
            } else {
                numbered_by_two(two_digits(*a, *b), rest)
            }
        }
        _ => None,
    }
}

// The same, where two digits were read.
fn numbered_by_two(number: Option<u32>, rest: &[u8]) -> Option<LinePart<'_>>
    ensures { option_map part result ≡ numbered_by_two number rest.now }
{
    match rest {
        [c, rest @ ..] => {
            if *c == BLANK {
                behind(number, rest)
            } else {
                None
            }
        }
        [] => None,
    }
}

// What stands behind a number.
fn behind(number: Option<u32>, text: &[u8]) -> Option<LinePart<'_>>
    ensures { option_map part result ≡ behind number text.now }
{
    let agent = number?;
    Some(LinePart { agent, text })
}

// The number that a decimal digit stands for.
fn digit(byte: u8) -> Option<u32>
    ensures { result ≡ digit byte }
{
    if 48 <= byte && byte <= 57 {
        Some(u32::from(byte) - 48)
    } else {
        None
    }
}

// The number that two decimal digits stand for.
fn two_digits(a: u8, b: u8) -> Option<u32>
    ensures { result ≡ two_digits a b }
{
    let tens = digit(a)?;
    let ones = digit(b)?;
    Some(10 * tens + ones)
}

/// What the text behind an agent's number asks; its step's number counts from one on, and stands in a refusal. An error is one of a script's
/// step, that the text is no JSON, or want of memory.
pub fn read_asking(
    alloc: Global,
    agent: u64,
    number: u64,
    text: &[u8],
) -> Result<Asking, ScriptRefusal>
    ensures asked { Answers result (asked_by agent number text.now) }
    ensures bounded { IfOk result IsBounded }
{
    if text == b"end".as_slice() {
        return Ok(Asking::End);
    }
    let value = json_of(alloc, text)?;
    let step = read_step(alloc, agent, number, &value)?;
    Ok(Asking::Step(step))
}
