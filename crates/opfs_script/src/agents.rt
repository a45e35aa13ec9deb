//! The agents of a script.

ghost use Rattle.std.specs.Prelude.{◌≡◌, ◌⊎◌, ◌≤◌, ◌-◌, nat_le, sum_by, length, map, IsTrue, IfOk, IfErr};
ghost use Rattle.std.specs.Option.{SomeIff};
ghost use Rattle.serde_json.specs.View.{view};
ghost use Rattle.opfs_script.specs.Limits.{bytes_asked, steps_of_all, bytes_of_all, fits_limits};
ghost use Rattle.opfs_script.specs.Reading.{agent_of, each_from};
ghost use Rattle.opfs_script.specs.Answers.{Answers};

use crate::draft::Draft;
use crate::head::{head_of, read_origin};
use crate::limits::bytes_asked;
use crate::refusal::ScriptRefusal;
use crate::script::AgentScript;
use crate::step::Step;
use crate::steps::{push, steps_of};
use serde_json::Value;
use std::alloc::Global;

/// The agents of a script, in order.
pub fn agents_of(alloc: Global, values: &[Value]) -> Result<Vec<Draft>, ScriptRefusal>
    ensures agents { IfOk result (λ drafts. each_from agent_of 1 (map view values.now) ≡ Ok drafts.items) }
    ensures refused { IfErr result (λ why. (each_from agent_of 1 (map view values.now) ≡ Err why) ⊎ (why ≡ ScriptRefusal.NoMemory)) }
{
    each_agent(alloc, values)
}

// The agents of a script, value by value.
fn each_agent(alloc: Global, values: &[Value]) -> Result<Vec<Draft>, ScriptRefusal>
    ensures agents { IfOk result (λ drafts. each_from (λ number value. agent_of number (view value)) 1 values.now ≡ Ok drafts.items) }
    ensures refused { IfErr result (λ why. (each_from (λ number value. agent_of number (view value)) 1 values.now ≡ Err why) ⊎ (why ≡ ScriptRefusal.NoMemory)) }
{
    let mut drafts = Vec::new(alloc);
    for (place, value) in values.iter().enumerate() {
        let draft = agent_of(alloc, place as u64 + 1, value)?;
        push(&mut drafts, draft)?;
    }
    Ok(drafts)
}

// The script of an agent.
#[tactic(auto, unfolding(crate::specs::Reading::agent_of))]
fn agent_of(alloc: Global, agent: u64, value: &Value) -> Result<Draft, ScriptRefusal>
    ensures { Answers result (agent_of agent (view value.now)) }
{
    let Some(head) = head_of(value) else {
        return Err(ScriptRefusal::BadShape(agent, 0));
    };
    let key = read_origin(alloc, agent, head.origin)?;
    let steps = steps_of(alloc, agent, head.steps)?;
    Ok(Draft::make(key, head.grant, steps))
}

/// Whether agents ask no more than a script may.
pub fn fits_limits(drafts: &[Draft]) -> bool
    ensures { result ≡ fits_limits drafts.now }
{
    drafts.len() <= 64 && have_few_steps(drafts) && have_few_bytes(drafts)
}

// Whether all agents' steps are at most 20,000.
fn have_few_steps(drafts: &[Draft]) -> bool
    ensures { result ≡ nat_le (steps_of_all drafts.now) 20000 }
{
    let mut left = 20_000usize;
    for draft in drafts {
        let steps = draft.steps().len();
        if left < steps {
            return false;
        }
        left -= steps;
    }
    true
}

// Whether all agents' steps write and ask to read at most 67,108,864 bytes.
fn have_few_bytes(drafts: &[Draft]) -> bool
    ensures { result ≡ nat_le (bytes_of_all drafts.now) 67108864 }
{
    let mut left = 67_108_864;
    for draft in drafts {
        match left_after(draft.steps(), left) {
            Some(rest) => left = rest,
            None => return false,
        }
    }
    true
}

// What is left of so many bytes after steps, or None where they are too few.
fn left_after(steps: &[Step], bytes: u64) -> Option<u64>
    ensures { SomeIff result (sum_by bytes_asked steps.now ≤ bytes) (bytes - sum_by bytes_asked steps.now) }
{
    let mut left = bytes;
    for step in steps {
        let asked = bytes_asked(step);
        if left < asked {
            return None;
        }
        left -= asked;
    }
    Some(left)
}

/// The scripts of agents that together ask no more than a script may.
pub fn finished(alloc: Global, drafts: Vec<Draft>) -> Result<Vec<AgentScript>, ScriptRefusal>
    requires { IsTrue (fits_limits drafts.items) }
    ensures agents { IfOk result (λ agents. agents.items ≡ drafts.items) }
    ensures refused { IfErr result (λ why. why ≡ ScriptRefusal.NoMemory) }
{
    let mut agents = Vec::new(alloc);
    for draft in drafts {
        push(&mut agents, draft.finished())?;
    }
    Ok(agents)
}
