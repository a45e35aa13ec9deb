//! The steps of an agent.

ghost use Rattle.std.specs.Prelude.{◌≡◌, ◌⊎◌, ◌++◌, ◌∷◌, [], true, false, IsTrue, map, IfOk, IfErr, OnOk};
ghost use Rattle.std.specs.List.{list_all};
ghost use Rattle.serde_json.specs.View.{view};
ghost use Rattle.opfs_script.specs.Limits.{keeps_bounds};
ghost use Rattle.opfs_script.specs.Reading.{step_of, each_from};
ghost use Rattle.opfs_script.specs.Answers.{Answers};

use crate::fault::Fault;
use crate::members::text_of;
use crate::refusal::ScriptRefusal;
use crate::shapes::shaped;
use crate::step::Step;
use crate::words::word_named;
use serde_json::Value;
use std::alloc::Global;

/// The steps of an agent, in order.
pub fn steps_of(alloc: Global, agent: u64, values: &[Value]) -> Result<Vec<Step>, ScriptRefusal>
    ensures steps { IfOk result (λ steps. each_from (step_of agent) 1 (map view values.now) ≡ Ok steps.items) }
    ensures bounded { IfOk result (λ steps. IsTrue (list_all keeps_bounds steps.items)) }
    ensures refused { IfErr result (λ why. (each_from (step_of agent) 1 (map view values.now) ≡ Err why) ⊎ (why ≡ ScriptRefusal.NoMemory)) }
{
    each_step(alloc, agent, values)
}

// The steps of an agent, value by value.
fn each_step(alloc: Global, agent: u64, values: &[Value]) -> Result<Vec<Step>, ScriptRefusal>
    ensures steps { IfOk result (λ steps. each_from (λ number value. step_of agent number (view value)) 1 values.now ≡ Ok steps.items) }
    ensures bounded { IfOk result (λ steps. IsTrue (list_all keeps_bounds steps.items)) }
    ensures refused { IfErr result (λ why. (each_from (λ number value. step_of agent number (view value)) 1 values.now ≡ Err why) ⊎ (why ≡ ScriptRefusal.NoMemory)) }
{
    let mut steps = Vec::new(alloc);
    for (place, value) in values.iter().enumerate() {
        let step = read_step(alloc, agent, place as u64 + 1, value)?;
        push(&mut steps, step)?;
    }
    Ok(steps)
}

/// Adds an item at the end.
pub fn push<T: Drop>(list: &mut Vec<T>, item: T) -> Result<(), ScriptRefusal>
    ensures ok { OnOk result (list.new.items ≡ list.old.items ++ item ∷ []) }
    ensures err { IfErr result (λ why. why ≡ ScriptRefusal.NoMemory) }
{
    match list.push(item) {
        Ok(()) => Ok(()),
        Err(_) => Err(ScriptRefusal::NoMemory),
    }
}

/// The step of an agent that a JSON value is; its number counts from one on, and stands in a refusal. An error is that the
/// word is unknown, that the value is of another shape or passes a bound, or want of memory.
#[tactic(auto, unfolding(crate::specs::Reading::step_of))]
pub fn read_step(
    alloc: Global,
    agent: u64,
    number: u64,
    value: &Value,
) -> Result<Step, ScriptRefusal>
    ensures step { Answers result (step_of agent number (view value.now)) }
    ensures bounded { IfOk result (λ step. IsTrue (keeps_bounds step)) }
{
    let Some(name) = text_of(value, "do") else {
        return Err(ScriptRefusal::BadShape(agent, number));
    };
    let Some(word) = word_named(name) else {
        return Err(ScriptRefusal::UnknownStep(agent, number));
    };
    match shaped(alloc, word, value) {
        Ok(step) => Ok(step),
        Err(Fault::Shape) => Err(ScriptRefusal::BadShape(agent, number)),
        Err(Fault::Memory) => Err(ScriptRefusal::NoMemory),
    }
}
