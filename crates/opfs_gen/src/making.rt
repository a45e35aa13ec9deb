//! The script that is made of a number.

ghost use Rattle.std.specs.Prelude.{◌≡◌, ◌+◌, ◌++◌, ◌∷◌, [], ◌<◌, ◌≤◌, ◌^◌, IfOk, OnOk};
ghost use Rattle.opfs_gen.specs.Making.{IsGenRange, gen_asked, gen_key, gen_script};
ghost use Rattle.opfs_gen.specs.Rounds.{gen_steps};

use crate::drawing::draw_round;
use crate::steps::{add_round, directory};
use opfs_base::Key;
use opfs_script::{AgentScript, Script, Step};
use std::alloc::{AllocError, Global};

/// The steps of so many rounds, behind a number.
fn steps_of(alloc: Global, start: u64, rounds: u32) -> Result<Vec<Step>, AllocError>
    ensures { IfOk result (λ steps. steps.items ≡ gen_steps start rounds) }
{
    let mut steps = Vec::new(alloc);
    steps.push(directory(alloc)?)?;
    let mut x = start;
    for _ in 0..rounds {
        let (round, after) = draw_round(x);
        add_round(alloc, &round, &mut steps)?;
        x = after;
    }
    Ok(steps)
}

/// The key of the agent of a number.
fn key_of(alloc: Global, agent: u32) -> Result<Key, AllocError>
    ensures { IfOk result (λ key. key ≡ gen_key agent) }
{
    let text = format!(in alloc; "https://a{agent}.example")?;
    let key = Key::of_text(alloc, text.as_str())?;
    Ok(key)
}

/// The script of the agent of a number.
fn agent_script(
    alloc: Global,
    seed: u64,
    rounds: u32,
    agent: u32,
) -> Result<AgentScript, AllocError>
    requires seed { seed + agent < 2 ^ 64 }
    requires rounds { rounds ≤ 200 }
    ensures { IfOk result (λ script. script ≡ gen_asked seed rounds agent) }
{
    let key = key_of(alloc, agent)?;
    let steps = steps_of(alloc, seed + u64::from(agent), rounds)?;
    Ok(AgentScript::make(Some(key), false, steps))
}

/// Adds the script of the agent of a number.
fn add_agent(
    alloc: Global,
    seed: u64,
    rounds: u32,
    agent: u32,
    scripts: &mut Vec<AgentScript>,
) -> Result<(), AllocError>
    requires seed { seed + agent < 2 ^ 64 }
    requires rounds { rounds ≤ 200 }
    ensures { OnOk result (scripts.new.items ≡ scripts.old.items ++ gen_asked seed rounds agent ∷ []) }
{
    scripts.push(agent_script(alloc, seed, rounds, agent)?)?;
    Ok(())
}

/// The scripts of so many agents.
fn scripts_of(
    alloc: Global,
    seed: u64,
    agents: u32,
    rounds: u32,
) -> Result<Vec<AgentScript>, AllocError>
    requires { IsGenRange seed agents rounds }
    ensures { IfOk result (λ scripts. scripts.items ≡ gen_script seed agents rounds) }
{
    let mut scripts = Vec::new(alloc);
    for index in 0..agents {
        add_agent(alloc, seed, rounds, index + 1, &mut scripts)?;
    }
    Ok(scripts)
}

/// The script of so many agents, each with an origin of its own, that make so many rounds of calls, drawn from a number.
pub fn make_script(alloc: Global, seed: u64, agents: u32, rounds: u32) -> Result<Script, AllocError>
    requires { IsGenRange seed agents rounds }
    ensures { IfOk result (λ script. script ≡ gen_script seed agents rounds) }
{
    let scripts = scripts_of(alloc, seed, agents, rounds)?;
    Ok(Script::make(scripts))
}
