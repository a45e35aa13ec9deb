//! With what a trial begins.

ghost use Rattle.std.specs.Prelude.{◌≡◌, [], All, map, IfOk, OnOk, IsTrue};
ghost use Rattle.opfs_machine.specs.Openings.{agent_begun, begun};
ghost use Rattle.opfs_script.specs.Limits.{is_origin_key};
ghost use Rattle.opfs_script_run.specs.Stage.Openings.{who_of, trial_opening};

use opfs_base::copy_key;
use opfs_machine::{Agent, Limits, Many, Own, State};
use opfs_plain::Plain;
use opfs_rulings::Board;
use opfs_script::{AgentScript, Script};
use std::alloc::{AllocError, Global};

/// A list of nothing.
fn none<T>(alloc: Global) -> Many<T>
    ensures { result ≡ [] }
{
    Many {
        items: Vec::new(alloc),
    }
}

/// An agent of a script, before its first step.
fn agent_of(alloc: Global, script: &AgentScript) -> Result<Agent<Own>, AllocError>
    ensures agent { IfOk result (λ agent. agent ≡ agent_begun (who_of script.now)) }
    ensures key { IsTrue (is_origin_key script.now.key) }
{
    Ok(Agent {
        key: copy_key(alloc, script.key())?,
        grant: script.grant(),
        live: true,
        moment: 0,
        waits: None,
        own: none(alloc),
    })
}

/// The agents of a script, before their first steps.
fn agents_of(alloc: Global, scripts: &[AgentScript]) -> Result<Many<Agent<Own>>, AllocError>
    ensures agents { IfOk result (λ agents. agents ≡ map agent_begun (map who_of scripts.now)) }
    ensures keys { OnOk result (All (λ a. IsTrue (is_origin_key a.key)) scripts.now) }
{
    let mut agents = Vec::new(alloc);
    for script in scripts {
        agents.push(agent_of(alloc, script)?)?;
    }
    Ok(Many { items: agents })
}

/// The plain machine over an empty store, with the agents of a script.
pub fn begin(alloc: Global, script: &Script) -> Result<Plain, AllocError>
    ensures plain { IfOk result (λ plain. plain ≡ record { state = begun (trial_opening script.now); entries = [] }) }
    ensures keys { OnOk result (All (λ a. IsTrue (is_origin_key a.key)) script.now) }
{
    let agents = agents_of(alloc, script.agents())?;
    let state = Board::make(
        alloc,
        State {
            rows: none(alloc),
            persistent: none(alloc),
            posted: none(alloc),
            agents,
            entries: 0,
            used: none(alloc),
            limits: Limits {
                area: 1_048_576,
                blocks: 16_384,
                quota: 8_192,
            },
        },
    )?;
    Ok(Plain {
        state,
        entries: none(alloc),
    })
}
