//! The run of one agent's script.

ghost use Rattle.std.specs.Prelude.{◌≡◌};
ghost use Rattle.opfs_runner.specs.Runs.{IsReady, HasRun};

use crate::ends::end_rows;
use crate::steps::run_steps;
use opfs_agent::Agent;
use opfs_hall::{Hall, Pass};
use opfs_outside::Gate;
use opfs_script::AgentScript;
use opfs_store::Store;
use std::sync::Wait;

/// An agent that has ended, or several: a pass that has collected all of theirs, and whether each script was run whole. It was
/// not only after want of memory.
#[derive(Drop)]
pub struct Ended<S: Store> {
    pub pass: Pass<S>,
    pub whole: bool,
}

/// Runs the script of an agent: each step with the gate round it. Then what is open ends, in the order of rows, and the
/// agent. After want of memory the steps that are left are not made.
pub fn run_agent<S: Store, R: Wait, G: Gate>(
    rt: &R,
    court: &Hall<S>,
    mut agent: Agent<S>,
    script: &AgentScript,
    gate: &G,
) -> Ended<S>
    requires { IsReady court.now script.now agent }
    ensures { HasRun court.now script.now agent.pass.agent result.pass result.whole }
{
    agent.know_kept();
    let mut agent_rows = Vec::new(agent.alloc());
    let whole = run_steps(rt, court, &mut agent, &mut agent_rows, script, gate);
    end_rows(rt, court, &mut agent, agent_rows);
    let pass = agent.end(rt, court);
    Ended { pass, whole }
}
