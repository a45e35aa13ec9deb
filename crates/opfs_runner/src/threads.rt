//! Agents on threads of their own.

ghost use Rattle.std.specs.Prelude.{◌≡◌, ◌≢◌, ◌↔◌, [], ◌&&◌, length, false, is_none, IsTrue, IfSome};
ghost use Rattle.std.specs.Thread.{IsSend, IsSync};
ghost use Rattle.opfs_hall.specs.Seen.{joined};
ghost use Rattle.opfs_runner.specs.Runs.{IsReady, HasRun, IsReadyFor, HasRunAll};

use crate::ended::{Ended, run_agent};
use opfs_agent::Agent;
use opfs_hall::Hall;
use opfs_outside::Gate;
use opfs_script::AgentScript;
use opfs_store::Store;
use std::sync::Wait;
use std::thread::{Threads, join};

// Collects the second into the first.
fn join_runs<S: Store>(court: &Hall<S>, first: Ended<S>, second: Ended<S>) -> Ended<S>
    requires own { (first.pass.hall ≡ court.now) × (second.pass.hall ≡ court.now) }
    requires idle { (first.pass.busy ≡ false) × (second.pass.busy ≡ false) }
    requires agent { second.pass.agent ≢ 0 }
    ensures pass { result.pass ≡ joined first.pass second.pass }
    ensures whole { result.whole ≡ (first.whole && second.whole) }
{
    let Ended { mut pass, whole } = first;
    court.join(&mut pass, second.pass);
    Ended {
        pass,
        whole: whole & second.whole,
    }
}

/// Runs the scripts of all agents at the same time, each agent on a thread of its own. After want of memory an agent ends, and
/// the others go on. It gives nothing exactly where there is no agent.
pub fn run_all<S: Store + Send, R: Threads + Wait + Sync, G: Gate>(
    rt: &R,
    court: &Hall<S>,
    mut agents: Vec<Agent<S>>,
    scripts: &[AgentScript],
    gate: &G,
) -> Option<Ended<S>>
    requires { IsReadyFor court.now scripts.now agents.items }
    ensures none { IsTrue (is_none result) ↔ (agents.items ≡ []) }
    ensures run { IfSome result (λ r. HasRunAll court.now scripts.now (length agents.items) r.pass r.whole) }
{
    let agent = agents.pop()?;
    // The last, so its script's place is what is left.
    let script = &scripts[agents.len()];
    let (mine, rest) = join(
        rt,
        move || -> Ended<S>
            requires ready { IsReady court.now script.now agent }
            ensures { HasRun court.entry.now script.entry.now agent.pass.agent result.pass result.whole }
        { run_agent(rt, court, agent, script, gate) },
        move || -> Option<Ended<S>>
            requires sync { IsSend S.row × IsSync R.row × IsSync G.row }
            requires ready { IsReadyFor court.now scripts.now agents.items }
            ensures none { IsTrue (is_none result) ↔ (agents.items ≡ []) }
            ensures run { IfSome result (λ r. HasRunAll court.entry.now scripts.entry.now (length agents.items) r.pass r.whole) }
        { run_all(rt, court, agents, scripts, gate) },
    );
    match rest {
        Some(others) => Some(join_runs(court, others, mine)),
        None => Some(mine),
    }
}
