//! The run of a script.

ghost use Rattle.std.specs.Prelude.{◌≡◌, ◌≤◌, [], length, true, IfOk, IfErr};
ghost use Rattle.opfs_hall.specs.Seen.{new_pass};
ghost use Rattle.opfs_runner.specs.Run.Begun.{AreAgentsOf};
ghost use Rattle.opfs_runner.specs.Runs.{IsReadyFor};
ghost use Rattle.opfs_script_run.specs.Stage.Runs.{EachCut, EachRuns};

use crate::run::agents::{begin_all, starters_of};
use crate::{close_hall, run_all};
use opfs_agent::Agent;
use opfs_hall::{Hall, Pass};
use opfs_outside::Gate;
use opfs_script::AgentScript;
use opfs_store::Store;
use std::sync::Wait;
use std::thread::Threads;

/// A store over which a script was run, and whether it was run whole. It was not only after want of memory.
pub struct Ran<S: Store> {
    pub store: S,
    pub whole: bool,
}

/// The hall of a store, the pass of its owner, and its agents in the order of their numbers, before their first calls.
pub struct Started<S: Store> {
    pub court: Hall<S>,
    pub owner: Pass<S>,
    pub agents: Vec<Agent<S>>,
}

/// Lays the hall of a store that begins with the agents of these scripts, and makes the agents. Where there is no memory it gives the
/// store back.
pub fn begin_agents<S: Store, R: AllocGlobal>(
    rt: &R,
    store: S,
    scripts: &[AgentScript],
) -> Result<Started<S>, S>
    requires few { length scripts.now ≤ 64 }
    requires empty { S.entries store ≡ [] }
    requires agents { AreAgentsOf (S.opened (S.opening store)) scripts.now }
    ensures opening { IfOk result (λ begun. begun.court.opening ≡ S.opening store) }
    ensures owner { IfOk result (λ begun. begun.owner ≡ new_pass begun.court 0 []) }
    ensures agents { IfOk result (λ begun. begun.court.agents ≡ length scripts.now) }
    ensures count { IfOk result (λ begun. length begun.agents.items ≡ length scripts.now) }
    ensures ready { IfOk result (λ begun. IsReadyFor begun.court scripts.now begun.agents.items) }
    ensures err { IfErr result (λ back. back ≡ store) }
{
    let alloc = rt.alloc();
    let Ok(mut starters) = starters_of(alloc, scripts) else {
        return Err(store);
    };
    let Ok(mut agents) = Vec::with_capacity(alloc, scripts.len()) else {
        return Err(store);
    };
    let (court, mut passes) = Hall::make(rt, store, scripts.len() as u32)?;
    begin_all(alloc, &mut passes, &mut starters, &mut agents);
    let owner = passes.pop().unwrap();
    passes.destroy_empty();
    Ok(Started {
        court,
        owner,
        agents,
    })
}

/// Runs the scripts of the agents with which a store begins, at the same time, each agent on a thread of its own; then each has ended. In
/// the store's history the entries of each agent are its script's run, or those of a front of its script where memory was short.
/// Where there is no memory to begin, it gives the store back.
pub fn run_scripts<S: Store + Send, R: AllocGlobal + Threads + Wait + Sync, G: Gate>(
    rt: &R,
    store: S,
    scripts: &[AgentScript],
    gate: &G,
) -> Result<Ran<S>, S>
    requires few { length scripts.now ≤ 64 }
    requires empty { S.entries store ≡ [] }
    requires agents { AreAgentsOf (S.opened (S.opening store)) scripts.now }
    ensures opening { IfOk result (λ ran. S.opening ran.store ≡ S.opening store) }
    ensures cut { IfOk result (λ ran. EachCut scripts.now (S.entries ran.store)) }
    ensures run { IfOk result (λ ran. ran.whole ≡ true → EachRuns scripts.now (S.entries ran.store)) }
    ensures err { IfErr result (λ back. back ≡ store) }
{
    let Started {
        court,
        owner,
        agents,
    } = begin_agents(rt, store, scripts)?;
    match run_all(rt, &court, agents, scripts, gate) {
        Some(ended) => {
            let whole = ended.whole;
            let store = close_hall(court, owner, ended, scripts);
            Ok(Ran { store, whole })
        }
        None => {
            let store = court.close(owner);
            let whole = true;
            Ok(Ran { store, whole })
        }
    }
}
