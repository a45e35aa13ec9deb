//! The steps of an agent's script.

ghost use Rattle.std.specs.Prelude.{◌≡◌, ◌≤◌, [], true, length};
ghost use Rattle.opfs_script_run.specs.Runs.Running.{op_of};
ghost use Rattle.opfs_script.specs.Limits.{keeps_bounds};
ghost use Rattle.opfs_turns.specs.Calls.{HasRoom};
ghost use Rattle.opfs_runner.specs.RunLaws.Agreeing.{Agrees};
ghost use Rattle.opfs_runner.specs.RunLaws.Kinds.{open_rows, MayPerform};
ghost use Rattle.opfs_runner.specs.AgentRows.Tables.{kinds_of, HasTable};
ghost use Rattle.opfs_runner.specs.Ending.{Closes};
ghost use Rattle.opfs_runner.specs.Runs.{IsReady};
ghost use Rattle.opfs_runner.specs.Stepping.{own_entries, reply_of, IsTaken, IsTried, IsStepped, MayHaveEntered};

use crate::agent_rows::{AgentRow, forget, perform};
use crate::snapshots::{row_left, snapshot_bound};
use opfs_agent::{Agent, Stop};
use opfs_base::copy_key;
use opfs_hall::Hall;
use opfs_hist::{Op, Reply};
use opfs_outside::Gate;
use opfs_script::{AgentScript, Step};
use opfs_script_run::Hand;
use opfs_store::Store;
use std::alloc::Global;
use std::sync::Wait;

// The reply of a call, a refusal too; none for want of memory.
fn reply_of(answer: Result<Reply, Stop>) -> Option<Reply>
    ensures { result ≡ reply_of answer }
{
    match answer {
        Ok(reply) => Some(reply),
        Err(Stop::No(refusal)) => Some(Reply::No(refusal)),
        Err(Stop::NoMemory) => None,
    }
}

// Lets the hand take note of a call, and tells whether it has.
fn note(alloc: Global, hand: &mut Hand, step: &Step, op: &Op, answer: Result<Reply, Stop>) -> bool
    ensures { result ≡ true → IsTaken hand.old hand.new step.now op.now answer }
{
    let Some(reply) = reply_of(answer) else {
        return false;
    };
    hand.then(alloc, step, op, &reply).is_ok()
}

// Makes the call of a step, and tells whether it was made and the hand has taken note.
fn run_asked<S: Store, R: Wait>(
    rt: &R,
    court: &Hall<S>,
    agent: &mut Agent<S>,
    agent_rows: &mut Vec<AgentRow>,
    hand: &mut Hand,
    step: &Step,
    op: &Op,
) -> bool
    requires own { agent.old.pass.hall ≡ court.now }
    requires room { HasRoom agent.old }
    requires table { HasTable S.tells agent.old agent_rows.old.items }
    requires may { MayPerform agent.old.key (kinds_of agent_rows.old.items) op.now }
    requires asked { op.now ≡ op_of hand.old step.now }
    ensures { IsTried S.tells agent.old agent.new agent_rows.old.items agent_rows.new.items hand.old hand.new step.now result }
{
    agent.know_kept();
    let alloc = agent.alloc();
    let answer = perform(rt, court, agent, agent_rows, op);
    agent.know_kept();
    note(alloc, hand, step, op, answer)
}

// Makes a step, and tells whether it was made and the hand has taken note.
fn run_step<S: Store, R: Wait>(
    rt: &R,
    court: &Hall<S>,
    agent: &mut Agent<S>,
    agent_rows: &mut Vec<AgentRow>,
    hand: &mut Hand,
    step: &Step,
) -> bool
    requires own { agent.old.pass.hall ≡ court.now }
    requires room { HasRoom agent.old }
    requires table { HasTable S.tells agent.old agent_rows.old.items }
    requires agrees { Agrees hand.old (kinds_of agent_rows.old.items) }
    requires key { hand.old.key ≡ agent.old.key }
    requires bounds { keeps_bounds step.now ≡ true }
    ensures { IsTried S.tells agent.old agent.new agent_rows.old.items agent_rows.new.items hand.old hand.new step.now result }
{
    let Ok(op) = hand.op_of(agent.alloc(), step) else {
        return false;
    };
    let done = run_asked(rt, court, agent, agent_rows, hand, step, &op);
    drop(op);
    done
}

/// Makes a step, and tells whether it was made and the hand has taken note. Then it lets go of the snapshot that the step's
/// variable named before and does not name now.
pub fn make_step<S: Store, R: Wait>(
    rt: &R,
    court: &Hall<S>,
    agent: &mut Agent<S>,
    agent_rows: &mut Vec<AgentRow>,
    hand: &mut Hand,
    step: &Step,
) -> bool
    requires own { agent.old.pass.hall ≡ court.now }
    requires room { HasRoom agent.old }
    requires table { HasTable S.tells agent.old agent_rows.old.items }
    requires agrees { Agrees hand.old (kinds_of agent_rows.old.items) }
    requires key { hand.old.key ≡ agent.old.key }
    requires bounds { keeps_bounds step.now ≡ true }
    ensures { IsStepped S.tells agent.old agent.new agent_rows.old.items agent_rows.new.items hand.old hand.new step.now result }
{
    let before = snapshot_bound(hand, step);
    if !run_step(rt, court, agent, agent_rows, hand, step) {
        return false;
    }
    let now = snapshot_bound(hand, step);
    forget(agent, agent_rows, row_left(before, now));
    true
}

// Has the agent's local calls entered at each 64th step, so that few of them wait.
fn enter_at<S: Store, R: Wait>(rt: &R, court: &Hall<S>, agent: &mut Agent<S>, number: u32)
    requires own { agent.old.pass.hall ≡ court.now }
    requires room { HasRoom agent.old }
    ensures { MayHaveEntered S.tells agent.old agent.new }
{
    if number % 64 != 0 {
        return;
    }
    agent.know_kept();
    agent.enter_pending(rt, court);
    agent.know_kept();
}

/// Makes the steps of a script, each with the gate round it, and tells whether all were made. Only want of memory leaves the others.
pub fn run_steps<S: Store, R: Wait, G: Gate>(
    rt: &R,
    court: &Hall<S>,
    agent: &mut Agent<S>,
    agent_rows: &mut Vec<AgentRow>,
    script: &AgentScript,
    gate: &G,
) -> bool
    requires ready { IsReady court.now script.now agent.old }
    requires none { agent_rows.old.items ≡ [] }
    ensures table { HasTable S.tells agent.new agent_rows.new.items }
    ensures few { (agent.new.entries ≤ 50000) × (length agent_rows.new.items ≤ 20000) }
    ensures same { agent.new.pass ≡ record agent.old.pass { base = agent.new.pass.base } }
    ensures closes { Closes script.now result (own_entries agent.new) agent.new.number (open_rows 1 (kinds_of agent_rows.new.items)) }
{
    agent.know_kept();
    let alloc = agent.alloc();
    let steps = script.steps();
    let Ok(key) = copy_key(alloc, script.key()) else {
        return false;
    };
    let mut hand = Hand::make(alloc, key);
    let agent_number = agent.number();
    let mut number = 0;
    for step in steps {
        number += 1;
        gate.before(agent_number, number);
        let done = make_step(rt, court, agent, agent_rows, &mut hand, step);
        gate.after(agent_number, number);
        if !done {
            return false;
        }
        enter_at(rt, court, agent, number);
    }
    true
}
