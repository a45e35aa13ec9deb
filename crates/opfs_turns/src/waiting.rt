//! An await, turn by turn (this project's own).

ghost use Rattle.std.specs.Prelude.{◌≡◌, ◌≢◌, ◌⊎◌, ◌≤◌, Bool, Some, IfOk, OnErr};
ghost use Rattle.opfs_machine.specs.Agents.{waits_for};
ghost use Rattle.opfs_laws.specs.Histories.Unread.{IsTold};
ghost use Rattle.opfs_turns.specs.Agents.{IsAgent, seen};
ghost use Rattle.opfs_turns.specs.Calls.{HasRoom, HasLooked};
ghost use Rattle.opfs_turns.specs.Waiting.{HasWaitRoom, HasWaited, HasAwaited, IsAwaitTurn, await_reply, planned, op_by, noted_by, turn_by};

use crate::notes::{Caller, Notes};
use opfs_base::Text;
use opfs_hall::Hall;
use opfs_hist::{Op, Room};
use opfs_store::{AwaitState, Store};
use opfs_work::Work;
use std::alloc::{AllocError, Global};
use std::sync::Wait;

/// How an await stands after a turn.
#[derive(Clone, Copy, PartialEq, Eq)]
pub enum AwaitTurn {
    /// It was answered: true where the tag was posted, false where nobody is left who could post it.
    Answered(bool),
    /// It is not answered yet, and the agent waits for the tag: it was not posted, and somebody is left who could post it. The
    /// hall's bell told this in its turn.
    Waits(u32),
}

/// What an await does in its turn.
#[derive(Clone, Copy)]
pub(crate) enum Plan {
    /// It is answered: whether the tag was posted.
    Answer(bool),
    /// It begins to wait.
    Begin,
    /// It goes on waiting.
    Look,
}

// What an await does, by how its tag stands and whether the agent waits for it already.
fn plan_for(state: AwaitState, begun: bool) -> Plan
    ensures { result ≡ planned state begun }
{
    match state {
        AwaitState::Posted => Plan::Answer(true),
        AwaitState::Stuck => Plan::Answer(false),
        AwaitState::Neither => { if begun { Plan::Look } else { Plan::Begin } }
    }
}

// What an await enters in its turn, by its plan: its own call, or that it waits. A look enters nothing.
fn op_of(plan: Plan, tag: Text) -> Op
    requires enters { plan ≢ Plan.Look }
    ensures { op_by plan tag ≡ Some result }
{
    match plan {
        Plan::Answer(_) => Op::Await { tag },
        Plan::Begin => Op::Wait { tag },
        Plan::Look => unreachable!(),
    }
}

// Notes what was entered by a plan: an answer has a number of its own and ends the wait, and another waits for this tag.
fn note(notes: &mut Notes, plan: Plan, rows: u32, tag: Text)
    requires number { notes.old.number ≤ 60000002 }
    requires entries { notes.old.entries ≤ 60000001 }
    ensures { notes.new ≡ noted_by plan notes.old rows tag }
{
    notes.entries += 1;
    notes.rows = rows;
    match plan {
        Plan::Answer(_) => {
            notes.number += 1;
            notes.waiting = None;
        }
        Plan::Begin | Plan::Look => notes.waiting = Some(tag),
    }
}

// How an await stands after what it did by its plan.
fn turn_of(plan: Plan, heard: u32) -> AwaitTurn
    ensures { result ≡ turn_by plan heard }
{
    match plan {
        Plan::Answer(posted) => AwaitTurn::Answered(posted),
        Plan::Begin | Plan::Look => AwaitTurn::Waits(heard),
    }
}

// Rings the hall's bell where an await begins to wait: another's may be stuck by that.
fn ring_by<S: Store>(court: &Hall<S>, plan: Plan) {
    match plan {
        Plan::Begin => court.ring(),
        Plan::Answer(_) | Plan::Look => (),
    }
}

// Whether an agent waits for a tag.
fn waits_for(waiting: &Option<Text>, tag: &Text) -> bool
    ensures { result ≡ waits_for waiting.now tag.now }
{
    match waiting {
        Some(other) => *other == *tag,
        None => false,
    }
}

// What an await keeps ready before its turn: the place of an entry, the tag for it, and the tag for the notes.
struct Asked {
    room: Room,
    tag: Text,
    noted: Text,
}

fn keep_ready(alloc: Global, tag: &Text) -> Result<Asked, AllocError>
    ensures { IfOk result (λ asked. (asked.tag ≡ tag.now) × (asked.noted ≡ tag.now)) }
{
    let room = Room::make(alloc)?;
    let noted = tag.copy(alloc)?;
    let tag = tag.copy(alloc)?;
    Ok(Asked { room, tag, noted })
}

/// One turn of an await: it is answered, begins to wait, or looks alone.
pub(crate) fn await_turn<S: Store, R: Wait>(
    rt: &R,
    alloc: Global,
    court: &Hall<S>,
    caller: &mut Caller<S>,
    tag: &Text,
) -> Result<AwaitTurn, AllocError>
    requires own { caller.old.pass.hall ≡ court.now }
    requires agent { IsAgent S.tells (seen S.opened caller.old.pass caller.old.notes) }
    requires room { HasWaitRoom (seen S.opened caller.old.pass caller.old.notes) }
    ensures agent { IsAgent S.tells (seen S.opened caller.new.pass caller.new.notes) }
    ensures idle { caller.new.pass ≡ record caller.old.pass { base = caller.new.pass.base } }
    ensures turned { IsAwaitTurn S.tells (seen S.opened caller.old.pass caller.old.notes) (seen S.opened caller.new.pass caller.new.notes) tag.now result }
{
    let Asked {
        room,
        tag: asked,
        noted,
    } = keep_ready(alloc, tag)?;
    let agent = caller.pass.agent();
    let number = caller.notes.number;
    let begun = waits_for(&caller.notes.waiting, tag);
    let mut work = Work::fresh(alloc);
    let mut turn = court.enter(rt, &mut caller.pass);
    turn.value.know_legal();
    let heard = court.heard();
    let stands = turn.value.await_state(agent, tag.as_str());
    let plan = plan_for(stands, begun);
    if let Plan::Look = plan {
        court.leave(&mut caller.pass, turn);
        return Ok(AwaitTurn::Waits(heard));
    }
    let op = op_of(plan, asked);
    let acted = turn.value.act(
        agent,
        number,
        &mut caller.notes.pending,
        room,
        op,
        &mut work,
        &[],
    );
    turn.value.know_legal();
    court.leave(&mut caller.pass, turn);
    ring_by(court, plan);
    match acted {
        Ok(acted) => {
            note(&mut caller.notes, plan, acted.rows, noted);
            Ok(turn_of(plan, heard))
        }
        Err(error) => Err(error),
    }
}

/// Makes an await: one turn after another until it is answered. It sleeps in between.
pub(crate) fn await_turns<S: Store, R: Wait>(
    rt: &R,
    alloc: Global,
    court: &Hall<S>,
    caller: &mut Caller<S>,
    tag: &Text,
) -> Result<bool, AllocError>
    requires own { caller.old.pass.hall ≡ court.now }
    requires agent { IsAgent S.tells (seen S.opened caller.old.pass caller.old.notes) }
    requires room { HasRoom (seen S.opened caller.old.pass caller.old.notes) }
    ensures agent { IsAgent S.tells (seen S.opened caller.new.pass caller.new.notes) }
    ensures idle { caller.new.pass ≡ record caller.old.pass { base = caller.new.pass.base } }
    ensures awaited { IfOk result (λ posted. HasAwaited S.tells (seen S.opened caller.old.pass caller.old.notes) (seen S.opened caller.new.pass caller.new.notes) tag.now (await_reply posted)) }
    ensures waited { OnErr result (HasWaited S.tells (seen S.opened caller.old.pass caller.old.notes) (seen S.opened caller.new.pass caller.new.notes) tag.now) }
{
    for _ in rt.forever() {
        match await_turn(rt, alloc, court, caller, tag) {
            Ok(AwaitTurn::Answered(posted)) => return Ok(posted),
            Ok(AwaitTurn::Waits(heard)) => court.sleep(rt, heard),
            Err(error) => return Err(error),
        }
    }
    unreachable!()
}
