//! What two agents do at the same time: each keeps a notebook of its own.

ghost use Rattle.std.specs.Prelude.{◌≡◌, ◌∷◌, []};
ghost use Rattle.opfs_hall.specs.Seen.{new_pass};
ghost use Rattle.opfs_notebook.specs.Ready.{Goes, HasMade, HoldsNotes, IsIdle, IsReady};

use crate::agents::{Meeting, part};
use crate::notes::{close, note, open, store, write};
use opfs_agent::Agent;
use opfs_base::Bytes;
use opfs_hall::Hall;
use opfs_kv::{Batch, Kv, KvStop};
use opfs_store::Store;
use std::sync::Wait;
use std::thread::{Threads, join};

/// What two agents found of a note.
#[derive(Drop)]
pub struct Found {
    pub left: Result<Option<Bytes>, KvStop>,
    pub right: Result<Option<Bytes>, KvStop>,
}

// Writes notes, stores them for good, and reads one.
fn work<S: Store, R: Wait>(
    rt: &R,
    court: &Hall<S>,
    agent: &mut Agent<S>,
    kv: &mut Kv,
    batch: &Batch,
    name: &Bytes,
) -> Result<Option<Bytes>, KvStop>
    requires holds { HoldsNotes S.tells court.now agent.old kv.old }
    requires few { HasMade agent.old 45000000 }
    ensures holds { HoldsNotes S.tells court.now agent.new kv.new }
    ensures goes { Goes agent.old agent.new 9 }
{
    write(rt, court, agent, kv, batch)?;
    store(rt, court, agent, kv)?;
    note(rt, court, agent, kv, name)
}

/// Opens an agent's notebook, writes notes into it, reads one, and closes it.
pub fn keep<S: Store, R: Wait>(
    rt: &R,
    court: &Hall<S>,
    agent: &mut Agent<S>,
    batch: &Batch,
    name: &Bytes,
) -> Result<Option<Bytes>, KvStop>
    requires ready { IsReady court.now agent.old 0 }
    requires few { HasMade agent.old 40000000 }
    ensures ready { IsReady court.now agent.new 0 }
    ensures goes { Goes agent.old agent.new 277 }
{
    let mut kv = open(rt, court, agent, "notes")?;
    let found = work(rt, court, agent, &mut kv, batch, name);
    match close(rt, court, agent, kv) {
        Ok(()) => found,
        Err(stop) => Err(stop),
    }
}

/// An agent behind a visit, and what it found.
pub struct Kept<S: Store> {
    pub agent: Agent<S>,
    pub found: Result<Option<Bytes>, KvStop>,
}

// An agent of a number keeps its notebook.
fn keep_own<S: Store, R: Wait>(
    rt: &R,
    court: &Hall<S>,
    mut agent: Agent<S>,
    batch: &Batch,
    name: &Bytes,
) -> Kept<S>
    requires { IsIdle court.now agent agent.pass.agent 1000000 }
    ensures { IsIdle court.now result.agent agent.pass.agent 2000000 }
{
    let found = keep(rt, court, &mut agent, batch, name);
    Kept { agent, found }
}

// Both agents keep their notebooks, each on a thread of its own.
fn keep_both<S: Store + Send, R: Threads + Wait + Sync>(
    rt: &R,
    court: &Hall<S>,
    left: Agent<S>,
    right: Agent<S>,
    batch: &Batch,
    name: &Bytes,
) -> (Kept<S>, Kept<S>)
    requires left { IsIdle court.now left left.pass.agent 1000000 }
    requires right { IsIdle court.now right right.pass.agent 1000000 }
    ensures left { IsIdle court.now result.0.agent left.pass.agent 2000000 }
    ensures right { IsIdle court.now result.1.agent right.pass.agent 2000000 }
{
    join(
        rt,
        move || -> Kept<S>
            requires { IsIdle court.now left left.pass.agent 1000000 }
            ensures { IsIdle court.entry.now result.agent left.pass.agent 2000000 }
        { keep_own(rt, court, left, batch, name) },
        move || -> Kept<S>
            requires { IsIdle court.now right right.pass.agent 1000000 }
            ensures { IsIdle court.entry.now result.agent right.pass.agent 2000000 }
        { keep_own(rt, court, right, batch, name) },
    )
}

// Two agents that have begun keep their notebooks, and end.
pub fn run_meeting<S: Store + Send, R: Threads + Wait + Sync>(
    rt: &R,
    meeting: Meeting<S>,
    batch: &Batch,
    name: &Bytes,
) -> (S, Found)
    requires owner { meeting.owner ≡ new_pass meeting.court 0 [] }
    requires agents { meeting.court.agents ≡ 2 }
    requires left { IsIdle meeting.court meeting.left 1 0 }
    requires right { IsIdle meeting.court meeting.right 2 0 }
{
    let Meeting {
        court,
        owner,
        left,
        right,
    } = meeting;
    let (one, other) = keep_both(rt, &court, left, right, batch, name);
    let Kept { agent, found } = one;
    let Kept {
        agent: last,
        found: found_last,
    } = other;
    let store = part(
        rt,
        Meeting {
            court,
            owner,
            left: agent,
            right: last,
        },
    );
    (
        store,
        Found {
            left: found,
            right: found_last,
        },
    )
}
