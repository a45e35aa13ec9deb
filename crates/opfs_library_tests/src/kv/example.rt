//! A store as a program makes it: a desk of one agent and its hall, and the end.

ghost use Rattle.std.specs.Prelude.{◌≡◌, [], ◌∷◌, false, Some, IfErr, IfOk};
ghost use Rattle.opfs_codec.specs.Spelling.{IsText, is_origin_text};
ghost use Rattle.opfs_desk.specs.Seen.{entries_of};
ghost use Rattle.opfs_hall.specs.Seen.{AreNew, new_pass};
ghost use Rattle.opfs_library_tests.specs.Kv.Sessions.{IsBegun, IsOneAgent};
ghost use Rattle.opfs_notebook.specs.Ready.{IsIdle};

use opfs_agent::Agent;
use opfs_base::Key;
use opfs_desk::Desk;
use opfs_hall::{Hall, Pass};
use opfs_hist::Room;
use opfs_image::recover;
use opfs_outside::Disk;
use opfs_register::Who;
use opfs_store::Store;
use opfs_sync_files::a_resting_agent_may_end;
use std::alloc::{AllocError, Global};
use std::sync::Wait;

/// One agent of an origin, which has no grant.
pub fn one_agent(alloc: Global, key: &Key) -> Result<Vec<Who>, AllocError>
    ensures { IfOk result (λ agents. agents.items ≡ (record { key = Some key.now; grant = false }) ∷ []) }
{
    let key = key.copy(alloc)?;
    let mut agents = Vec::new(alloc);
    agents.push(Who {
        key: Some(key),
        grant: false,
    })?;
    Ok(agents)
}

/// A desk of one agent over the image that a disk holds. Where there is none, or no memory, it gives the disk back.
pub fn desk_over<D: Disk>(alloc: Global, disk: D, key: &Key) -> Result<Desk<D>, D>
    requires key { IsText is_origin_text key.now }
    ensures empty { IfOk result (λ desk. entries_of desk ≡ []) }
    ensures agent { IfOk result (λ desk. IsOneAgent desk.fixed.opening key.now) }
{
    let Ok(agents) = one_agent(alloc, key) else {
        return Err(disk);
    };
    match recover(alloc, disk) {
        Ok(from) => Desk::make(alloc, from, agents),
        Err((disk, _)) => Err(disk),
    }
}

/// A hall with the pass of its owner, and its one agent.
pub struct Session<S: Store> {
    pub court: Hall<S>,
    pub owner: Pass<S>,
    pub agent: Agent<S>,
}

// The pass of the owner of a new hall of one agent, and that of the agent.
fn two_passes<S: Store>(court: &Hall<S>, mut passes: Vec<Pass<S>>) -> (Pass<S>, Pass<S>)
    requires { AreNew court.now 2 passes.items }
    ensures owner { result.0 ≡ new_pass court.now 0 [] }
    ensures agent { result.1 ≡ new_pass court.now 1 [] }
{
    let _ = court;
    let agent = passes.remove(1);
    let owner = passes.remove(0);
    passes.destroy_empty();
    (owner, agent)
}

/// Makes the hall of a store of one agent, and the agent. Where there is no memory it gives the store back.
pub fn begin<S: Store, R: AllocGlobal>(rt: &R, store: S, key: Key) -> Result<Session<S>, S>
    requires empty { S.entries store ≡ [] }
    requires agent { IsOneAgent (S.opened (S.opening store)) key }
    requires key { IsText is_origin_text key }
    ensures begun { IfOk result (λ session. IsBegun session.court session.owner session.agent) }
    ensures err { IfErr result (λ back. back ≡ store) }
{
    let alloc = rt.alloc();
    let Ok(room) = Room::make(alloc) else {
        return Err(store);
    };
    let (court, passes) = Hall::make(rt, store, 1)?;
    let (owner, pass) = two_passes(&court, passes);
    let agent = Agent::begin(alloc, pass, Some(key), room);
    Ok(Session {
        court,
        owner,
        agent,
    })
}

/// Ends the one agent, of which nothing is open, and then its hall, and gives the store.
pub fn end<S: Store, R: Wait>(rt: &R, court: Hall<S>, mut owner: Pass<S>, agent: Agent<S>) -> S
    requires owner { owner ≡ new_pass court 0 [] }
    requires one { court.agents ≡ 1 }
    requires idle { IsIdle court agent 1 50000000 }
{
    agent.know_kept();
    a_resting_agent_may_end(&agent);
    let pass = agent.end(rt, &court);
    court.join(&mut owner, pass);
    court.close(owner)
}
