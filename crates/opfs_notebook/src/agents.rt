//! Two agents of one store: how they begin and end.

ghost use Rattle.std.specs.Prelude.{◌≡◌, ◌∷◌, [], true, false, map, IfErr, IfOk};
ghost use Rattle.opfs_codec.specs.Spelling.{IsText, is_origin_text};
ghost use Rattle.opfs_hall.specs.Seen.{AreNew, new_pass};
ghost use Rattle.opfs_notebook.specs.Ready.{IsAgentOf, IsIdle, IsPassOf, asks};

use opfs_agent::Agent;
use opfs_base::Key;
use opfs_hall::{Hall, Pass};
use opfs_hist::Room;
use opfs_store::Store;
use opfs_sync_files::a_resting_agent_may_end;
use std::alloc::{AllocError, Global};
use std::sync::Wait;

/// The key of a URL's origin.
pub fn origin_of(alloc: Global, url: &str) -> Result<Key, AllocError>
    ensures { IfOk result (λ key. IsText is_origin_text key) }
{
    match Key::of_url(alloc, url) {
        Ok(key) => {
            let _text = key.as_str();
            Ok(key)
        }
        Err(_) => Err(AllocError),
    }
}

/// What an agent begins with, so that it takes no memory then.
#[derive(Drop)]
pub struct Starter {
    pub key: Key,
    pub room: Room,
}

/// A starter of a URL's origin.
pub fn make_starter(alloc: Global, url: &str) -> Result<Starter, AllocError>
    ensures { IfOk result (λ made. IsText is_origin_text made.key) }
{
    let key = origin_of(alloc, url)?;
    let room = Room::make(alloc)?;
    Ok(Starter { key, room })
}

/// The starters of two URLs' origins.
pub fn starters(alloc: Global, urls: [&str; 2]) -> Result<(Starter, Starter), AllocError>
    ensures first { IfOk result (λ two. IsText is_origin_text two.0.key) }
    ensures second { IfOk result (λ two. IsText is_origin_text two.1.key) }
{
    let first = make_starter(alloc, urls[0])?;
    let second = make_starter(alloc, urls[1])?;
    Ok((first, second))
}

/// Two agents of a store, with the hall that they share and the pass of its owner.
pub struct Meeting<S: Store> {
    pub court: Hall<S>,
    pub owner: Pass<S>,
    pub left: Agent<S>,
    pub right: Agent<S>,
}

// The passes of a new hall of two agents.
fn three<S: Store>(court: &Hall<S>, mut passes: Vec<Pass<S>>) -> (Pass<S>, Pass<S>, Pass<S>)
    requires { AreNew court.now 3 passes.items }
    ensures owner { result.0 ≡ new_pass court.now 0 [] }
    ensures first { result.1 ≡ new_pass court.now 1 [] }
    ensures second { result.2 ≡ new_pass court.now 2 [] }
{
    let _ = court;
    let second = passes.remove(2);
    let first = passes.remove(1);
    (passes.remove(0), first, second)
}

// Begins an agent with a pass of its number.
fn begin<S: Store>(alloc: Global, court: &Hall<S>, pass: Pass<S>, starter: Starter) -> Agent<S>
    requires new { pass ≡ new_pass court.now pass.agent [] }
    requires agent { IsAgentOf (S.opened court.now.opening) pass.agent starter.key }
    ensures { IsIdle court.now result pass.agent 0 }
{
    let _ = court;
    let Starter { key, room } = starter;
    Agent::begin(alloc, pass, Some(key), room)
}

/// Two agents begin over a store without entries. Where there is no memory it gives the store back.
pub fn meet<S: Store, R: AllocGlobal>(
    rt: &R,
    store: S,
    first: Starter,
    second: Starter,
) -> Result<Meeting<S>, S>
    requires agents { (S.opened (S.opening store)).agents ≡ asks first.key ∷ asks second.key ∷ [] }
    requires first { IsText is_origin_text first.key }
    requires second { IsText is_origin_text second.key }
    requires empty { S.entries store ≡ [] }
    ensures owner { IfOk result (λ m. m.owner ≡ new_pass m.court 0 []) }
    ensures agents { IfOk result (λ m. m.court.agents ≡ 2) }
    ensures left { IfOk result (λ m. IsIdle m.court m.left 1 0) }
    ensures right { IfOk result (λ m. IsIdle m.court m.right 2 0) }
    ensures err { IfErr result (λ back. back ≡ store) }
{
    let alloc = rt.alloc();
    let (court, passes) = Hall::make(rt, store, 2)?;
    let (owner, pass, other) = three(&court, passes);
    let left = begin(alloc, &court, pass, first);
    let right = begin(alloc, &court, other, second);
    Ok(Meeting {
        court,
        owner,
        left,
        right,
    })
}

// Ends an agent.
fn end<S: Store, R: Wait>(rt: &R, court: &Hall<S>, agent: Agent<S>) -> Pass<S>
    requires stands { IsIdle court.now agent agent.pass.agent 50000000 }
    ensures { IsPassOf court.now agent.pass.agent result }
{
    agent.know_kept();
    a_resting_agent_may_end(&agent);
    agent.end(rt, court)
}

// Ends a hall whose two agents have ended.
fn close<S: Store>(court: Hall<S>, mut owner: Pass<S>, first: Pass<S>, second: Pass<S>) -> S
    requires owner { owner ≡ new_pass court 0 [] }
    requires agents { court.agents ≡ 2 }
    requires first { IsPassOf court 1 first }
    requires second { IsPassOf court 2 second }
{
    court.join(&mut owner, first);
    court.join(&mut owner, second);
    court.close(owner)
}

/// Ends two agents with nothing open, and their hall, and gives the store.
pub fn part<S: Store, R: Wait>(rt: &R, meeting: Meeting<S>) -> S
    requires owner { meeting.owner ≡ new_pass meeting.court 0 [] }
    requires agents { meeting.court.agents ≡ 2 }
    requires left { IsIdle meeting.court meeting.left 1 50000000 }
    requires right { IsIdle meeting.court meeting.right 2 50000000 }
{
    let Meeting {
        court,
        owner,
        left,
        right,
    } = meeting;
    let first = end(rt, &court, left);
    let second = end(rt, &court, right);
    close(court, owner, first, second)
}
