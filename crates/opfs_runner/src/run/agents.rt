//! The agents of a script, before their first calls.

ghost use Rattle.std.specs.Prelude.{◌≡◌, ◌+◌, ◌≤◌, ◌∷◌, [], length, map, IfOk, vec_capacity};
ghost use Rattle.opfs_hall.specs.Seen.{AreNew, HallSeen, new_pass};
ghost use Rattle.opfs_runner.specs.Run.Begun.{AreBegun, MayBeginAll};

use opfs_agent::Agent;
use opfs_base::{Key, copy_key};
use opfs_hall::Pass;
use opfs_hist::Room;
use opfs_script::AgentScript;
use opfs_store::Store;
use std::alloc::{AllocError, Global};

/// What an agent begins with, so that it takes no memory then: its key, and the room for its end.
#[derive(Drop)]
pub(crate) struct Starter {
    key: Option<Key>,
    room: Room,
}

/// What the agents of scripts begin with, in their order.
pub(crate) fn starters_of(
    alloc: Global,
    scripts: &[AgentScript],
) -> Result<Vec<Starter>, AllocError>
    ensures { IfOk result (λ starters. map (λ s. s.key) starters.items ≡ map (λ s. s.key) scripts.now) }
{
    let mut starters = Vec::new(alloc);
    for script in scripts {
        let key = copy_key(alloc, script.key())?;
        let room = Room::make(alloc)?;
        starters.push(Starter { key, room })?;
    }
    Ok(starters)
}

/// Makes the agents of a hall, in the order of their numbers, of its passes but the owner's, which is left.
pub(crate) fn begin_all<S: Store>(
    alloc: Global,
    passes: &mut Vec<Pass<S>>,
    starters: &mut Vec<Starter>,
    agents: &mut Vec<Agent<S>>,
)
    requires may { MayBeginAll S.opened (map (λ s. s.key) starters.old.items) passes.old.items }
    requires count { length passes.old.items ≡ length starters.old.items + 1 }
    requires none { agents.old.items ≡ [] }
    requires room { length starters.old.items ≤ vec_capacity agents.old }
    ensures count { length agents.new.items ≡ length starters.old.items }
    ensures begun { (of : HallSeen S.Opening) → AreNew of (length starters.old.items + 1) passes.old.items → AreBegun S.opened of (map (λ s. s.key) starters.old.items) agents.new.items }
    ensures owner { (of : HallSeen S.Opening) → AreNew of (length starters.old.items + 1) passes.old.items → passes.new.items ≡ new_pass of 0 [] ∷ [] }
    ensures capacity { vec_capacity agents.old ≤ vec_capacity agents.new }
{
    let Some(Starter { key, room }) = starters.pop() else {
        return;
    };
    let pass = passes.pop().unwrap();
    begin_all(alloc, passes, starters, agents);
    agents.push_reserved(Agent::begin(alloc, pass, key, room));
}
