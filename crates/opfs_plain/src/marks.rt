//! What calls change of agents, tags and bucket modes.

ghost use Rattle.std.specs.Prelude.{◌≡◌, ◌++◌, ◌∷◌, [], None, false, OnOk};
ghost use Rattle.opfs_machine.specs.Agents.{agent_of, with_agent, party_of};
ghost use Rattle.opfs_machine.specs.Effects.{persists, with_waiting};
ghost use Rattle.opfs_rulings.specs.Known.{IsAgent};

use opfs_base::{Bytes, Text, unit_of};
use opfs_machine::Posted;
use opfs_rulings::{Board, agent, party_of};
use std::alloc::{AllocError, Global};

/// post.
pub fn post(alloc: Global, state: &mut Board, number: u32, tag: &Text) -> Result<(), AllocError>
    requires { IsAgent state.old number }
    ensures { OnOk result (state.new ≡ record state.old { posted = state.old.posted ++ record { party = party_of state.old number; tag = tag.now } ∷ [] }) }
{
    let party = party_of(alloc, state, number)?;
    let tag = Bytes::copy_of(alloc, tag.as_bytes())?;
    state.post(Posted { party, tag })?;
    Ok(())
}

/// persist: with the grant, the unit is persistent.
pub fn persist(
    alloc: Global,
    state: &mut Board,
    number: u32,
    bucket: &Text,
) -> Result<(), AllocError>
    requires { IsAgent state.old number }
    ensures { OnOk result (state.new ≡ persists state.old bucket.now (agent_of state.old number).grant (agent_of state.old number).key) }
{
    let agent = agent(state, number);
    let Some(origin) = &agent.key else {
        return Ok(());
    };
    if !agent.grant {
        return Ok(());
    }
    let unit = unit_of(alloc, origin, bucket.as_str())?;
    state.persist(unit)?;
    Ok(())
}
