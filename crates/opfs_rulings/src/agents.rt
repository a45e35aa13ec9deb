//! The agents and their own rows, read.

ghost use Rattle.std.specs.Prelude.{◌≡◌, IfOk, IsTrue};
ghost use Rattle.std.specs.Option.{option_copied};
ghost use Rattle.opfs_machine.specs.Agents.{agent_of, own_of, party_of};
ghost use Rattle.opfs_rulings.specs.Known.{IsAgent};

use crate::board::Board;
use opfs_base::{Key, SharedBytes, copy_key};
use opfs_machine::{Agent, Own, Party, State};
use std::alloc::{AllocError, Global};

/// Whether there is an agent of a number.
pub fn is_agent(state: &Board, number: u32) -> bool
    ensures { IsTrue result → IsAgent state.now number }
{
    number > 0 && number as usize <= state.held().agents.items.len()
}

/// The agent of a number.
pub fn agent(state: &Board, number: u32) -> &Agent<Own>
    requires { IsAgent state.now number }
    ensures { result.now ≡ agent_of state.now number }
{
    &state.held().agents.items[number as usize - 1]
}

/// The own row of a number.
pub fn own_row(state: &Board, number: u32, row: u32) -> Option<&Own>
    requires { IsAgent state.now number }
    ensures { option_copied result ≡ own_of (agent_of state.now number) row }
{
    if row == 0 {
        None
    } else {
        agent(state, number).own.items.get(row as usize - 1)
    }
}

/// The party of an agent.
pub fn party_of(alloc: Global, state: &Board, number: u32) -> Result<Party, AllocError>
    requires { IsAgent state.now number }
    ensures { IfOk result (λ party. party ≡ party_of state.now number) }
{
    match &agent(state, number).key {
        Some(key) => Ok(Party::Origin(key.copy(alloc)?)),
        None => Ok(Party::Alone(number)),
    }
}

/// The key of an agent's origin; None for an opaque one, and where there is no such agent.
pub fn key_of(
    alloc: Global,
    state: &State<SharedBytes, Own>,
    number: u32,
) -> Result<Option<Key>, AllocError>
    ensures { IfOk result (λ key. key ≡ (agent_of state.now number).key) }
{
    if number == 0 {
        return Ok(None);
    }
    match state.agents.items.get(number as usize - 1) {
        None => Ok(None),
        Some(agent) => copy_key(alloc, agent.key.as_ref()),
    }
}
