//! The agent that a call is of, read by its number.

ghost use Rattle.std.specs.Prelude.{◌≡◌, ◌-◌, ◌<◌, length, suc};
ghost use Rattle.std.specs.Option.{option_copied};
ghost use Rattle.opfs_machine.specs.Agents.{agent_of, open_stream, open_handle, is_posted, party_of};
ghost use Rattle.opfs_machine.specs.Contents.{in_lengths};
ghost use Rattle.opfs_state.specs.Verdicts.Callers.{IsAgent};

use opfs_base::{Key, Text};
use opfs_machine::{HandleOutline, StreamOutline};
use opfs_state_rows::Standing;

/// The key of an agent's origin.
pub fn key(standing: &Standing, agent: u32) -> Option<&Key>
    requires { IsAgent standing.now.machine agent }
    ensures { option_copied result ≡ (agent_of standing.now.machine agent).key }
{
    standing.register().key(agent as usize - 1)
}

/// Whether an agent has the grant `persistent-storage`.
pub fn has_grant(standing: &Standing, agent: u32) -> bool
    requires { IsAgent standing.now.machine agent }
    ensures { result ≡ (agent_of standing.now.machine agent).grant }
{
    standing.register().has_grant(agent as usize - 1)
}

/// The open stream of a number.
pub fn open_stream(standing: &Standing, agent: u32, row: u32) -> Option<&StreamOutline>
    requires { IsAgent standing.now.machine agent }
    ensures { option_copied result ≡ open_stream in_lengths standing.now.machine agent row }
{
    if row == 0 {
        return None;
    }
    standing
        .register()
        .stream(agent as usize - 1, row as usize - 1)
}

/// The open access handle of a number.
pub fn open_handle(standing: &Standing, agent: u32, row: u32) -> Option<&HandleOutline>
    requires { IsAgent standing.now.machine agent }
    ensures { option_copied result ≡ open_handle in_lengths standing.now.machine agent row }
{
    if row == 0 {
        return None;
    }
    standing
        .register()
        .handle(agent as usize - 1, row as usize - 1)
}

/// Whether a tag was posted among those of an agent's party.
pub fn is_posted(standing: &Standing, agent: u32, tag: &Text) -> bool
    requires { IsAgent standing.now.machine agent }
    ensures { result ≡ is_posted standing.now.machine (party_of standing.now.machine agent) tag.now }
{
    standing
        .register()
        .is_posted(agent as usize - 1, tag.as_bytes())
}
