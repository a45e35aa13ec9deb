//! How a tag stands for an agent.

ghost use Rattle.std.specs.Prelude.{◌≡◌};
ghost use Rattle.opfs_store.specs.Acts.Acting.{awaited};
ghost use Rattle.opfs_store.specs.Acts.Asking.{IsThere};
ghost use Rattle.opfs_desk.specs.Seen.{entries_of};
ghost use Rattle.opfs_machine.specs.Agents.{agent_of, waits_for};
ghost use Rattle.opfs_machine.specs.Histories.{state_after};

use crate::desk::Desk;
use opfs_laws::lengths::bridge::lengths_decide_each_ruling;
use opfs_outside::Disk;
use opfs_store::AwaitState;

impl<D: Disk> Desk<D> {
    /// How a tag stands for an agent (this project's own). Takes no memory.
    pub fn await_state(&self, agent: u32, tag: &str) -> AwaitState
        requires { IsThere (state_after self.now.fixed.opening (entries_of self.now)) agent }
        ensures { result ≡ awaited (state_after self.now.fixed.opening (entries_of self.now)) agent tag.now }
    {
        lengths_decide_each_ruling();
        let state = &self.parts.ledger.books.state;
        if state.is_posted(agent, tag.as_bytes()) {
            AwaitState::Posted
        } else if state.others_stuck(agent) {
            AwaitState::Stuck
        } else {
            AwaitState::Neither
        }
    }

    /// Whether an agent waits for a tag (this project's own). Takes no memory.
    pub fn waits_for(&self, agent: u32, tag: &str) -> bool
        requires { IsThere (state_after self.now.fixed.opening (entries_of self.now)) agent }
        ensures { result ≡ waits_for (agent_of (state_after self.now.fixed.opening (entries_of self.now)) agent).waits tag.now }
    {
        let state = &self.parts.ledger.books.state;
        state.waits_for(agent, tag.as_bytes())
    }
}
