//! What an agent may do whose handles are closed.

ghost use Rattle.std.specs.Prelude.{IsTrue};
ghost use Rattle.opfs_hist.specs.declared.op.Op.TheVariants as op;
ghost use Rattle.opfs_machine.specs.Histories.{may_enter};
ghost use Rattle.opfs_sync_files.specs.Resting.{RestsBut};
ghost use Rattle.opfs_turns.specs.Agents.{state_of};

use opfs_agent::Agent;
use opfs_store::Store;

/// An agent of which no stream and no access handle is open may end.
pub fn a_resting_agent_may_end<S: Store>(agent: &Agent<S>)
    requires rests { RestsBut agent.now 0 }
    ensures { IsTrue (may_enter (state_of agent.now) agent.now.pass.agent op.End) }
{
    let _ = agent;
}
