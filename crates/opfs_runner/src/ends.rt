//! How an agent's rows end with its script.

ghost use Rattle.std.specs.Prelude.{◌≡◌, ◌+◌, ◌≤◌, ℕ, [], Bool, length, IsTrue};
ghost use Rattle.opfs_hist.specs.declared.op.Op.TheVariants as op;
ghost use Rattle.opfs_machine.specs.Histories.{may_enter};
ghost use Rattle.opfs_turns.specs.Agents.{state_of};
ghost use Rattle.opfs_turns.specs.Calls.{HasRoom};
ghost use Rattle.opfs_runner.specs.RunLaws.Kinds.{open_rows};
ghost use Rattle.opfs_script.specs.Scripts.{Asked};
ghost use Rattle.opfs_runner.specs.AgentRows.Tables.{kinds_of, HasAgentRow, HasTable};
ghost use Rattle.opfs_runner.specs.Ending.{Closes, IsEnded};
ghost use Rattle.opfs_runner.specs.Stepping.{own_entries};

use crate::agent_rows::AgentRow;
use opfs_agent::Agent;
use opfs_hall::Hall;
use opfs_store::Store;
use std::sync::Wait;

// Ends one row: a stream is aborted, and an access handle discarded.
fn end_agent_row<S: Store, R: Wait>(
    rt: &R,
    court: &Hall<S>,
    agent: &mut Agent<S>,
    agent_row: AgentRow,
)
    requires own { agent.old.pass.hall ≡ court.now }
    requires room { HasRoom agent.old }
    requires agent_row { (n : ℕ) × HasAgentRow S.tells agent.old n agent_row }
    ensures { IsEnded S.tells agent.old agent.new agent_row }
{
    match agent_row {
        AgentRow::Stream(stream) => {
            let _closed = agent.abort(rt, court, stream);
        }
        AgentRow::Handle(handle) => {
            let _closed = agent.discard_sync(rt, court, handle);
        }
        AgentRow::ClosedStream(_)
        | AgentRow::ClosedHandle(_)
        | AgentRow::Snapshot(_)
        | AgentRow::Gone
        | AgentRow::Iterator(_)
        | AgentRow::Taken => {}
    }
}

/// Ends all rows, in the order of their numbers. Then the agent may end. Takes no memory.
pub fn end_rows<S: Store, R: Wait>(
    rt: &R,
    court: &Hall<S>,
    agent: &mut Agent<S>,
    mut agent_rows: Vec<AgentRow>,
)
    requires own { agent.old.pass.hall ≡ court.now }
    requires table { HasTable S.tells agent.old agent_rows.items }
    requires few { agent.old.entries + length agent_rows.items ≤ 60000000 }
    ensures none { IsTrue (may_enter (state_of agent.new) agent.new.pass.agent op.End) }
    ensures room { HasRoom agent.new }
    ensures same { agent.new.pass ≡ record agent.old.pass { base = agent.new.pass.base } }
    ensures closes { (asked : Asked) (whole : Bool)
        → Closes asked whole (own_entries agent.old) agent.old.number (open_rows 1 (kinds_of agent_rows.items))
        → Closes asked whole (own_entries agent.new) agent.new.number [] }
{
    agent.know_kept();
    agent_rows.reverse();
    loop {
        let Some(agent_row) = agent_rows.pop() else {
            break;
        };
        end_agent_row(rt, court, agent, agent_row);
        agent.know_kept();
    }
    agent_rows.destroy_empty();
}
