//! The call that a step asks for.

ghost use Rattle.std.specs.Prelude.{◌≡◌};
ghost use Rattle.opfs_turns.specs.Calls.{HasRoom};
ghost use Rattle.opfs_runner.specs.RunLaws.Kinds.{MayPerform};
ghost use Rattle.opfs_runner.specs.AgentRows.Called.{Calls};
ghost use Rattle.opfs_runner.specs.AgentRows.Tables.{kinds_of, kinds_told, HasTable};

use crate::agent_rows::agent_row::AgentRow;
use crate::agent_rows::lends::lend_row;
use crate::agent_rows::makes::make_row;
use crate::agent_rows::plain::perform_plain;
use crate::agent_rows::spends::spend_row;
use crate::agent_rows::uses::{Use, use_of};
use opfs_agent::{Agent, Stop};
use opfs_hall::Hall;
use opfs_hist::{Op, Reply};
use opfs_store::Store;
use std::sync::Wait;

/// Makes the call that a step of a script asks for, with the agent's rows. It takes the near or the far call, by what an open
/// stream or access handle has. Where there is no memory it has no entry, but an await may have begun to wait.
pub fn perform<S: Store, R: Wait>(
    rt: &R,
    court: &Hall<S>,
    agent: &mut Agent<S>,
    agent_rows: &mut Vec<AgentRow>,
    op: &Op,
) -> Result<Reply, Stop>
    requires own { agent.old.pass.hall ≡ court.now }
    requires room { HasRoom agent.old }
    requires table { HasTable S.tells agent.old agent_rows.old.items }
    requires may { MayPerform agent.old.key (kinds_of agent_rows.old.items) op.now }
    ensures called { Calls S.tells agent.old agent.new op.now result }
    ensures table { HasTable S.tells agent.new agent_rows.new.items }
    ensures kinds { kinds_of agent_rows.new.items ≡ kinds_told (kinds_of agent_rows.old.items) op.now result }
{
    match use_of(op) {
        Use::Plain => perform_plain(rt, court, agent, agent_rows, op),
        Use::Makes => make_row(rt, court, agent, agent_rows, op),
        Use::Lends(row) => lend_row(rt, court, agent, agent_rows, row, op),
        Use::Spends(row) => spend_row(rt, court, agent, agent_rows, row, op),
    }
}
