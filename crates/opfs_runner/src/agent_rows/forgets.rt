//! A snapshot that no variable names any more.

ghost use Rattle.std.specs.Prelude.{◌≡◌, Some, IfSome};
ghost use Rattle.opfs_runner.specs.RunLaws.Kinds as rows;
ghost use Rattle.opfs_runner.specs.RunLaws.Kinds.{sort_at};
ghost use Rattle.opfs_runner.specs.RunLaws.Leaving.{kinds_without};
ghost use Rattle.opfs_runner.specs.AgentRows.Tables.{kinds_of, HasTable};

use crate::agent_rows::agent_row::AgentRow;
use opfs_agent::Agent;
use opfs_store::Store;
use std::mem::replace;

/// Lets go of the bytes of a snapshot, by the number of its row, where there is one to let go of. The row is still the
/// agent's.
pub fn forget<S: Store>(agent: &Agent<S>, agent_rows: &mut Vec<AgentRow>, row: Option<u32>)
    requires table { HasTable S.tells agent.now agent_rows.old.items }
    requires snapshot { IfSome row (λ n. sort_at (kinds_of agent_rows.old.items) n ≡ Some rows.snapshot) }
    ensures table { HasTable S.tells agent.now agent_rows.new.items }
    ensures kinds { kinds_of agent_rows.new.items ≡ kinds_without (kinds_of agent_rows.old.items) row }
{
    let _ = agent;
    let Some(row) = row else {
        return;
    };
    let at = row as usize - 1;
    let before = replace(&mut agent_rows[at], AgentRow::Gone);
    let AgentRow::Snapshot(_) = before else {
        unreachable!();
    };
}
