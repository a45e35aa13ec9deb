//! Calls that spend a row: they close a stream or an access handle.

ghost use Rattle.std.specs.Prelude.{◌≡◌, ◌<◌, length, slice_get, Some};
ghost use Rattle.std.specs.List.{slice_set};
ghost use Rattle.opfs_hist.specs.declared.op.Op.TheVariants as op;
ghost use Rattle.opfs_turns.specs.Calls.{HasRoom};
ghost use Rattle.opfs_turns.specs.Asking.Rows.{HasStream, HasHandle};
ghost use Rattle.opfs_runner.specs.RunLaws.Kinds as rows;
ghost use Rattle.opfs_runner.specs.RunLaws.Kinds.{MayPerform};
ghost use Rattle.opfs_runner.specs.AgentRows.Called.{Calls};
ghost use Rattle.opfs_runner.specs.AgentRows.Tables.{kind_of, kinds_of, kinds_told, use_of, HasAgentRow, HasTable, IsSpent, row_lent};
ghost use Rattle.opfs_runner.specs.AgentRows.Spending.{IsLeftAs};
ghost use Rattle.opfs_runner.specs.declared.agent_rows.agent_row.AgentRow.TheVariants as variant;
ghost use Rattle.opfs_runner.specs.declared.agent_rows.uses.Use.TheVariants as uses;

use crate::agent_rows::agent_row::AgentRow;
use crate::agent_rows::closed::{close_again, refuse_stream};
use opfs_agent::{Agent, Stop, SyncHandle, Writable};
use opfs_hall::Hall;
use opfs_hist::{Op, Reply};
use opfs_store::Store;
use std::mem::replace;
use std::sync::Wait;

/// What is left of a row that a call was to spend, with the call's answer.
pub struct Left {
    pub agent_row: AgentRow,
    pub answer: Result<Reply, Stop>,
}

// close of a stream, which comes back open where that is refused.
fn close_stream<S: Store, R: Wait>(
    rt: &R,
    court: &Hall<S>,
    agent: &mut Agent<S>,
    stream: Writable,
) -> Left
    requires own { agent.old.pass.hall ≡ court.now }
    requires room { HasRoom agent.old }
    requires stream { HasStream S.tells agent.old stream }
    ensures called { Calls S.tells agent.old agent.new (op.Close stream.row) result.answer }
    ensures left { IsLeftAs S.tells agent.new stream.row rows.stream result }
{
    match agent.close_writable(rt, court, stream) {
        Ok(closed) => Left {
            agent_row: AgentRow::ClosedStream(closed),
            answer: Ok(Reply::Done),
        },
        Err((stream, stop)) => Left {
            agent_row: AgentRow::Stream(stream),
            answer: Err(stop),
        },
    }
}

// A call that spends an open stream: its close, or else its abort.
fn spend_stream<S: Store, R: Wait>(
    rt: &R,
    court: &Hall<S>,
    agent: &mut Agent<S>,
    stream: Writable,
    op: &Op,
) -> Left
    requires own { agent.old.pass.hall ≡ court.now }
    requires room { HasRoom agent.old }
    requires stream { HasStream S.tells agent.old stream }
    requires spent { IsSpent op.now rows.stream }
    requires row { row_lent op.now ≡ stream.row }
    ensures called { Calls S.tells agent.old agent.new op.now result.answer }
    ensures left { IsLeftAs S.tells agent.new stream.row rows.stream result }
{
    if let Op::Close { .. } = op {
        return close_stream(rt, court, agent, stream);
    }
    let closed = agent.abort(rt, court, stream);
    Left {
        agent_row: AgentRow::ClosedStream(closed),
        answer: Ok(Reply::Done),
    }
}

// close of an access handle, which comes back open where that is refused.
fn close_handle<S: Store, R: Wait>(
    rt: &R,
    court: &Hall<S>,
    agent: &mut Agent<S>,
    handle: SyncHandle,
) -> Left
    requires own { agent.old.pass.hall ≡ court.now }
    requires room { HasRoom agent.old }
    requires handle { HasHandle S.tells agent.old handle }
    ensures called { Calls S.tells agent.old agent.new (op.SyncClose handle.row) result.answer }
    ensures left { IsLeftAs S.tells agent.new handle.row rows.handle result }
{
    match agent.close_sync(rt, court, handle) {
        Ok(closed) => Left {
            agent_row: AgentRow::ClosedHandle(closed),
            answer: Ok(Reply::Done),
        },
        Err((handle, stop)) => Left {
            agent_row: AgentRow::Handle(handle),
            answer: Err(stop),
        },
    }
}

// Makes a call that spends a row. A closed one stays.
fn spend_agent_row<S: Store, R: Wait>(
    rt: &R,
    court: &Hall<S>,
    agent: &mut Agent<S>,
    agent_row: AgentRow,
    op: &Op,
) -> Left
    requires own { agent.old.pass.hall ≡ court.now }
    requires room { HasRoom agent.old }
    requires agent_row { HasAgentRow S.tells agent.old (row_lent op.now) agent_row }
    requires spent { IsSpent op.now (kind_of agent_row) }
    ensures called { Calls S.tells agent.old agent.new op.now result.answer }
    ensures left { IsLeftAs S.tells agent.new (row_lent op.now) (kind_of agent_row) result }
{
    match agent_row {
        AgentRow::Stream(stream) => spend_stream(rt, court, agent, stream, op),
        AgentRow::Handle(handle) => close_handle(rt, court, agent, handle),
        AgentRow::ClosedStream(closed) => {
            let answer = refuse_stream(agent, &closed, op);
            Left {
                agent_row: AgentRow::ClosedStream(closed),
                answer,
            }
        }
        AgentRow::ClosedHandle(closed) => {
            let answer = close_again(agent, &closed);
            Left {
                agent_row: AgentRow::ClosedHandle(closed),
                answer,
            }
        }
        AgentRow::Snapshot(_) | AgentRow::Gone | AgentRow::Iterator(_) | AgentRow::Taken =>
            unreachable!(),
    }
}

// Puts a row back in its place.
fn put_back(agent_rows: &mut Vec<AgentRow>, at: usize, agent_row: AgentRow)
    requires there { at < length agent_rows.old.items }
    requires taken { slice_get agent_rows.old.items at ≡ Some variant.Taken }
    ensures { agent_rows.new.items ≡ slice_set agent_rows.old.items at agent_row }
{
    let before = replace(&mut agent_rows[at], agent_row);
    let AgentRow::Taken = before else {
        unreachable!();
    };
}

/// Makes a call that spends the row of a number. The other rows stay.
pub fn spend_row<S: Store, R: Wait>(
    rt: &R,
    court: &Hall<S>,
    agent: &mut Agent<S>,
    agent_rows: &mut Vec<AgentRow>,
    row: u32,
    op: &Op,
) -> Result<Reply, Stop>
    requires own { agent.old.pass.hall ≡ court.now }
    requires room { HasRoom agent.old }
    requires table { HasTable S.tells agent.old agent_rows.old.items }
    requires spends { use_of op.now ≡ uses.Spends row }
    requires may { MayPerform agent.old.key (kinds_of agent_rows.old.items) op.now }
    ensures called { Calls S.tells agent.old agent.new op.now result }
    ensures table { HasTable S.tells agent.new agent_rows.new.items }
    ensures kinds { kinds_of agent_rows.new.items ≡ kinds_told (kinds_of agent_rows.old.items) op.now result }
{
    agent.know_kept();
    let at = row as usize - 1;
    let agent_row = replace(&mut agent_rows[at], AgentRow::Taken);
    let Left { agent_row, answer } = spend_agent_row(rt, court, agent, agent_row, op);
    put_back(agent_rows, at, agent_row);
    agent.know_kept();
    answer
}
