//! Calls that are lent a row.

ghost use Rattle.std.specs.Prelude.{◌≡◌};
ghost use Rattle.opfs_base.specs.declared.locator.Locator.{Locator};
ghost use Rattle.opfs_hist.specs.declared.op.Op.TheVariants as op;
ghost use Rattle.opfs_hist.specs.declared.reply.Reply.{Reply};
ghost use Rattle.opfs_store.specs.Acts.Asking.{HasSmallNumbers};
ghost use Rattle.opfs_turns.specs.Calls.{HasRoom};
ghost use Rattle.opfs_turns.specs.Asking.Rows.{HasSnapshot, HasIterator};
ghost use Rattle.opfs_agent.specs.Entries.{IsNextOf};
ghost use Rattle.opfs_runner.specs.RunLaws.Kinds as rows;
ghost use Rattle.opfs_runner.specs.RunLaws.Kinds.{MayPerform};
ghost use Rattle.opfs_runner.specs.AgentRows.Called.{Calls};
ghost use Rattle.opfs_runner.specs.AgentRows.Tables.{kind_of, kinds_of, kinds_told, use_of, HasAgentRow, HasTable, IsLent, row_lent};
ghost use Rattle.opfs_runner.specs.declared.agent_rows.uses.Use.TheVariants as uses;

use crate::agent_rows::agent_row::AgentRow;
use crate::agent_rows::closed::{refuse_handle, refuse_stream};
use crate::agent_rows::handles::on_handle;
use crate::agent_rows::streams::on_stream;
use opfs_agent::{Agent, Iter, Snapshot, Stop};
use opfs_base::Locator;
use opfs_hall::Hall;
use opfs_hist::{Op, Reply};
use opfs_store::Store;
use std::sync::Wait;

// The reply of an iterator's next child, or of the end.
fn child_reply(child: Option<Locator>) -> Reply
    requires { (dir : Locator) × (answered : Reply) × IsNextOf dir child answered }
    ensures { (dir : Locator) (answered : Reply) → IsNextOf dir child answered → result ≡ answered }
{
    let Some(at) = child else {
        return Reply::Last;
    };
    let Locator { key: _, path, kind } = at;
    let mut names = path.into_vec();
    let Some(name) = names.pop() else {
        unreachable!();
    };
    Reply::Child(kind, name)
}

// An iterator's next child.
fn next<S: Store, R: Wait>(
    rt: &R,
    court: &Hall<S>,
    agent: &mut Agent<S>,
    iter: &mut Iter,
) -> Result<Reply, Stop>
    requires own { agent.old.pass.hall ≡ court.now }
    requires room { HasRoom agent.old }
    requires iter { HasIterator agent.old iter.old }
    ensures called { Calls S.tells agent.old agent.new (op.Next iter.old.row iter.old.dir) result }
    ensures iter { HasIterator agent.new iter.new }
    ensures same { (iter.new.row ≡ iter.old.row) × (iter.new.dir ≡ iter.old.dir) }
{
    let child = agent.next(rt, court, iter)?;
    Ok(child_reply(child))
}

// Makes a call that is lent an iterator.
fn on_iterator<S: Store, R: Wait>(
    rt: &R,
    court: &Hall<S>,
    agent: &mut Agent<S>,
    iter: &mut Iter,
    op: &Op,
) -> Result<Reply, Stop>
    requires own { agent.old.pass.hall ≡ court.now }
    requires room { HasRoom agent.old }
    requires iter { HasIterator agent.old iter.old }
    requires lent { IsLent op.now (rows.iterator iter.old.dir) }
    requires row { row_lent op.now ≡ iter.old.row }
    ensures called { Calls S.tells agent.old agent.new op.now result }
    ensures iter { HasIterator agent.new iter.new }
    ensures same { (iter.new.row ≡ iter.old.row) × (iter.new.dir ≡ iter.old.dir) }
{
    match op {
        Op::Next { .. } => next(rt, court, agent, iter),
        _ => unreachable!(),
    }
}

// A part of a snapshot's bytes.
fn slice<S: Store>(
    agent: &mut Agent<S>,
    snapshot: &Snapshot,
    at: u64,
    len: u64,
) -> Result<Reply, Stop>
    requires room { HasRoom agent.old }
    requires snapshot { HasSnapshot S.tells agent.old snapshot.now }
    ensures called { Calls S.tells agent.old agent.new (op.Slice snapshot.now.row at len) result }
    ensures snapshot { HasSnapshot S.tells agent.new snapshot.now }
{
    agent.know_kept();
    let done = agent.slice(snapshot, at, len);
    agent.know_kept();
    match done {
        Ok(bytes) => Ok(Reply::Read(bytes)),
        Err(stop) => Err(stop),
    }
}

// Makes a call that is lent a snapshot.
fn on_snapshot<S: Store>(agent: &mut Agent<S>, snapshot: &Snapshot, op: &Op) -> Result<Reply, Stop>
    requires room { HasRoom agent.old }
    requires snapshot { HasSnapshot S.tells agent.old snapshot.now }
    requires lent { IsLent op.now rows.snapshot }
    requires row { row_lent op.now ≡ snapshot.now.row }
    ensures called { Calls S.tells agent.old agent.new op.now result }
    ensures snapshot { HasSnapshot S.tells agent.new snapshot.now }
{
    match op {
        Op::Slice { at, len, .. } => slice(agent, snapshot, *at, *len),
        _ => unreachable!(),
    }
}

// Makes a call that is lent a row.
fn on_agent_row<S: Store, R: Wait>(
    rt: &R,
    court: &Hall<S>,
    agent: &mut Agent<S>,
    agent_row: &mut AgentRow,
    op: &Op,
) -> Result<Reply, Stop>
    requires own { agent.old.pass.hall ≡ court.now }
    requires room { HasRoom agent.old }
    requires agent_row { HasAgentRow S.tells agent.old (row_lent op.now) agent_row.old }
    requires lent { IsLent op.now (kind_of agent_row.old) }
    requires numbers { HasSmallNumbers op.now }
    ensures called { Calls S.tells agent.old agent.new op.now result }
    ensures agent_row { HasAgentRow S.tells agent.new (row_lent op.now) agent_row.new }
    ensures kind { kind_of agent_row.new ≡ kind_of agent_row.old }
{
    match agent_row {
        AgentRow::Stream(stream) => on_stream(rt, court, agent, stream, op),
        AgentRow::ClosedStream(closed) => refuse_stream(agent, closed, op),
        AgentRow::Handle(handle) => on_handle(rt, court, agent, handle, op),
        AgentRow::ClosedHandle(closed) => refuse_handle(agent, closed, op),
        AgentRow::Snapshot(snapshot) => on_snapshot(agent, snapshot, op),
        AgentRow::Iterator(iter) => on_iterator(rt, court, agent, iter, op),
        AgentRow::Gone | AgentRow::Taken => unreachable!(),
    }
}

/// Makes a call that is lent the row of a number. The other rows stay.
pub fn lend_row<S: Store, R: Wait>(
    rt: &R,
    court: &Hall<S>,
    agent: &mut Agent<S>,
    agent_rows: &mut Vec<AgentRow>,
    row: u32,
    op: &Op,
) -> Result<Reply, Stop>
    requires own { agent.old.pass.hall ≡ court.now }
    requires room { HasRoom agent.old }
    requires table { HasTable S.tells agent.old agent_rows.old.items }
    requires lends { use_of op.now ≡ uses.Lends row }
    requires may { MayPerform agent.old.key (kinds_of agent_rows.old.items) op.now }
    ensures called { Calls S.tells agent.old agent.new op.now result }
    ensures table { HasTable S.tells agent.new agent_rows.new.items }
    ensures kinds { kinds_of agent_rows.new.items ≡ kinds_told (kinds_of agent_rows.old.items) op.now result }
{
    agent.know_kept();
    let at = row as usize - 1;
    let done = on_agent_row(rt, court, agent, &mut agent_rows[at], op);
    agent.know_kept();
    done
}
