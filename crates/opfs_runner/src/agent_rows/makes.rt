//! Calls that make a row.

ghost use Rattle.std.specs.Prelude.{◌≡◌, IfOk};
ghost use Rattle.opfs_hist.specs.declared.op.Op.TheVariants as op;
ghost use Rattle.opfs_turns.specs.Calls.{HasRoom};
ghost use Rattle.opfs_turns.specs.Asking.Answers.{IsOwn};
ghost use Rattle.opfs_runner.specs.RunLaws.Kinds.{Names, MayPerform};
ghost use Rattle.opfs_runner.specs.AgentRows.Called.{Calls};
ghost use Rattle.opfs_runner.specs.AgentRows.Tables.{kinds_of, kinds_told, use_of, HasTable};
ghost use Rattle.opfs_runner.specs.AgentRows.Making.{reply_in, IsMadeBy};
ghost use Rattle.opfs_runner.specs.declared.agent_rows.uses.Use.TheVariants as uses;

use crate::agent_rows::agent_row::AgentRow;
use opfs_agent::{Agent, Stop};
use opfs_base::Locator;
use opfs_hall::Hall;
use opfs_hist::{Mode, Op, Reply};
use opfs_store::Store;
use std::sync::Wait;

/// A row that a call made, with the call's answer.
pub struct Made {
    pub agent_row: AgentRow,
    pub reply: Reply,
}

// values.
fn values<S: Store>(agent: &mut Agent<S>, dir: &Locator) -> Result<Made, Stop>
    requires room { HasRoom agent.old }
    requires dir { IsOwn agent.old dir.now }
    ensures called { Calls S.tells agent.old agent.new (op.Values dir.now) (reply_in result) }
    ensures made { IfOk result (IsMadeBy S.tells agent.old agent.new (op.Values dir.now)) }
{
    agent.know_kept();
    let iter = agent.values(dir)?;
    agent.know_kept();
    Ok(Made {
        agent_row: AgentRow::Iterator(iter),
        reply: Reply::Done,
    })
}

// getFile.
fn get_file<S: Store, R: Wait>(
    rt: &R,
    court: &Hall<S>,
    agent: &mut Agent<S>,
    file: &Locator,
) -> Result<Made, Stop>
    requires own { agent.old.pass.hall ≡ court.now }
    requires room { HasRoom agent.old }
    requires file { IsOwn agent.old file.now }
    ensures called { Calls S.tells agent.old agent.new (op.GetFile file.now) (reply_in result) }
    ensures made { IfOk result (IsMadeBy S.tells agent.old agent.new (op.GetFile file.now)) }
{
    agent.know_kept();
    let snapshot = agent.get_file(rt, court, file)?;
    agent.know_kept();
    let reply = Reply::FileInfo(snapshot.size(), snapshot.stamp());
    Ok(Made {
        agent_row: AgentRow::Snapshot(snapshot),
        reply,
    })
}

// createWritable.
fn create_writable<S: Store, R: Wait>(
    rt: &R,
    court: &Hall<S>,
    agent: &mut Agent<S>,
    file: &Locator,
    keep: bool,
) -> Result<Made, Stop>
    requires own { agent.old.pass.hall ≡ court.now }
    requires room { HasRoom agent.old }
    requires file { IsOwn agent.old file.now }
    ensures called { Calls S.tells agent.old agent.new (op.CreateWritable file.now keep) (reply_in result) }
    ensures made { IfOk result (IsMadeBy S.tells agent.old agent.new (op.CreateWritable file.now keep)) }
{
    agent.know_kept();
    let stream = agent.create_writable(rt, court, file, keep)?;
    agent.know_kept();
    Ok(Made {
        agent_row: AgentRow::Stream(stream),
        reply: Reply::Done,
    })
}

// createSyncAccessHandle.
fn create_sync<S: Store, R: Wait>(
    rt: &R,
    court: &Hall<S>,
    agent: &mut Agent<S>,
    file: &Locator,
    mode: Mode,
) -> Result<Made, Stop>
    requires own { agent.old.pass.hall ≡ court.now }
    requires room { HasRoom agent.old }
    requires file { IsOwn agent.old file.now }
    ensures called { Calls S.tells agent.old agent.new (op.CreateSyncAccessHandle file.now mode) (reply_in result) }
    ensures made { IfOk result (IsMadeBy S.tells agent.old agent.new (op.CreateSyncAccessHandle file.now mode)) }
{
    agent.know_kept();
    let handle = agent.create_sync(rt, court, file, mode)?;
    agent.know_kept();
    Ok(Made {
        agent_row: AgentRow::Handle(handle),
        reply: Reply::Done,
    })
}

// Makes a call that makes a row.
fn make_agent_row<S: Store, R: Wait>(
    rt: &R,
    court: &Hall<S>,
    agent: &mut Agent<S>,
    agent_rows: &[AgentRow],
    op: &Op,
) -> Result<Made, Stop>
    requires own { agent.old.pass.hall ≡ court.now }
    requires room { HasRoom agent.old }
    requires makes { use_of op.now ≡ uses.Makes }
    requires may { Names agent.old.key (kinds_of agent_rows.now) op.now }
    ensures called { Calls S.tells agent.old agent.new op.now (reply_in result) }
    ensures made { IfOk result (IsMadeBy S.tells agent.old agent.new op.now) }
{
    agent.know_kept();
    let _ = agent_rows;
    match op {
        Op::Values { dir } => values(agent, dir),
        Op::GetFile { file } => get_file(rt, court, agent, file),
        Op::CreateWritable { file, keep } => create_writable(rt, court, agent, file, *keep),
        Op::CreateSyncAccessHandle { file, mode } => create_sync(rt, court, agent, file, *mode),
        _ => unreachable!(),
    }
}

/// Makes a call that makes a row, the last. The other rows stay.
pub fn make_row<S: Store, R: Wait>(
    rt: &R,
    court: &Hall<S>,
    agent: &mut Agent<S>,
    agent_rows: &mut Vec<AgentRow>,
    op: &Op,
) -> Result<Reply, Stop>
    requires own { agent.old.pass.hall ≡ court.now }
    requires room { HasRoom agent.old }
    requires table { HasTable S.tells agent.old agent_rows.old.items }
    requires makes { use_of op.now ≡ uses.Makes }
    requires may { MayPerform agent.old.key (kinds_of agent_rows.old.items) op.now }
    ensures called { Calls S.tells agent.old agent.new op.now result }
    ensures table { HasTable S.tells agent.new agent_rows.new.items }
    ensures kinds { kinds_of agent_rows.new.items ≡ kinds_told (kinds_of agent_rows.old.items) op.now result }
{
    agent.know_kept();
    if agent_rows.reserve(1).is_err() {
        return Err(Stop::NoMemory);
    }
    let done = make_agent_row(rt, court, agent, agent_rows, op);
    agent.know_kept();
    let Made { agent_row, reply } = done?;
    agent_rows.push_reserved(agent_row);
    Ok(reply)
}
