//! Calls that are lent an open access handle.

ghost use Rattle.std.specs.Prelude.{◌≡◌};
ghost use Rattle.opfs_hist.specs.declared.op.Op.TheVariants as op;
ghost use Rattle.opfs_store.specs.Acts.Asking.{IsSmall, IsSmallData, IsSmallPlace, HasSmallNumbers};
ghost use Rattle.opfs_turns.specs.Calls.{HasRoom};
ghost use Rattle.opfs_turns.specs.Asking.Rows.{HasHandle};
ghost use Rattle.opfs_runner.specs.RunLaws.Kinds as rows;
ghost use Rattle.opfs_runner.specs.AgentRows.Called.{Calls};
ghost use Rattle.opfs_runner.specs.AgentRows.Tables.{IsLent, row_lent};

use opfs_agent::{Agent, Stop, SyncHandle};
use opfs_base::Data;
use opfs_hall::Hall;
use opfs_hist::{Op, Reply};
use opfs_store::Store;
use std::sync::Wait;

// A read: with no turn where the handle has the bytes.
fn read<S: Store, R: Wait>(
    rt: &R,
    court: &Hall<S>,
    agent: &mut Agent<S>,
    handle: &mut SyncHandle,
    len: u64,
    at: Option<u64>,
) -> Result<Reply, Stop>
    requires own { agent.old.pass.hall ≡ court.now }
    requires room { HasRoom agent.old }
    requires handle { HasHandle S.tells agent.old handle.old }
    requires small { IsSmall len × IsSmallPlace at }
    ensures called { Calls S.tells agent.old agent.new (op.SyncRead handle.old.row len at) result }
    ensures handle { HasHandle S.tells agent.new handle.new }
    ensures same { handle.new.row ≡ handle.old.row }
{
    if handle.near(len, at) {
        let bytes = agent.sync_read(handle, len, at)?;
        return Ok(Reply::Read(bytes));
    }
    let bytes = agent.sync_read_far(rt, court, handle, len, at)?;
    Ok(Reply::Read(bytes))
}

// A write.
fn write<S: Store, R: Wait>(
    rt: &R,
    court: &Hall<S>,
    agent: &mut Agent<S>,
    handle: &mut SyncHandle,
    bytes: &Data,
    at: Option<u64>,
) -> Result<Reply, Stop>
    requires own { agent.old.pass.hall ≡ court.now }
    requires room { HasRoom agent.old }
    requires handle { HasHandle S.tells agent.old handle.old }
    requires small { IsSmallData bytes.now × IsSmallPlace at }
    ensures called { Calls S.tells agent.old agent.new (op.SyncWrite handle.old.row bytes.now at) result }
    ensures handle { HasHandle S.tells agent.new handle.new }
    ensures same { handle.new.row ≡ handle.old.row }
{
    let count = agent.sync_write(rt, court, handle, bytes, at)?;
    Ok(Reply::Length(count))
}

// A new size.
fn truncate<S: Store, R: Wait>(
    rt: &R,
    court: &Hall<S>,
    agent: &mut Agent<S>,
    handle: &mut SyncHandle,
    size: u64,
) -> Result<Reply, Stop>
    requires own { agent.old.pass.hall ≡ court.now }
    requires room { HasRoom agent.old }
    requires handle { HasHandle S.tells agent.old handle.old }
    requires small { IsSmall size }
    ensures called { Calls S.tells agent.old agent.new (op.SyncTruncate handle.old.row size) result }
    ensures handle { HasHandle S.tells agent.new handle.new }
    ensures same { handle.new.row ≡ handle.old.row }
{
    agent.sync_truncate(rt, court, handle, size)?;
    Ok(Reply::Done)
}

// How many bytes there are.
fn size<S: Store>(agent: &mut Agent<S>, handle: &SyncHandle) -> Result<Reply, Stop>
    requires room { HasRoom agent.old }
    requires handle { HasHandle S.tells agent.old handle.now }
    ensures called { Calls S.tells agent.old agent.new (op.SyncGetSize handle.now.row) result }
    ensures handle { HasHandle S.tells agent.new handle.now }
{
    let size = agent.sync_size(handle)?;
    Ok(Reply::Length(size))
}

// The bytes are stored for good.
fn flush<S: Store, R: Wait>(
    rt: &R,
    court: &Hall<S>,
    agent: &mut Agent<S>,
    handle: &mut SyncHandle,
) -> Result<Reply, Stop>
    requires own { agent.old.pass.hall ≡ court.now }
    requires room { HasRoom agent.old }
    requires handle { HasHandle S.tells agent.old handle.old }
    ensures called { Calls S.tells agent.old agent.new (op.SyncFlush handle.old.row) result }
    ensures handle { HasHandle S.tells agent.new handle.new }
    ensures same { handle.new.row ≡ handle.old.row }
{
    agent.sync_flush(rt, court, handle)?;
    Ok(Reply::Done)
}

/// Makes a call that is lent an open access handle.
#[tactic(auto, unfolding(opfs_store::specs::Acts::Asking::HasSmallNumbers))]
pub fn on_handle<S: Store, R: Wait>(
    rt: &R,
    court: &Hall<S>,
    agent: &mut Agent<S>,
    handle: &mut SyncHandle,
    op: &Op,
) -> Result<Reply, Stop>
    requires own { agent.old.pass.hall ≡ court.now }
    requires room { HasRoom agent.old }
    requires handle { HasHandle S.tells agent.old handle.old }
    requires lent { IsLent op.now rows.handle }
    requires row { row_lent op.now ≡ handle.old.row }
    requires numbers { HasSmallNumbers op.now }
    ensures called { Calls S.tells agent.old agent.new op.now result }
    ensures handle { HasHandle S.tells agent.new handle.new }
    ensures same { handle.new.row ≡ handle.old.row }
{
    match op {
        Op::SyncRead { len, at, .. } => read(rt, court, agent, handle, *len, *at),
        Op::SyncWrite { bytes, at, .. } => write(rt, court, agent, handle, bytes, *at),
        Op::SyncTruncate { size, .. } => truncate(rt, court, agent, handle, *size),
        Op::SyncGetSize { .. } => size(agent, handle),
        Op::SyncFlush { .. } => flush(rt, court, agent, handle),
        _ => unreachable!(),
    }
}
