//! Calls that are lent an open stream.

ghost use Rattle.std.specs.Prelude.{◌≡◌};
ghost use Rattle.opfs_hist.specs.declared.op.Op.TheVariants as op;
ghost use Rattle.opfs_store.specs.Acts.Asking.{IsSmall, IsSmallData, IsSmallPlace, HasSmallNumbers};
ghost use Rattle.opfs_turns.specs.Calls.{HasRoom};
ghost use Rattle.opfs_turns.specs.Asking.Rows.{HasStream};
ghost use Rattle.opfs_runner.specs.RunLaws.Kinds as rows;
ghost use Rattle.opfs_runner.specs.AgentRows.Called.{Calls};
ghost use Rattle.opfs_runner.specs.AgentRows.Tables.{IsLent, row_lent};

use opfs_agent::{Agent, Stop, Writable};
use opfs_base::Data;
use opfs_hall::Hall;
use opfs_hist::{Op, Reply};
use opfs_store::Store;
use std::sync::Wait;

// A write: with no turn where the stream has what it needs.
fn write<S: Store, R: Wait>(
    rt: &R,
    court: &Hall<S>,
    agent: &mut Agent<S>,
    stream: &mut Writable,
    bytes: &Data,
    position: Option<u64>,
) -> Result<Reply, Stop>
    requires own { agent.old.pass.hall ≡ court.now }
    requires room { HasRoom agent.old }
    requires stream { HasStream S.tells agent.old stream.old }
    requires small { IsSmallData bytes.now × IsSmallPlace position }
    ensures called { Calls S.tells agent.old agent.new (op.Write stream.old.row bytes.now position) result }
    ensures stream { HasStream S.tells agent.new stream.new }
    ensures same { stream.new.row ≡ stream.old.row }
{
    if stream.fits(position, bytes.len()) {
        agent.write_within(stream, bytes, position)?;
        return Ok(Reply::Done);
    }
    agent.write_growing(rt, court, stream, bytes, position)?;
    Ok(Reply::Done)
}

// A new size: with no turn where it fits.
fn truncate<S: Store, R: Wait>(
    rt: &R,
    court: &Hall<S>,
    agent: &mut Agent<S>,
    stream: &mut Writable,
    size: u64,
) -> Result<Reply, Stop>
    requires own { agent.old.pass.hall ≡ court.now }
    requires room { HasRoom agent.old }
    requires stream { HasStream S.tells agent.old stream.old }
    requires small { IsSmall size }
    ensures called { Calls S.tells agent.old agent.new (op.Truncate stream.old.row size) result }
    ensures stream { HasStream S.tells agent.new stream.new }
    ensures same { stream.new.row ≡ stream.old.row }
{
    if stream.fits_size(size) {
        agent.truncate_within(stream, size)?;
        return Ok(Reply::Done);
    }
    agent.truncate_growing(rt, court, stream, size)?;
    Ok(Reply::Done)
}

// The offset is set.
fn seek<S: Store>(agent: &mut Agent<S>, stream: &mut Writable, position: u64) -> Result<Reply, Stop>
    requires room { HasRoom agent.old }
    requires stream { HasStream S.tells agent.old stream.old }
    ensures called { Calls S.tells agent.old agent.new (op.Seek stream.old.row position) result }
    ensures stream { HasStream S.tells agent.new stream.new }
    ensures same { stream.new.row ≡ stream.old.row }
{
    agent.seek(stream, position)?;
    Ok(Reply::Done)
}

/// Makes a call that is lent an open stream.
#[tactic(auto, unfolding(opfs_store::specs::Acts::Asking::HasSmallNumbers))]
pub fn on_stream<S: Store, R: Wait>(
    rt: &R,
    court: &Hall<S>,
    agent: &mut Agent<S>,
    stream: &mut Writable,
    op: &Op,
) -> Result<Reply, Stop>
    requires own { agent.old.pass.hall ≡ court.now }
    requires room { HasRoom agent.old }
    requires stream { HasStream S.tells agent.old stream.old }
    requires lent { IsLent op.now rows.stream }
    requires row { row_lent op.now ≡ stream.old.row }
    requires numbers { HasSmallNumbers op.now }
    ensures called { Calls S.tells agent.old agent.new op.now result }
    ensures stream { HasStream S.tells agent.new stream.new }
    ensures same { stream.new.row ≡ stream.old.row }
{
    match op {
        Op::Write {
            bytes,
            position,
            ..
        } => write(rt, court, agent, stream, bytes, *position),
        Op::Truncate { size, .. } => truncate(rt, court, agent, stream, *size),
        Op::Seek { position, .. } => seek(agent, stream, *position),
        _ => unreachable!(),
    }
}
