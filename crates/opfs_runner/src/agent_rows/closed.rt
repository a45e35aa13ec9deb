//! Calls on closed streams and access handles.

ghost use Rattle.std.specs.Prelude.{◌≡◌, true, IfOk};
ghost use Rattle.opfs_turns.specs.Calls.{HasRoom};
ghost use Rattle.opfs_turns.specs.Asking.Locals.{is_stream_op, is_handle_op};
ghost use Rattle.opfs_turns.specs.Asking.Rows.{HasClosedStream, HasClosedHandle};
ghost use Rattle.opfs_hist.specs.declared.op.Op.TheVariants as op;
ghost use Rattle.opfs_hist.specs.declared.reply.Reply.TheVariants as reply;
ghost use Rattle.opfs_runner.specs.AgentRows.Called.{Calls};
ghost use Rattle.opfs_runner.specs.AgentRows.Tables.{row_lent};

use opfs_agent::{Agent, ClosedStream, ClosedSync, Stop};
use opfs_hist::{Op, Reply};
use opfs_store::Store;
use std::alloc::AllocError;

// A call on a stream once more, which shares its bytes. No other call is copied.
fn stream_op(op: &Op) -> Result<Op, AllocError>
    requires { is_stream_op op.now ≡ true }
    ensures { IfOk result (λ copy. copy ≡ op.now) }
{
    match op {
        Op::Write {
            row,
            bytes,
            position,
        } => {
            let bytes = bytes.share()?;
            Ok(Op::Write {
                row: *row,
                bytes,
                position: *position,
            })
        }
        Op::Seek { row, position } => Ok(Op::Seek {
            row: *row,
            position: *position,
        }),
        Op::Truncate { row, size } => Ok(Op::Truncate {
            row: *row,
            size: *size,
        }),
        Op::Close { row } => Ok(Op::Close { row: *row }),
        Op::Abort { row } => Ok(Op::Abort { row: *row }),
        _ => unreachable!(),
    }
}

// The same of a call on an access handle.
fn handle_op(op: &Op) -> Result<Op, AllocError>
    requires { is_handle_op op.now ≡ true }
    ensures { IfOk result (λ copy. copy ≡ op.now) }
{
    match op {
        Op::SyncRead { row, len, at } => Ok(Op::SyncRead {
            row: *row,
            len: *len,
            at: *at,
        }),
        Op::SyncWrite { row, bytes, at } => {
            let bytes = bytes.share()?;
            Ok(Op::SyncWrite {
                row: *row,
                bytes,
                at: *at,
            })
        }
        Op::SyncTruncate { row, size } => Ok(Op::SyncTruncate {
            row: *row,
            size: *size,
        }),
        Op::SyncGetSize { row } => Ok(Op::SyncGetSize { row: *row }),
        Op::SyncFlush { row } => Ok(Op::SyncFlush { row: *row }),
        _ => unreachable!(),
    }
}

/// A call on a closed stream, which stays closed.
pub fn refuse_stream<S: Store>(
    agent: &mut Agent<S>,
    closed: &ClosedStream,
    op: &Op,
) -> Result<Reply, Stop>
    requires room { HasRoom agent.old }
    requires closed { HasClosedStream agent.old closed.now.row }
    requires word { is_stream_op op.now ≡ true }
    requires row { row_lent op.now ≡ closed.now.row }
    ensures called { Calls S.tells agent.old agent.new op.now result }
    ensures closed { HasClosedStream agent.new closed.now.row }
    ensures refused { IfOk result (λ _. ⊥) }
{
    agent.know_kept();
    let Ok(op) = stream_op(op) else {
        return Err(Stop::NoMemory);
    };
    let stop = agent.on_closed_stream(closed, op);
    agent.know_kept();
    Err(stop)
}

/// A call on a closed access handle, which stays closed.
pub fn refuse_handle<S: Store>(
    agent: &mut Agent<S>,
    closed: &ClosedSync,
    op: &Op,
) -> Result<Reply, Stop>
    requires room { HasRoom agent.old }
    requires closed { HasClosedHandle agent.old closed.now.row }
    requires word { is_handle_op op.now ≡ true }
    requires row { row_lent op.now ≡ closed.now.row }
    ensures called { Calls S.tells agent.old agent.new op.now result }
    ensures closed { HasClosedHandle agent.new closed.now.row }
{
    agent.know_kept();
    let Ok(op) = handle_op(op) else {
        return Err(Stop::NoMemory);
    };
    let stop = agent.on_closed_sync(closed, op);
    agent.know_kept();
    Err(stop)
}

/// A close of a closed access handle, which does nothing.
pub fn close_again<S: Store>(agent: &mut Agent<S>, closed: &ClosedSync) -> Result<Reply, Stop>
    requires room { HasRoom agent.old }
    requires closed { HasClosedHandle agent.old closed.now.row }
    ensures called { Calls S.tells agent.old agent.new (op.SyncClose closed.now.row) result }
    ensures closed { HasClosedHandle agent.new closed.now.row }
    ensures done { IfOk result (λ answered. answered ≡ reply.Done) }
{
    agent.know_kept();
    let done = agent.close_again(closed);
    agent.know_kept();
    match done {
        Ok(()) => Ok(Reply::Done),
        Err(stop) => Err(stop),
    }
}
