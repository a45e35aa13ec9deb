//! How a stream ends (File System: close, abort).

ghost use Rattle.std.specs.Prelude.{◌≡◌, true, IfOk, IfErr};
ghost use Rattle.opfs_hist.specs.declared.op.Op.TheVariants as op;
ghost use Rattle.opfs_hist.specs.declared.reply.Refusal.TheVariants as refusal;
ghost use Rattle.opfs_machine.specs.Replies.{row_named};
ghost use Rattle.opfs_turns.specs.Calls.{HasRoom};
ghost use Rattle.opfs_turns.specs.Asking.Locals.{Stopped, IsWhy, is_stream_op};
ghost use Rattle.opfs_turns.specs.Asking.Rows.{HasStream, HasClosedStream};
ghost use Rattle.opfs_agent.specs.StreamCalls.Ends.{GivesBack, IsClosed};

use crate::agent::Agent;
use crate::stream_calls::stream::{ClosedStream, Writable};
use opfs_hall::Hall;
use opfs_hist::{Op, Refusal};
use opfs_store::Store;
use opfs_turns::Stop;
use std::sync::Wait;

impl<S: Store> Agent<S> {
    /// Closes a stream: its file has its bytes, for good (File System: close). The stream comes back open where that is
    /// refused.
    pub fn close_writable<R: Wait>(
        &mut self,
        rt: &R,
        court: &Hall<S>,
        mut stream: Writable,
    ) -> Result<ClosedStream, (Writable, Stop)>
        requires own { self.old.pass.hall ≡ court.now }
        requires room { HasRoom self.old }
        requires stream { HasStream S.tells self.old stream }
        ensures closed { IfOk result (λ closed. IsClosed S.tells self.old self.new (op.Close stream.row) stream.row closed.row) }
        ensures back { IfErr result (λ back. GivesBack S.tells self.old self.new (op.Close stream.row) stream back.0 back.1) }
    {
        self.know_kept();
        let row = stream.row;
        let done = self.ask_row(rt, court, Op::Close { row }, &mut stream.work);
        self.know_kept();
        match done {
            Ok(()) => Ok(shut(stream)),
            Err(stop) => Err((stream, stop)),
        }
    }

    /// Aborts a stream: its file is as it was (File System: abort). Takes no memory.
    pub fn abort<R: Wait>(&mut self, rt: &R, court: &Hall<S>, stream: Writable) -> ClosedStream
        requires own { self.old.pass.hall ≡ court.now }
        requires room { HasRoom self.old }
        requires stream { HasStream S.tells self.old stream }
        ensures { IsClosed S.tells self.old self.new (op.Abort stream.row) stream.row result.row }
    {
        self.know_kept();
        let Writable {
            row,
            file: _,
            mut work,
            room,
        } = stream;
        let _acted = self.end_row(rt, court, room, Op::Abort { row }, &mut work);
        ClosedStream { row }
    }

    /// Keeps a call on a closed stream: it is refused as TypeError.
    pub fn on_closed_stream(&mut self, stream: &ClosedStream, op: Op) -> Stop
        requires room { HasRoom self.old }
        requires stream { HasClosedStream self.old stream.now.row }
        requires word { is_stream_op op ≡ true }
        requires row { row_named op ≡ stream.now.row }
        ensures stopped { Stopped S.tells self.old self.new op result }
        ensures why { IsWhy result refusal.TypeError }
    {
        self.know_kept();
        let _ = stream;
        self.keep_refusal(op, Refusal::TypeError)
    }
}

// What is left of a stream.
fn shut(stream: Writable) -> ClosedStream
    ensures { result.row ≡ stream.row }
{
    let Writable {
        row,
        file: _,
        work: _,
        room: _,
    } = stream;
    ClosedStream { row }
}
