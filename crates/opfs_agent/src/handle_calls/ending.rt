//! How an access handle ends (File System: close; a discard is this project's own).

ghost use Rattle.std.specs.Prelude.{◌≡◌, true, IfOk, IfErr};
ghost use Rattle.opfs_hist.specs.declared.op.Op.TheVariants as op;
ghost use Rattle.opfs_hist.specs.declared.reply.Refusal.TheVariants as refusal;
ghost use Rattle.opfs_hist.specs.declared.reply.Reply.TheVariants as reply;
ghost use Rattle.opfs_machine.specs.Replies.{row_named};
ghost use Rattle.opfs_turns.specs.Calls.{HasRoom};
ghost use Rattle.opfs_turns.specs.Asking.Locals.{Local, Stopped, IsWhy, is_handle_op};
ghost use Rattle.opfs_turns.specs.Asking.Rows.{HasHandle, HasClosedHandle};
ghost use Rattle.opfs_agent.specs.HandleCalls.Ends.{GivesBack, IsClosed};

use crate::agent::Agent;
use crate::handle_calls::handle::{ClosedSync, SyncHandle};
use opfs_hall::Hall;
use opfs_hist::{Op, Refusal, Reply};
use opfs_store::Store;
use opfs_turns::Stop;
use std::sync::Wait;

impl<S: Store> Agent<S> {
    /// Closes an access handle: its file's bytes are stored for good (File System: close). The handle comes back open where
    /// that is refused.
    pub fn close_sync<R: Wait>(
        &mut self,
        rt: &R,
        court: &Hall<S>,
        mut handle: SyncHandle,
    ) -> Result<ClosedSync, (SyncHandle, Stop)>
        requires own { self.old.pass.hall ≡ court.now }
        requires room { HasRoom self.old }
        requires handle { HasHandle S.tells self.old handle }
        ensures closed { IfOk result (λ closed. IsClosed S.tells self.old self.new (op.SyncClose handle.row) handle.row closed.row) }
        ensures back { IfErr result (λ back. GivesBack S.tells self.old self.new (op.SyncClose handle.row) handle back.0 back.1) }
    {
        self.know_kept();
        let row = handle.row;
        let done = self.ask_row(rt, court, Op::SyncClose { row }, &mut handle.work);
        self.know_kept();
        match done {
            Ok(()) => Ok(shut(handle)),
            Err(stop) => Err((handle, stop)),
        }
    }

    /// Discards an access handle: its file has again the bytes that were last stored (this project's own). Takes no memory.
    pub fn discard_sync<R: Wait>(
        &mut self,
        rt: &R,
        court: &Hall<S>,
        handle: SyncHandle,
    ) -> ClosedSync
        requires own { self.old.pass.hall ≡ court.now }
        requires room { HasRoom self.old }
        requires handle { HasHandle S.tells self.old handle }
        ensures { IsClosed S.tells self.old self.new (op.Discard handle.row) handle.row result.row }
    {
        self.know_kept();
        let SyncHandle {
            row,
            file: _,
            mode: _,
            mut work,
            room,
        } = handle;
        let _acted = self.end_row(rt, court, room, Op::Discard { row }, &mut work);
        ClosedSync { row }
    }

    /// Keeps a call on a closed access handle, other than its close: it is refused as InvalidStateError.
    pub fn on_closed_sync(&mut self, handle: &ClosedSync, op: Op) -> Stop
        requires room { HasRoom self.old }
        requires handle { HasClosedHandle self.old handle.now.row }
        requires word { is_handle_op op ≡ true }
        requires row { row_named op ≡ handle.now.row }
        ensures stopped { Stopped S.tells self.old self.new op result }
        ensures why { IsWhy result refusal.InvalidStateError }
    {
        self.know_kept();
        let _ = handle;
        self.keep_refusal(op, Refusal::InvalidStateError)
    }

    /// Closes a closed access handle again, which does nothing.
    pub fn close_again(&mut self, handle: &ClosedSync) -> Result<(), Stop>
        requires room { HasRoom self.old }
        requires handle { HasClosedHandle self.old handle.now.row }
        ensures { Local S.tells self.old self.new (op.SyncClose handle.now.row) 0 (λ _ answered. answered ≡ reply.Done) result }
    {
        self.know_kept();
        let row = handle.row;
        self.keep_call(Op::SyncClose { row }, Reply::Done, 0)
    }
}

// What is left of an access handle.
fn shut(handle: SyncHandle) -> ClosedSync
    ensures { result.row ≡ handle.row }
{
    let SyncHandle {
        row,
        file: _,
        mode: _,
        work: _,
        room: _,
    } = handle;
    ClosedSync { row }
}
