//! How an access handle's file is changed (File System: write, truncate, flush).

ghost use Rattle.std.specs.Prelude.{◌≡◌, length, OnErr};
ghost use Rattle.opfs_hist.specs.declared.op.Op.TheVariants as op;
ghost use Rattle.opfs_hist.specs.declared.reply.Reply.TheVariants as reply;
ghost use Rattle.opfs_store.specs.Acts.Acting.{IsSameCopy};
ghost use Rattle.opfs_store.specs.Acts.Asking.{IsSmall, IsSmallData, IsSmallPlace};
ghost use Rattle.opfs_turns.specs.Calls.{HasRoom};
ghost use Rattle.opfs_turns.specs.Asking.Answers.{Shared};
ghost use Rattle.opfs_turns.specs.Asking.Rows.{HasHandle};

use crate::agent::Agent;
use crate::handle_calls::handle::SyncHandle;
use opfs_base::Data;
use opfs_hall::Hall;
use opfs_hist::Op;
use opfs_store::Store;
use opfs_turns::Stop;
use std::sync::Wait;

impl<S: Store> Agent<S> {
    /// Writes bytes at a position, or else at the cursor, and tells how many (File System: write).
    pub fn sync_write<R: Wait>(
        &mut self,
        rt: &R,
        court: &Hall<S>,
        handle: &mut SyncHandle,
        bytes: &Data,
        at: Option<u64>,
    ) -> Result<u64, Stop>
        requires own { self.old.pass.hall ≡ court.now }
        requires room { HasRoom self.old }
        requires handle { HasHandle S.tells self.old handle.old }
        requires small { IsSmallData bytes.now × IsSmallPlace at }
        ensures shared { Shared S.tells self.old self.new (op.SyncWrite handle.old.row bytes.now at) (λ count answered _. answered ≡ reply.Length count) result }
        ensures handle { HasHandle S.tells self.new handle.new }
        ensures same { (handle.new.row ≡ handle.old.row) × (handle.new.file ≡ handle.old.file) × (handle.new.mode ≡ handle.old.mode) }
        ensures err { OnErr result (IsSameCopy handle.old.work handle.new.work) }
    {
        self.know_kept();
        let Ok(bytes) = bytes.share() else {
            return Err(Stop::NoMemory);
        };
        let op = Op::SyncWrite {
            row: handle.row,
            bytes,
            at,
        };
        let done = self.ask_length(rt, court, op, &mut handle.work);
        self.know_kept();
        done
    }

    /// Cuts or extends the bytes to a size (File System: truncate).
    pub fn sync_truncate<R: Wait>(
        &mut self,
        rt: &R,
        court: &Hall<S>,
        handle: &mut SyncHandle,
        size: u64,
    ) -> Result<(), Stop>
        requires own { self.old.pass.hall ≡ court.now }
        requires room { HasRoom self.old }
        requires handle { HasHandle S.tells self.old handle.old }
        requires small { IsSmall size }
        ensures shared { Shared S.tells self.old self.new (op.SyncTruncate handle.old.row size) (λ _ answered _. answered ≡ reply.Done) result }
        ensures handle { HasHandle S.tells self.new handle.new }
        ensures same { (handle.new.row ≡ handle.old.row) × (handle.new.file ≡ handle.old.file) × (handle.new.mode ≡ handle.old.mode) }
        ensures err { OnErr result (IsSameCopy handle.old.work handle.new.work) }
    {
        self.know_kept();
        let op = Op::SyncTruncate {
            row: handle.row,
            size,
        };
        let done = self.ask_row(rt, court, op, &mut handle.work);
        self.know_kept();
        done
    }

    /// Stores the bytes for good (File System: flush).
    pub fn sync_flush<R: Wait>(
        &mut self,
        rt: &R,
        court: &Hall<S>,
        handle: &mut SyncHandle,
    ) -> Result<(), Stop>
        requires own { self.old.pass.hall ≡ court.now }
        requires room { HasRoom self.old }
        requires handle { HasHandle S.tells self.old handle.old }
        ensures shared { Shared S.tells self.old self.new (op.SyncFlush handle.old.row) (λ _ answered _. answered ≡ reply.Done) result }
        ensures handle { HasHandle S.tells self.new handle.new }
        ensures same { (handle.new.row ≡ handle.old.row) × (handle.new.file ≡ handle.old.file) × (handle.new.mode ≡ handle.old.mode) }
        ensures err { OnErr result (IsSameCopy handle.old.work handle.new.work) }
    {
        self.know_kept();
        let op = Op::SyncFlush { row: handle.row };
        let done = self.ask_row(rt, court, op, &mut handle.work);
        self.know_kept();
        done
    }
}
