//! How an access handle is read (File System: read, getSize).

ghost use Rattle.std.specs.Prelude.{◌≡◌, length, OnErr};
ghost use Rattle.opfs_hist.specs.declared.op.Op.TheVariants as op;
ghost use Rattle.opfs_hist.specs.declared.reply.Reply.TheVariants as reply;
ghost use Rattle.opfs_store.specs.Acts.Acting.{IsSameCopy};
ghost use Rattle.opfs_store.specs.Acts.Asking.{IsSmall, IsSmallPlace};
ghost use Rattle.opfs_turns.specs.Calls.{HasRoom};
ghost use Rattle.opfs_turns.specs.Asking.Answers.{Shared};
ghost use Rattle.opfs_turns.specs.Asking.Locals.{Local};
ghost use Rattle.opfs_turns.specs.Asking.Rows.{HasHandle};
ghost use Rattle.opfs_work.specs.Works.{place_in, IsNearRead};

use crate::agent::Agent;
use crate::handle_calls::handle::SyncHandle;
use opfs_base::Bytes;
use opfs_hall::Hall;
use opfs_hist::{Op, Reply, Room};
use opfs_store::Store;
use opfs_turns::Stop;
use std::sync::Wait;

impl<S: Store> Agent<S> {
    /// Reads bytes from a place, or else from the cursor, on, under the turn (File System: read). It serves also where the
    /// handle has the bytes.
    pub fn sync_read_far<R: Wait>(
        &mut self,
        rt: &R,
        court: &Hall<S>,
        handle: &mut SyncHandle,
        len: u64,
        at: Option<u64>,
    ) -> Result<Bytes, Stop>
        requires own { self.old.pass.hall ≡ court.now }
        requires room { HasRoom self.old }
        requires handle { HasHandle S.tells self.old handle.old }
        requires small { IsSmall len × IsSmallPlace at }
        ensures shared { Shared S.tells self.old self.new (op.SyncRead handle.old.row len at) (λ bytes answered _. answered ≡ reply.Read bytes) result }
        ensures handle { HasHandle S.tells self.new handle.new }
        ensures same { (handle.new.row ≡ handle.old.row) × (handle.new.file ≡ handle.old.file) × (handle.new.mode ≡ handle.old.mode) }
        ensures err { OnErr result (IsSameCopy handle.old.work handle.new.work) }
    {
        self.know_kept();
        let op = Op::SyncRead {
            row: handle.row,
            len,
            at,
        };
        let done = self.ask_bytes(rt, court, op, &mut handle.work);
        self.know_kept();
        done
    }

    /// Reads bytes that the handle has, with no turn (File System: read).
    pub fn sync_read(
        &mut self,
        handle: &mut SyncHandle,
        len: u64,
        at: Option<u64>,
    ) -> Result<Bytes, Stop>
        requires room { HasRoom self.old }
        requires handle { HasHandle S.tells self.old handle.old }
        requires near { IsNearRead handle.old.work (place_in handle.old.work at) len }
        ensures local { Local S.tells self.old self.new (op.SyncRead handle.old.row len at) 0 (λ bytes answered. answered ≡ reply.Read bytes) result }
        ensures handle { HasHandle S.tells self.new handle.new }
        ensures same { (handle.new.row ≡ handle.old.row) × (handle.new.file ≡ handle.old.file) × (handle.new.mode ≡ handle.old.mode) }
        ensures err { OnErr result (IsSameCopy handle.old.work handle.new.work) }
    {
        self.know_kept();
        let Ok(room) = Room::make(self.alloc) else {
            return Err(Stop::NoMemory);
        };
        let before = handle.work.position();
        let Ok(bytes) = handle.work.read(len, at) else {
            return Err(Stop::NoMemory);
        };
        let Ok(told) = bytes.copy(self.alloc) else {
            handle.work.seek(before);
            return Err(Stop::NoMemory);
        };
        let op = Op::SyncRead {
            row: handle.row,
            len,
            at,
        };
        self.keep(room, op, Reply::Read(told), 0);
        Ok(bytes)
    }

    /// How many bytes there are, with no turn (File System: getSize).
    pub fn sync_size(&mut self, handle: &SyncHandle) -> Result<u64, Stop>
        requires room { HasRoom self.old }
        requires handle { HasHandle S.tells self.old handle.now }
        ensures local { Local S.tells self.old self.new (op.SyncGetSize handle.now.row) 0 (λ size answered. (size ≡ handle.now.work.length) × (answered ≡ reply.Length size)) result }
        ensures handle { HasHandle S.tells self.new handle.now }
    {
        self.know_kept();
        let Ok(room) = Room::make(self.alloc) else {
            return Err(Stop::NoMemory);
        };
        let size = handle.work.size();
        let op = Op::SyncGetSize { row: handle.row };
        self.keep(room, op, Reply::Length(size), 0);
        Ok(size)
    }
}
