//! How an access handle is opened.

ghost use Rattle.std.specs.Prelude.{◌≡◌};
ghost use Rattle.opfs_hist.specs.declared.op.Op.TheVariants as op;
ghost use Rattle.opfs_hist.specs.declared.reply.Reply.TheVariants as reply;
ghost use Rattle.opfs_turns.specs.Calls.{HasRoom};
ghost use Rattle.opfs_turns.specs.Asking.Answers.{Shared, IsOwn};
ghost use Rattle.opfs_turns.specs.Asking.Rows.{HasHandle};

use crate::agent::Agent;
use crate::handle_calls::handle::SyncHandle;
use opfs_base::Locator;
use opfs_hall::Hall;
use opfs_hist::{Mode, Op, Room};
use opfs_store::Store;
use opfs_turns::Stop;
use opfs_work::Work;
use std::sync::Wait;

impl<S: Store> Agent<S> {
    /// Opens an access handle on a file (File System: createSyncAccessHandle; the read-only mode is this project's own).
    pub fn create_sync<R: Wait>(
        &mut self,
        rt: &R,
        court: &Hall<S>,
        file: &Locator,
        mode: Mode,
    ) -> Result<SyncHandle, Stop>
        requires own { self.old.pass.hall ≡ court.now }
        requires room { HasRoom self.old }
        requires file { IsOwn self.old file.now }
        ensures { Shared S.tells self.old self.new (op.CreateSyncAccessHandle file.now mode) (λ handle answered _. (handle.row ≡ self.new.rows) × (handle.file ≡ file.now) × (handle.mode ≡ mode) × (answered ≡ reply.Done) × HasHandle S.tells self.new handle) result }
    {
        self.know_kept();
        let Ok(asked) = file.copy(self.alloc) else {
            return Err(Stop::NoMemory);
        };
        let Ok(file) = file.copy(self.alloc) else {
            return Err(Stop::NoMemory);
        };
        let Ok(room) = Room::make(self.alloc) else {
            return Err(Stop::NoMemory);
        };
        let mut work = Work::fresh(self.alloc);
        let op = Op::CreateSyncAccessHandle { file: asked, mode };
        self.ask_row(rt, court, op, &mut work)?;
        self.know_kept();
        let row = self.rows();
        Ok(SyncHandle {
            row,
            file,
            mode,
            work,
            room,
        })
    }
}
