//! How a stream is opened.

ghost use Rattle.std.specs.Prelude.{◌≡◌};
ghost use Rattle.opfs_hist.specs.declared.op.Op.TheVariants as op;
ghost use Rattle.opfs_hist.specs.declared.reply.Reply.TheVariants as reply;
ghost use Rattle.opfs_turns.specs.Calls.{HasRoom};
ghost use Rattle.opfs_turns.specs.Asking.Answers.{Shared, IsOwn};
ghost use Rattle.opfs_turns.specs.Asking.Rows.{HasStream};

use crate::agent::Agent;
use crate::stream_calls::stream::Writable;
use opfs_base::Locator;
use opfs_hall::Hall;
use opfs_hist::{Op, Room};
use opfs_store::Store;
use opfs_turns::Stop;
use opfs_work::Work;
use std::sync::Wait;

impl<S: Store> Agent<S> {
    /// Opens a stream on a file, with the file's bytes where `keep` says so (File System: createWritable).
    pub fn create_writable<R: Wait>(
        &mut self,
        rt: &R,
        court: &Hall<S>,
        file: &Locator,
        keep: bool,
    ) -> Result<Writable, Stop>
        requires own { self.old.pass.hall ≡ court.now }
        requires room { HasRoom self.old }
        requires file { IsOwn self.old file.now }
        ensures { Shared S.tells self.old self.new (op.CreateWritable file.now keep) (λ stream answered _. (stream.row ≡ self.new.rows) × (stream.file ≡ file.now) × (answered ≡ reply.Done) × HasStream S.tells self.new stream) result }
    {
        self.know_kept();
        let Ok(asked) = file.copy(self.alloc) else {
            return Err(Stop::NoMemory);
        };
        let Ok(file) = file.copy(self.alloc) else {
            return Err(Stop::NoMemory);
        };
        let Ok(room) = Room::make(self.alloc) else {
            return Err(Stop::NoMemory);
        };
        let mut work = Work::fresh(self.alloc);
        let op = Op::CreateWritable { file: asked, keep };
        self.ask_row(rt, court, op, &mut work)?;
        self.know_kept();
        let row = self.rows();
        Ok(Writable {
            row,
            file,
            work,
            room,
        })
    }
}
