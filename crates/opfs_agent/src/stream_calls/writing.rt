//! How a stream's bytes are changed (File System: write a chunk; its seek and truncate).

ghost use Rattle.std.specs.Prelude.{◌≡◌, length, OnErr};
ghost use Rattle.opfs_hist.specs.declared.op.Op.TheVariants as op;
ghost use Rattle.opfs_hist.specs.declared.reply.Reply.TheVariants as reply;
ghost use Rattle.opfs_store.specs.Acts.Acting.{IsSameCopy};
ghost use Rattle.opfs_store.specs.Acts.Asking.{IsSmall, IsSmallData, IsSmallPlace};
ghost use Rattle.opfs_turns.specs.Calls.{HasRoom};
ghost use Rattle.opfs_turns.specs.Asking.Answers.{Shared};
ghost use Rattle.opfs_turns.specs.Asking.Locals.{Local};
ghost use Rattle.opfs_turns.specs.Asking.Rows.{HasStream};
ghost use Rattle.opfs_work.specs.Works.{place_in, IsNearWrite, IsNearSize};

use crate::agent::Agent;
use crate::stream_calls::stream::Writable;
use opfs_base::Data;
use opfs_hall::Hall;
use opfs_hist::{Op, Reply, Room};
use opfs_store::Store;
use opfs_turns::Stop;
use std::sync::Wait;

impl<S: Store> Agent<S> {
    /// Writes bytes that do not fit, at a position, or else at the offset, under the turn (File System: write a chunk).
    pub fn write_growing<R: Wait>(
        &mut self,
        rt: &R,
        court: &Hall<S>,
        stream: &mut Writable,
        bytes: &Data,
        position: Option<u64>,
    ) -> Result<(), Stop>
        requires own { self.old.pass.hall ≡ court.now }
        requires room { HasRoom self.old }
        requires stream { HasStream S.tells self.old stream.old }
        requires far { ¬ IsNearWrite stream.old.work (place_in stream.old.work position) (length bytes.now) }
        requires small { IsSmallData bytes.now × IsSmallPlace position }
        ensures shared { Shared S.tells self.old self.new (op.Write stream.old.row bytes.now position) (λ _ answered _. answered ≡ reply.Done) result }
        ensures stream { HasStream S.tells self.new stream.new }
        ensures same { (stream.new.row ≡ stream.old.row) × (stream.new.file ≡ stream.old.file) }
        ensures err { OnErr result (IsSameCopy stream.old.work stream.new.work) }
    {
        self.know_kept();
        let Ok(bytes) = bytes.share() else {
            return Err(Stop::NoMemory);
        };
        let op = Op::Write {
            row: stream.row,
            bytes,
            position,
        };
        let done = self.ask_row(rt, court, op, &mut stream.work);
        self.know_kept();
        done
    }

    /// Cuts or extends the bytes to a size that does not fit, under the turn (File System: truncate).
    pub fn truncate_growing<R: Wait>(
        &mut self,
        rt: &R,
        court: &Hall<S>,
        stream: &mut Writable,
        size: u64,
    ) -> Result<(), Stop>
        requires own { self.old.pass.hall ≡ court.now }
        requires room { HasRoom self.old }
        requires stream { HasStream S.tells self.old stream.old }
        requires far { ¬ IsNearSize stream.old.work size }
        requires small { IsSmall size }
        ensures shared { Shared S.tells self.old self.new (op.Truncate stream.old.row size) (λ _ answered _. answered ≡ reply.Done) result }
        ensures stream { HasStream S.tells self.new stream.new }
        ensures same { (stream.new.row ≡ stream.old.row) × (stream.new.file ≡ stream.old.file) }
        ensures err { OnErr result (IsSameCopy stream.old.work stream.new.work) }
    {
        self.know_kept();
        let op = Op::Truncate {
            row: stream.row,
            size,
        };
        let done = self.ask_row(rt, court, op, &mut stream.work);
        self.know_kept();
        done
    }

    /// Writes bytes that fit, with no turn (File System: write a chunk).
    pub fn write_within(
        &mut self,
        stream: &mut Writable,
        bytes: &Data,
        position: Option<u64>,
    ) -> Result<(), Stop>
        requires room { HasRoom self.old }
        requires stream { HasStream S.tells self.old stream.old }
        requires near { IsNearWrite stream.old.work (place_in stream.old.work position) (length bytes.now) }
        ensures local { Local S.tells self.old self.new (op.Write stream.old.row bytes.now position) 0 (λ _ answered. answered ≡ reply.Done) result }
        ensures stream { HasStream S.tells self.new stream.new }
        ensures same { (stream.new.row ≡ stream.old.row) × (stream.new.file ≡ stream.old.file) }
        ensures err { OnErr result (stream.new ≡ stream.old) }
    {
        self.know_kept();
        let Ok(asked) = bytes.share() else {
            return Err(Stop::NoMemory);
        };
        let Ok(room) = Room::make(self.alloc) else {
            return Err(Stop::NoMemory);
        };
        let op = Op::Write {
            row: stream.row,
            bytes: asked,
            position,
        };
        let _before = stream.work.pages();
        stream.work.write_within(bytes, position);
        let _after = stream.work.pages();
        self.keep(room, op, Reply::Done, 0);
        Ok(())
    }

    /// Cuts or extends the bytes to a size that fits, with no turn (File System: truncate).
    pub fn truncate_within(&mut self, stream: &mut Writable, size: u64) -> Result<(), Stop>
        requires room { HasRoom self.old }
        requires stream { HasStream S.tells self.old stream.old }
        requires near { IsNearSize stream.old.work size }
        ensures local { Local S.tells self.old self.new (op.Truncate stream.old.row size) 0 (λ _ answered. answered ≡ reply.Done) result }
        ensures stream { HasStream S.tells self.new stream.new }
        ensures same { (stream.new.row ≡ stream.old.row) × (stream.new.file ≡ stream.old.file) }
        ensures err { OnErr result (stream.new ≡ stream.old) }
    {
        self.know_kept();
        let Ok(room) = Room::make(self.alloc) else {
            return Err(Stop::NoMemory);
        };
        let op = Op::Truncate {
            row: stream.row,
            size,
        };
        let _before = stream.work.pages();
        stream.work.truncate_within(size);
        let _after = stream.work.pages();
        self.keep(room, op, Reply::Done, 0);
        Ok(())
    }

    /// Sets the offset, past the end too (File System: seek).
    pub fn seek(&mut self, stream: &mut Writable, position: u64) -> Result<(), Stop>
        requires room { HasRoom self.old }
        requires stream { HasStream S.tells self.old stream.old }
        ensures local { Local S.tells self.old self.new (op.Seek stream.old.row position) 0 (λ _ answered. answered ≡ reply.Done) result }
        ensures stream { HasStream S.tells self.new stream.new }
        ensures same { (stream.new.row ≡ stream.old.row) × (stream.new.file ≡ stream.old.file) }
        ensures err { OnErr result (stream.new ≡ stream.old) }
    {
        self.know_kept();
        let Ok(room) = Room::make(self.alloc) else {
            return Err(Stop::NoMemory);
        };
        let op = Op::Seek {
            row: stream.row,
            position,
        };
        stream.work.seek(position);
        self.keep(room, op, Reply::Done, 0);
        Ok(())
    }
}
