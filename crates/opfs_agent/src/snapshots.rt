//! Snapshots of files (File System: getFile; slice with a place and a length is this project's own).

ghost use Rattle.std.specs.Prelude.{◌≡◌, length};
ghost use Rattle.opfs_hist.specs.declared.op.Op.TheVariants as op;
ghost use Rattle.opfs_hist.specs.declared.reply.Reply.TheVariants as reply;
ghost use Rattle.opfs_splice.specs.Splicing.{window};
ghost use Rattle.opfs_turns.specs.Calls.{HasRoom};
ghost use Rattle.opfs_turns.specs.Asking.Answers.{Shared, IsOwn};
ghost use Rattle.opfs_turns.specs.Asking.Locals.{Local};
ghost use Rattle.opfs_turns.specs.Asking.Rows.{HasSnapshot};
ghost use Rattle.opfs_agent.specs.Entries.{stamp_in};

use crate::agent::Agent;
use opfs_base::{Bytes, Locator};
use opfs_hall::Hall;
use opfs_hist::{Op, Reply};
use opfs_splice::window;
use opfs_store::{Acted, Gift, Store};
use opfs_turns::Stop;
use std::marker::Model;
use std::sync::Wait;

/// The bytes that a file had, with its time stamp in milliseconds.
#[derive(Drop)]
pub struct Snapshot {
    row: u32,
    bytes: Bytes,
    stamp: u64,
}

impl Model for Snapshot {
    ghost use Rattle.opfs_turns.specs.Asking.Rows.{SnapshotSeen};

    ghost Value = { SnapshotSeen };

    ghost view = { λ s. record { row = s.row; bytes = s.bytes; stamp = s.stamp } };
}

impl Snapshot {
    /// The number of its row.
    pub fn row(&self) -> u32
        ensures { result ≡ self.now.row }
    {
        self.row
    }

    /// How many bytes it has.
    pub fn size(&self) -> u64
        ensures { result ≡ length self.now.bytes }
    {
        self.bytes.len() as u64
    }

    /// The time stamp of its file, in milliseconds.
    pub fn stamp(&self) -> u64
        ensures { result ≡ self.now.stamp }
    {
        self.stamp
    }
}

// The time stamp that a reply tells; 0 where it tells none.
fn stamp_in(reply: &Reply) -> u64
    ensures { result ≡ stamp_in reply.now }
{
    match reply {
        Reply::FileInfo(_, stamp) => *stamp,
        _ => 0,
    }
}

impl<S: Store> Agent<S> {
    /// Takes a snapshot of a file (File System: getFile).
    #[tactic(auto, using(opfs_turns::proofs::asking::Shares::looked_none), unfolding(opfs_machine::specs::Histories::may_enter, opfs_store::specs::Acts::Asking::HasSmallNumbers))]
    pub fn get_file<R: Wait>(
        &mut self,
        rt: &R,
        court: &Hall<S>,
        file: &Locator,
    ) -> Result<Snapshot, Stop>
        requires own { self.old.pass.hall ≡ court.now }
        requires room { HasRoom self.old }
        requires file { IsOwn self.old file.now }
        ensures { Shared S.tells self.old self.new (op.GetFile file.now) (λ snapshot answered _. (snapshot.row ≡ self.new.rows) × (answered ≡ reply.FileInfo (length snapshot.bytes) snapshot.stamp) × HasSnapshot S.tells self.new snapshot) result }
    {
        self.know_kept();
        let Ok(asked) = file.copy(self.alloc) else {
            return Err(Stop::NoMemory);
        };
        let acted = self.ask(rt, court, Op::GetFile { file: asked })?;
        self.know_kept();
        let row = self.rows();
        let Acted { reply, gift, .. } = acted;
        let stamp = stamp_in(&reply);
        let Gift::Bytes(bytes) = gift else {
            unreachable!();
        };
        Ok(Snapshot { row, bytes, stamp })
    }

    /// Gives the bytes of a snapshot from a place on, at most so many.
    pub fn slice(&mut self, snapshot: &Snapshot, at: u64, len: u64) -> Result<Bytes, Stop>
        requires room { HasRoom self.old }
        requires snapshot { HasSnapshot S.tells self.old snapshot.now }
        ensures { Local S.tells self.old self.new (op.Slice snapshot.now.row at len) 0 (λ bytes answered. (bytes ≡ window snapshot.now.bytes at len) × (answered ≡ reply.Read bytes)) result }
    {
        self.know_kept();
        let Ok(bytes) = window(self.alloc, snapshot.bytes.as_slice(), at, len) else {
            return Err(Stop::NoMemory);
        };
        let Ok(told) = bytes.copy(self.alloc) else {
            return Err(Stop::NoMemory);
        };
        let op = Op::Slice {
            row: snapshot.row,
            at,
            len,
        };
        self.keep_call(op, Reply::Read(told), 0)?;
        Ok(bytes)
    }
}
