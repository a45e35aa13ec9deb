//! How a file is read when it is opened.

ghost use Rattle.std.specs.Prelude.{◌≡◌, ◌+◌, ◌<◌, ◌≤◌, [], false, length, IfErr, IfOk, OnOk};
ghost use Rattle.opfs_turns.specs.Asking.Rows.{HasHandle};
ghost use Rattle.opfs_base.specs.Texts.{Text};
ghost use Rattle.opfs_kv.specs.Records.Indexes.{IsFitting};
ghost use Rattle.opfs_kv.specs.Records.Scans.{HasRead, IsPiece};
ghost use Rattle.opfs_sync_files.specs.Files.{file_bytes};
ghost use Rattle.opfs_turns.specs.Calls.{HasRoom};
ghost use Rattle.opfs_kv.specs.Calls.{HasOpenCause};
ghost use Rattle.opfs_kv.specs.Keeping.{Keeps};
ghost use Rattle.opfs_kv.specs.Opening.{HasEnded, HasScanCause, IsScanned, OnlyReads, stop_of};
ghost use Rattle.opfs_kv.specs.Seen.{HasPlaces};

use crate::notes::Notes;
use crate::records::{Index, Miss, scan};
use crate::stop::KvStop;
use crate::tidying::Tidying;
use opfs_agent::Agent;
use opfs_agent::handle_calls::SyncHandle;
use opfs_hall::Hall;
use opfs_store::Store;
use opfs_sync_files::{read, size};
use opfs_turns::Stop;
use std::alloc::Global;
use std::sync::Wait;

// Why a piece was not read.
fn stop_of(miss: Miss) -> KvStop
    ensures { result ≡ stop_of miss }
{
    match miss {
        Miss::Memory => KvStop::Agent(Stop::NoMemory),
        Miss::Bad(place) => KvStop::BadFile(place as u64),
    }
}

// Reads the records of a piece.
fn scanned(
    alloc: Global,
    index: &mut Index,
    piece: &[u8],
    at: u32,
    size: u32,
) -> Result<u32, KvStop>
    requires small { size ≤ 16777216 }
    requires inside { at + length piece.now ≤ size }
    requires fitting { IsFitting at index.old }
    ensures next { IfOk result (λ next. (at ≤ next) × (next ≤ size) × IsFitting next index.new) }
    ensures far { IfOk result (λ next. next < size → at + length piece.now < next + 261) }
    ensures ends { IfOk result (λ next. at + length piece.now ≡ size → next ≡ size) }
    ensures read { IfOk result (λ next. (whole : Text) → IsPiece whole size at piece.now → HasRead whole at index.old next index.new) }
    ensures bad { IfErr result (λ why. HasEnded size at piece.now index.old why) }
{
    match scan(alloc, index, piece, at, size) {
        Ok(next) => Ok(next),
        Err(miss) => Err(stop_of(miss)),
    }
}

// Reads a piece of a file of so many bytes, from a place on where a record begins, and gives the place up to which all was read.
fn scan_piece<S: Store, R: Wait>(
    rt: &R,
    court: &Hall<S>,
    agent: &mut Agent<S>,
    handle: &mut SyncHandle,
    index: &mut Index,
    at: u32,
    size: u32,
) -> Result<u32, KvStop>
    requires own { agent.old.pass.hall ≡ court.now }
    requires room { HasRoom agent.old }
    requires handle { HasHandle S.tells agent.old handle.old }
    requires size { length (file_bytes agent.old handle.old) ≡ size }
    requires small { size ≤ 16777216 }
    requires inside { at < size }
    requires fitting { IsFitting at index.old }
    ensures reads { OnlyReads S.tells agent.old agent.new handle.old handle.new 1 }
    ensures scanned { IfOk result (λ next. IsScanned S.tells (file_bytes agent.old handle.old) at index.old next size index.new) }
    ensures far { IfOk result (λ next. next < size → at + 65000 ≤ next) }
    ensures cause { IfErr result (HasScanCause S.tells agent.old agent.new handle.old.row (file_bytes agent.old handle.old) at index.old) }
{
    let alloc = agent.alloc();
    match read(rt, court, agent, handle, 65_536, at as u64) {
        Ok(piece) => scanned(alloc, index, piece.as_slice(), at, size),
        Err(stop) => Err(KvStop::Agent(stop)),
    }
}

// Reads a whole file of so many bytes, piece by piece.
fn scan_all<S: Store, R: Wait>(
    rt: &R,
    court: &Hall<S>,
    agent: &mut Agent<S>,
    handle: &mut SyncHandle,
    index: &mut Index,
    size: u32,
) -> Result<(), KvStop>
    requires own { agent.old.pass.hall ≡ court.now }
    requires room { HasRoom agent.old }
    requires few { agent.old.entries ≤ 59000001 }
    requires handle { HasHandle S.tells agent.old handle.old }
    requires size { length (file_bytes agent.old handle.old) ≡ size }
    requires small { size ≤ 16777216 }
    requires fresh { index.old ≡ [] }
    ensures reads { OnlyReads S.tells agent.old agent.new handle.old handle.new 260 }
    ensures scanned { OnOk result (IsScanned S.tells (file_bytes agent.old handle.old) 0 [] size size index.new) }
    ensures cause { IfErr result (HasScanCause S.tells agent.old agent.new handle.old.row (file_bytes agent.old handle.old) 0 []) }
{
    let mut next = 0;
    while next < size {
        match scan_piece(rt, court, agent, handle, index, next, size) {
            Ok(behind) => next = behind,
            Err(stop) => return Err(stop),
        }
    }
    Ok(())
}

// Reads a file that is short enough, and gives what is kept in memory of it.
fn notes_in<S: Store, R: Wait>(
    rt: &R,
    court: &Hall<S>,
    agent: &mut Agent<S>,
    handle: &mut SyncHandle,
    size: u32,
    tidying: Tidying,
) -> Result<Notes, KvStop>
    requires own { agent.old.pass.hall ≡ court.now }
    requires room { HasRoom agent.old }
    requires few { agent.old.entries ≤ 59000001 }
    requires handle { HasHandle S.tells agent.old handle.old }
    requires size { length (file_bytes agent.old handle.old) ≡ size }
    requires small { size ≤ 16777216 }
    ensures reads { OnlyReads S.tells agent.old agent.new handle.old handle.new 260 }
    ensures keeps { IfOk result (λ notes. Keeps S.tells (file_bytes agent.old handle.old) notes.live notes.tail notes.index) }
    ensures whole { IfOk result (λ notes. notes.tail ≡ false) }
    ensures setting { IfOk result (λ notes. notes.tidying ≡ tidying) }
    ensures cause { IfErr result (HasOpenCause S.tells agent.old agent.new handle.old.row (file_bytes agent.old handle.old)) }
{
    let mut index = Index::empty(agent.alloc());
    match scan_all(rt, court, agent, handle, &mut index, size) {
        Ok(()) => Ok(Notes {
            index,
            live: size,
            tail: false,
            tidying,
        }),
        Err(stop) => Err(stop),
    }
}

// The same of a file of any length.
fn notes_of<S: Store, R: Wait>(
    rt: &R,
    court: &Hall<S>,
    agent: &mut Agent<S>,
    handle: &mut SyncHandle,
    size: u64,
    tidying: Tidying,
) -> Result<Notes, KvStop>
    requires own { agent.old.pass.hall ≡ court.now }
    requires room { HasRoom agent.old }
    requires few { agent.old.entries ≤ 59000001 }
    requires handle { HasHandle S.tells agent.old handle.old }
    requires size { length (file_bytes agent.old handle.old) ≡ size }
    ensures reads { OnlyReads S.tells agent.old agent.new handle.old handle.new 260 }
    ensures keeps { IfOk result (λ notes. Keeps S.tells (file_bytes agent.old handle.old) notes.live notes.tail notes.index) }
    ensures whole { IfOk result (λ notes. notes.tail ≡ false) }
    ensures setting { IfOk result (λ notes. notes.tidying ≡ tidying) }
    ensures cause { IfErr result (HasOpenCause S.tells agent.old agent.new handle.old.row (file_bytes agent.old handle.old)) }
{
    if size > 16_777_216 {
        return Err(KvStop::Full(size, 0));
    }
    notes_in(rt, court, agent, handle, size as u32, tidying)
}

/// Reads a file, and gives what is kept in memory of it.
pub fn read_notes<S: Store, R: Wait>(
    rt: &R,
    court: &Hall<S>,
    agent: &mut Agent<S>,
    handle: &mut SyncHandle,
    tidying: Tidying,
) -> Result<Notes, KvStop>
    requires own { agent.old.pass.hall ≡ court.now }
    requires few { HasPlaces agent.old }
    requires handle { HasHandle S.tells agent.old handle.old }
    ensures reads { OnlyReads S.tells agent.old agent.new handle.old handle.new 261 }
    ensures keeps { IfOk result (λ notes. Keeps S.tells (file_bytes agent.old handle.old) notes.live notes.tail notes.index) }
    ensures whole { IfOk result (λ notes. notes.tail ≡ false) }
    ensures setting { IfOk result (λ notes. notes.tidying ≡ tidying) }
    ensures cause { IfErr result (HasOpenCause S.tells agent.old agent.new handle.old.row (file_bytes agent.old handle.old)) }
{
    match size(agent, handle) {
        Ok(size) => notes_of(rt, court, agent, handle, size, tidying),
        Err(stop) => Err(KvStop::Agent(stop)),
    }
}
