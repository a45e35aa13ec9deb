//! How a file is written anew, by key.

ghost use Rattle.std.specs.Prelude.{◌≡◌, ◌↔◌, ◌+◌, ◌*◌, ◌<◌, ◌≤◌, true, false, map, nat_lt, sum_by, take, IfErr, IfOk, IsTrue, OnOk};
ghost use Rattle.std.specs.List.{AllByRecursion};
ghost use Rattle.opfs_turns.specs.declared.asking.stop.Stop.TheVariants as stop;
ghost use Rattle.opfs_sync_files.specs.Entries.{IsCaused};
ghost use Rattle.opfs_turns.specs.Calls.{HasRoom};
ghost use Rattle.opfs_sync_files.specs.Files.{file_bytes};
ghost use Rattle.opfs_kv.specs.Records.Indexes.{IsEntry, cost_of};
ghost use Rattle.opfs_kv.specs.Records.Records.{log_of, put_of};
ghost use Rattle.opfs_kv.specs.Asked.{IsCutOr, IsReadAll, IsRepack, IsRewrite};
ghost use Rattle.opfs_kv.specs.Calls.{HasPlainCause};
ghost use Rattle.opfs_kv.specs.Packing.{IsAnew, IsAnewFor};
ghost use Rattle.opfs_kv.specs.Seen.{HasPlaces, Serves, Stands, dead_in, map_in, seen};

use crate::listing::dead;
use crate::notes::Notes;
use crate::records::{Index, Packed, pack};
use crate::stop::KvStop;
use crate::storing::cut;
use opfs_agent::Agent;
use opfs_agent::handle_calls::SyncHandle;
use opfs_base::{Bytes, Data};
use opfs_hall::Hall;
use opfs_store::Store;
use opfs_sync_files::{read, write};
use opfs_turns::Stop;
use std::alloc::{AllocError, Global};
use std::sync::Wait;

// Bytes by key, ready to be written, with the index of them.
#[derive(Drop)]
struct Anew {
    bytes: Data,
    len: u32,
    index: Index,
}

// The records of the map that an index reads out of bytes, by key.
fn by_key(alloc: Global, bytes: &[u8], index: &Index) -> Result<Anew, AllocError>
    requires good { AllByRecursion IsEntry index.now }
    requires small { sum_by cost_of index.now ≤ 16777216 }
    ensures { IfOk result (λ anew. IsAnew bytes.now index.now anew.bytes anew.len anew.index) }
{
    let Packed { bytes, index } = pack(alloc, bytes, index)?;
    let len = bytes.len() as u32;
    let bytes = Data::given(alloc, Bytes::from_vec(bytes))?;
    Ok(Anew { bytes, len, index })
}

// The same, or want of memory.
fn anew_of(alloc: Global, bytes: &[u8], index: &Index) -> Result<Anew, Stop>
    requires good { AllByRecursion IsEntry index.now }
    requires small { sum_by cost_of index.now ≤ 16777216 }
    ensures anew { IfOk result (λ anew. IsAnew bytes.now index.now anew.bytes anew.len anew.index) }
    ensures why { IfErr result (λ why. why ≡ stop.NoMemory) }
{
    match by_key(alloc, bytes, index) {
        Ok(anew) => Ok(anew),
        Err(_) => Err(Stop::NoMemory),
    }
}

// The records of the map of a file without a tail, by key.
fn read_anew<S: Store, R: Wait>(
    rt: &R,
    court: &Hall<S>,
    agent: &mut Agent<S>,
    handle: &mut SyncHandle,
    notes: &Notes,
) -> Result<Anew, Stop>
    requires own { agent.old.pass.hall ≡ court.now }
    requires room { HasRoom agent.old }
    requires stands { Stands S.tells agent.old (seen handle.old notes.now) }
    requires none { notes.now.tail ≡ false }
    ensures serves { Serves S.tells agent.old agent.new (seen handle.old notes.now) (seen handle.new notes.now) 1 (map_in agent.old (seen handle.old notes.now)) }
    ensures same { file_bytes agent.new handle.new ≡ file_bytes agent.old handle.old }
    ensures anew { IfOk result (λ anew. IsAnewFor S.tells (file_bytes agent.old handle.old) notes.now.index anew.bytes anew.len anew.index) }
    ensures cause { IfErr result (IsCaused agent.old agent.new (IsReadAll (seen handle.old notes.now))) }
{
    match read(rt, court, agent, handle, notes.live as u64, 0) {
        Ok(bytes) => anew_of(agent.alloc(), bytes.as_slice(), &notes.index),
        Err(stop) => Err(stop),
    }
}

// Writes them at the start. What stands behind them then is a tail.
fn write_anew<S: Store, R: Wait>(
    rt: &R,
    court: &Hall<S>,
    agent: &mut Agent<S>,
    handle: &mut SyncHandle,
    notes: &mut Notes,
    anew: Anew,
) -> Result<(), Stop>
    requires own { agent.old.pass.hall ≡ court.now }
    requires room { HasRoom agent.old }
    requires stands { Stands S.tells agent.old (seen handle.old notes.old) }
    requires none { notes.old.tail ≡ false }
    requires anew { IsAnewFor S.tells (file_bytes agent.old handle.old) notes.old.index anew.bytes anew.len anew.index }
    ensures serves { Serves S.tells agent.old agent.new (seen handle.old notes.old) (seen handle.new notes.new) 1 (map_in agent.old (seen handle.old notes.old)) }
    ensures front { OnOk result (S.tells → take notes.new.live (file_bytes agent.new handle.new) ≡ log_of (map put_of (map_in agent.old (seen handle.old notes.old)))) }
    ensures cause { IfErr result (IsCaused agent.old agent.new (IsRewrite S.tells handle.old.row (map_in agent.old (seen handle.old notes.old)))) }
{
    notes.index.know_kept();
    let Anew { bytes, len, index } = anew;
    match write(rt, court, agent, handle, &bytes, 0) {
        Ok(()) => {
            notes.tail = len != notes.live;
            notes.live = len;
            notes.index = index;
            Ok(())
        }
        Err(stop) => Err(stop),
    }
}

// Writes the map's records by key at the start of a file without a tail.
fn rewrite<S: Store, R: Wait>(
    rt: &R,
    court: &Hall<S>,
    agent: &mut Agent<S>,
    handle: &mut SyncHandle,
    notes: &mut Notes,
) -> Result<(), Stop>
    requires own { agent.old.pass.hall ≡ court.now }
    requires room { HasRoom agent.old }
    requires more { agent.old.entries + 1 ≤ 60000000 }
    requires stands { Stands S.tells agent.old (seen handle.old notes.old) }
    requires none { notes.old.tail ≡ false }
    ensures serves { Serves S.tells agent.old agent.new (seen handle.old notes.old) (seen handle.new notes.new) 2 (map_in agent.old (seen handle.old notes.old)) }
    ensures front { OnOk result (S.tells → take notes.new.live (file_bytes agent.new handle.new) ≡ log_of (map put_of (map_in agent.old (seen handle.old notes.old)))) }
    ensures cause { IfErr result (IsCaused agent.old agent.new (IsRepack S.tells (seen handle.old notes.old) (map_in agent.old (seen handle.old notes.old)))) }
{
    match read_anew(rt, court, agent, handle, notes) {
        Ok(anew) => write_anew(rt, court, agent, handle, notes, anew),
        Err(stop) => Err(stop),
    }
}

// The same, and cuts what is left behind them.
fn pack_in<S: Store, R: Wait>(
    rt: &R,
    court: &Hall<S>,
    agent: &mut Agent<S>,
    handle: &mut SyncHandle,
    notes: &mut Notes,
) -> Result<(), Stop>
    requires own { agent.old.pass.hall ≡ court.now }
    requires room { HasRoom agent.old }
    requires more { agent.old.entries + 2 ≤ 60000000 }
    requires stands { Stands S.tells agent.old (seen handle.old notes.old) }
    requires none { notes.old.tail ≡ false }
    ensures serves { Serves S.tells agent.old agent.new (seen handle.old notes.old) (seen handle.new notes.new) 3 (map_in agent.old (seen handle.old notes.old)) }
    ensures packed { OnOk result (S.tells → file_bytes agent.new handle.new ≡ log_of (map put_of (map_in agent.old (seen handle.old notes.old)))) }
    ensures whole { OnOk result (notes.new.tail ≡ false) }
    ensures cause { IfErr result (IsCaused agent.old agent.new (IsRepack S.tells (seen handle.old notes.old) (map_in agent.old (seen handle.old notes.old)))) }
{
    match rewrite(rt, court, agent, handle, notes) {
        Ok(()) => cut(rt, court, agent, handle, notes),
        Err(stop) => Err(stop),
    }
}

// Writes the map's records by key at the start of the file, in one write, and cuts what is left behind them.
fn compact<S: Store, R: Wait>(
    rt: &R,
    court: &Hall<S>,
    agent: &mut Agent<S>,
    handle: &mut SyncHandle,
    notes: &mut Notes,
) -> Result<(), Stop>
    requires own { agent.old.pass.hall ≡ court.now }
    requires few { HasPlaces agent.old }
    requires stands { Stands S.tells agent.old (seen handle.old notes.old) }
    ensures serves { Serves S.tells agent.old agent.new (seen handle.old notes.old) (seen handle.new notes.new) 4 (map_in agent.old (seen handle.old notes.old)) }
    ensures packed { OnOk result (S.tells → file_bytes agent.new handle.new ≡ log_of (map put_of (map_in agent.old (seen handle.old notes.old)))) }
    ensures whole { OnOk result (notes.new.tail ≡ false) }
    ensures cause { IfErr result (IsCaused agent.old agent.new (IsCutOr (seen handle.old notes.old) (IsRepack S.tells (seen handle.old notes.old) (map_in agent.old (seen handle.old notes.old))))) }
{
    match cut(rt, court, agent, handle, notes) {
        Ok(()) => pack_in(rt, court, agent, handle, notes),
        Err(stop) => Err(stop),
    }
}

/// The same, with the reasons of a key-value file.
pub fn compact_file<S: Store, R: Wait>(
    rt: &R,
    court: &Hall<S>,
    agent: &mut Agent<S>,
    handle: &mut SyncHandle,
    notes: &mut Notes,
) -> Result<(), KvStop>
    requires own { agent.old.pass.hall ≡ court.now }
    requires few { HasPlaces agent.old }
    requires stands { Stands S.tells agent.old (seen handle.old notes.old) }
    ensures serves { Serves S.tells agent.old agent.new (seen handle.old notes.old) (seen handle.new notes.new) 4 (map_in agent.old (seen handle.old notes.old)) }
    ensures packed { OnOk result (S.tells → file_bytes agent.new handle.new ≡ log_of (map put_of (map_in agent.old (seen handle.old notes.old)))) }
    ensures whole { OnOk result (notes.new.tail ≡ false) }
    ensures cause { IfErr result (HasPlainCause agent.old agent.new (IsCutOr (seen handle.old notes.old) (IsRepack S.tells (seen handle.old notes.old) (map_in agent.old (seen handle.old notes.old))))) }
{
    match compact(rt, court, agent, handle, notes) {
        Ok(()) => Ok(()),
        Err(stop) => Err(KvStop::Agent(stop)),
    }
}

/// Whether more than half of the live bytes are dead.
pub fn is_wasted<S: Store>(agent: &Agent<S>, handle: &SyncHandle, notes: &Notes) -> bool
    requires { Stands S.tells agent.now (seen handle.now notes.now) }
    ensures wasted { result ≡ nat_lt notes.now.live (2 * dead_in (seen handle.now notes.now)) }
    ensures test { IsTrue result ↔ notes.now.live < 2 * dead_in (seen handle.now notes.now) }
{
    (notes.live as u64) < 2 * dead(agent, handle, notes)
}

/// Compacts where more than half of the live bytes are dead, and tells whether it did.
pub fn tidy<S: Store, R: Wait>(
    rt: &R,
    court: &Hall<S>,
    agent: &mut Agent<S>,
    handle: &mut SyncHandle,
    notes: &mut Notes,
) -> Result<bool, KvStop>
    requires own { agent.old.pass.hall ≡ court.now }
    requires few { HasPlaces agent.old }
    requires stands { Stands S.tells agent.old (seen handle.old notes.old) }
    ensures serves { Serves S.tells agent.old agent.new (seen handle.old notes.old) (seen handle.new notes.new) 4 (map_in agent.old (seen handle.old notes.old)) }
    ensures wasted { IfOk result (λ did. did ≡ nat_lt notes.old.live (2 * dead_in (seen handle.old notes.old))) }
    ensures none { IfOk result (λ did. did ≡ false → (agent.new ≡ agent.old) × ((seen handle.new notes.new) ≡ (seen handle.old notes.old))) }
    ensures packed { IfOk result (λ did. did ≡ true → S.tells → file_bytes agent.new handle.new ≡ log_of (map put_of (map_in agent.old (seen handle.old notes.old)))) }
    ensures cause { IfErr result (HasPlainCause agent.old agent.new (IsCutOr (seen handle.old notes.old) (IsRepack S.tells (seen handle.old notes.old) (map_in agent.old (seen handle.old notes.old))))) }
{
    if !is_wasted(agent, handle, notes) {
        return Ok(false);
    }
    match compact_file(rt, court, agent, handle, notes) {
        Ok(()) => Ok(true),
        Err(stop) => Err(stop),
    }
}
