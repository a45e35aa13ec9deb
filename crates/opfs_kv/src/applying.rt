//! How several changes are made as one.

ghost use Rattle.std.specs.Prelude.{◌≡◌, ◌+◌, ◌++◌, ◌<◌, ◌≤◌, [], false, length, IfErr, IfOk, OnErr, OnOk, Ok, Err};
ghost use Rattle.opfs_turns.specs.declared.asking.stop.Stop.TheVariants as stop;
ghost use Rattle.opfs_kv.specs.Records.Records.{after_all, log_of};
ghost use Rattle.opfs_sync_files.specs.Entries.{GoesOn, IsCaused};
ghost use Rattle.opfs_turns.specs.Calls.{HasRoom};
ghost use Rattle.opfs_kv.specs.Asked.{IsAppend, IsCutOr};
ghost use Rattle.opfs_kv.specs.Calls.{HasCause};
ghost use Rattle.opfs_kv.specs.Packing.{IsReadied};
ghost use Rattle.opfs_kv.specs.Seen.{HasPlaces, Serves, Stands, live_bytes, map_in, seen};
ghost use Rattle.opfs_kv.specs.declared.stop.KvStop.TheVariants as kv_stop;

use crate::notes::Notes;
use crate::records::{Batch, Index};
use crate::stop::KvStop;
use crate::storing::cut;
use opfs_agent::Agent;
use opfs_agent::handle_calls::SyncHandle;
use opfs_base::{Bytes, Data};
use opfs_hall::Hall;
use opfs_store::Store;
use opfs_sync_files::write;
use opfs_turns::Stop;
use std::alloc::{AllocError, Global};
use std::sync::Wait;

// A batch's records, ready to be written, with the index and the number of live bytes then.
#[derive(Drop)]
struct Readied {
    bytes: Data,
    index: Index,
    live: u32,
}

// A batch's records for a file.
fn spell_batch(alloc: Global, notes: &Notes, batch: &Batch) -> Result<Readied, AllocError>
    requires { notes.now.live + length (log_of batch.now) ≤ 16777216 }
    ensures { IfOk result (λ r. IsReadied notes.now.live notes.now.index batch.now r.bytes r.index r.live) }
{
    let bytes = batch.spell(alloc)?;
    let live = notes.live + bytes.len() as u32;
    let index = batch.place(alloc, &notes.index, notes.live)?;
    let bytes = Data::given(alloc, Bytes::from_vec(bytes))?;
    Ok(Readied { bytes, index, live })
}

// The same, or want of memory.
fn spelled_batch(alloc: Global, notes: &Notes, batch: &Batch) -> Result<Readied, Stop>
    requires { notes.now.live + length (log_of batch.now) ≤ 16777216 }
    ensures readied { IfOk result (λ r. IsReadied notes.now.live notes.now.index batch.now r.bytes r.index r.live) }
    ensures why { IfErr result (λ why. why ≡ stop.NoMemory) }
{
    match spell_batch(alloc, notes, batch) {
        Ok(readied) => Ok(readied),
        Err(_) => Err(Stop::NoMemory),
    }
}

// Writes a batch's records behind the live bytes, where no others stand, in one write, and takes their index.
fn write_batch<S: Store, R: Wait>(
    rt: &R,
    court: &Hall<S>,
    agent: &mut Agent<S>,
    handle: &mut SyncHandle,
    notes: &mut Notes,
    batch: &Batch,
    readied: Readied,
) -> Result<(), Stop>
    requires own { agent.old.pass.hall ≡ court.now }
    requires room { HasRoom agent.old }
    requires stands { Stands S.tells agent.old (seen handle.old notes.old) }
    requires none { notes.old.tail ≡ false }
    requires fits { notes.old.live + length (log_of batch.now) ≤ 16777216 }
    requires readied { IsReadied notes.old.live notes.old.index batch.now readied.bytes readied.index readied.live }
    ensures applied { OnOk result (Serves S.tells agent.old agent.new (seen handle.old notes.old) (seen handle.new notes.new) 1 (after_all (map_in agent.old (seen handle.old notes.old)) batch.now)) }
    ensures live { OnOk result (notes.new.live ≡ notes.old.live + length (log_of batch.now)) }
    ensures written { OnOk result (live_bytes agent.new (seen handle.new notes.new) ≡ live_bytes agent.old (seen handle.old notes.old) ++ log_of batch.now) }
    ensures left { OnErr result (Serves S.tells agent.old agent.new (seen handle.old notes.old) (seen handle.new notes.new) 1 (map_in agent.old (seen handle.old notes.old))) }
    ensures cause { IfErr result (IsCaused agent.old agent.new (IsAppend (seen handle.old notes.old) (log_of batch.now))) }
{
    batch.know_kept();
    let Readied { bytes, index, live } = readied;
    match write(rt, court, agent, handle, &bytes, notes.live as u64) {
        Ok(()) => {
            notes.live = live;
            notes.index = index;
            Ok(())
        }
        Err(stop) => Err(stop),
    }
}

// The same, and cuts a pending tail before.
fn cut_batch<S: Store, R: Wait>(
    rt: &R,
    court: &Hall<S>,
    agent: &mut Agent<S>,
    handle: &mut SyncHandle,
    notes: &mut Notes,
    batch: &Batch,
    readied: Readied,
) -> Result<(), Stop>
    requires own { agent.old.pass.hall ≡ court.now }
    requires few { HasPlaces agent.old }
    requires stands { Stands S.tells agent.old (seen handle.old notes.old) }
    requires fits { notes.old.live + length (log_of batch.now) ≤ 16777216 }
    requires readied { IsReadied notes.old.live notes.old.index batch.now readied.bytes readied.index readied.live }
    ensures applied { OnOk result (Serves S.tells agent.old agent.new (seen handle.old notes.old) (seen handle.new notes.new) 2 (after_all (map_in agent.old (seen handle.old notes.old)) batch.now)) }
    ensures live { OnOk result (notes.new.live ≡ notes.old.live + length (log_of batch.now)) }
    ensures written { OnOk result (live_bytes agent.new (seen handle.new notes.new) ≡ live_bytes agent.old (seen handle.old notes.old) ++ log_of batch.now) }
    ensures once { notes.old.tail ≡ false → GoesOn agent.old agent.new 1 }
    ensures left { OnErr result (Serves S.tells agent.old agent.new (seen handle.old notes.old) (seen handle.new notes.new) 2 (map_in agent.old (seen handle.old notes.old))) }
    ensures cause { IfErr result (IsCaused agent.old agent.new (IsCutOr (seen handle.old notes.old) (IsAppend (seen handle.old notes.old) (log_of batch.now)))) }
{
    match cut(rt, court, agent, handle, notes) {
        Ok(()) => write_batch(rt, court, agent, handle, notes, batch, readied),
        Err(stop) => Err(stop),
    }
}

// Makes changes where their records have room.
fn apply_in<S: Store, R: Wait>(
    rt: &R,
    court: &Hall<S>,
    agent: &mut Agent<S>,
    handle: &mut SyncHandle,
    notes: &mut Notes,
    batch: &Batch,
) -> Result<(), Stop>
    requires own { agent.old.pass.hall ≡ court.now }
    requires few { HasPlaces agent.old }
    requires stands { Stands S.tells agent.old (seen handle.old notes.old) }
    requires fits { notes.old.live + length (log_of batch.now) ≤ 16777216 }
    ensures applied { OnOk result (Serves S.tells agent.old agent.new (seen handle.old notes.old) (seen handle.new notes.new) 2 (after_all (map_in agent.old (seen handle.old notes.old)) batch.now)) }
    ensures live { OnOk result (notes.new.live ≡ notes.old.live + length (log_of batch.now)) }
    ensures written { OnOk result (live_bytes agent.new (seen handle.new notes.new) ≡ live_bytes agent.old (seen handle.old notes.old) ++ log_of batch.now) }
    ensures once { notes.old.tail ≡ false → GoesOn agent.old agent.new 1 }
    ensures left { OnErr result (Serves S.tells agent.old agent.new (seen handle.old notes.old) (seen handle.new notes.new) 2 (map_in agent.old (seen handle.old notes.old))) }
    ensures cause { IfErr result (IsCaused agent.old agent.new (IsCutOr (seen handle.old notes.old) (IsAppend (seen handle.old notes.old) (log_of batch.now)))) }
{
    match spelled_batch(agent.alloc(), notes, batch) {
        Ok(readied) => cut_batch(rt, court, agent, handle, notes, batch, readied),
        Err(stop) => Err(stop),
    }
}

/// Makes several changes as one: all of them, or none.
pub fn apply<S: Store, R: Wait>(
    rt: &R,
    court: &Hall<S>,
    agent: &mut Agent<S>,
    handle: &mut SyncHandle,
    notes: &mut Notes,
    batch: &Batch,
) -> Result<(), KvStop>
    requires own { agent.old.pass.hall ≡ court.now }
    requires few { HasPlaces agent.old }
    requires stands { Stands S.tells agent.old (seen handle.old notes.old) }
    ensures applied { OnOk result (Serves S.tells agent.old agent.new (seen handle.old notes.old) (seen handle.new notes.new) 2 (after_all (map_in agent.old (seen handle.old notes.old)) batch.now)) }
    ensures live { OnOk result (notes.new.live ≡ notes.old.live + length (log_of batch.now)) }
    ensures written { OnOk result (live_bytes agent.new (seen handle.new notes.new) ≡ live_bytes agent.old (seen handle.old notes.old) ++ log_of batch.now) }
    ensures once { notes.old.tail ≡ false → GoesOn agent.old agent.new 1 }
    ensures none { batch.now ≡ [] → (result ≡ Ok tt) × (agent.new ≡ agent.old) }
    ensures left { OnErr result (Serves S.tells agent.old agent.new (seen handle.old notes.old) (seen handle.new notes.new) 2 (map_in agent.old (seen handle.old notes.old))) }
    ensures full { 16777216 < notes.old.live + length (log_of batch.now) → result ≡ Err (kv_stop.Full notes.old.live (length (log_of batch.now))) }
    ensures cause { IfErr result (HasCause agent.old agent.new (IsCutOr (seen handle.old notes.old) (IsAppend (seen handle.old notes.old) (log_of batch.now))) notes.old.live (length (log_of batch.now))) }
{
    if batch.len() == 0 {
        return Ok(());
    }
    let need = batch.bytes();
    if need > 16_777_216 - notes.live as u64 {
        return Err(KvStop::Full(notes.live as u64, need));
    }
    match apply_in(rt, court, agent, handle, notes, batch) {
        Ok(()) => Ok(()),
        Err(stop) => Err(KvStop::Agent(stop)),
    }
}
