//! How a key gets a value, and how it is taken out.

ghost use Rattle.std.specs.Prelude.{◌≡◌, ◌≢◌, ◌+◌, ◌<◌, ◌≤◌, false, true, length, IfErr, IfOk, OnErr, OnOk, Ok, Err, None, Some, is_some};
ghost use Rattle.opfs_turns.specs.declared.asking.stop.Stop.TheVariants as stop;
ghost use Rattle.opfs_kv.specs.Records.Maps.{found, with_key, without_key};
ghost use Rattle.opfs_kv.specs.Records.Records.{IsKey, IsValue, spelled_by};
ghost use Rattle.opfs_sync_files.specs.Entries.{IsCaused};
ghost use Rattle.opfs_turns.specs.Calls.{HasRoom};
ghost use Rattle.opfs_kv.specs.Asked.{IsAppend, IsCutOr};
ghost use Rattle.opfs_kv.specs.Calls.{HasCause};
ghost use Rattle.opfs_kv.specs.Seen.{HasPlaces, Serves, Stands, map_in, seen};
ghost use Rattle.opfs_kv.specs.declared.stop.KvStop.TheVariants as kv_stop;

use crate::notes::Notes;
use crate::records::{Index, Place, spell_gone, spell_put};
use crate::stop::KvStop;
use crate::storing::cut;
use opfs_agent::Agent;
use opfs_agent::handle_calls::SyncHandle;
use opfs_base::{Bytes, Data};
use opfs_hall::Hall;
use opfs_store::Store;
use opfs_sync_files::write;
use opfs_turns::Stop;
use std::alloc::{AllocError, Global};
use std::sync::Wait;

// The record of a key with its new value.
fn put_record(alloc: Global, key: &Bytes, value: &Bytes) -> Result<Data, AllocError>
    requires key { IsKey key.now }
    requires value { IsValue value.now }
    ensures { IfOk result (λ made. made ≡ spelled_by key.now (Some value.now)) }
{
    let bytes = spell_put(alloc, key.as_slice(), value.as_slice())?;
    let record = Data::given(alloc, Bytes::from_vec(bytes))?;
    Ok(record)
}

// The record of a key that is taken out.
fn gone_record(alloc: Global, key: &Bytes) -> Result<Data, AllocError>
    requires { IsKey key.now }
    ensures { IfOk result (λ made. made ≡ spelled_by key.now None) }
{
    let bytes = spell_gone(alloc, key.as_slice())?;
    let record = Data::given(alloc, Bytes::from_vec(bytes))?;
    Ok(record)
}

// Gives a key a place. On want of memory the index is as it was.
fn note(alloc: Global, index: &mut Index, key: &Bytes, place: Place) -> Result<(), AllocError>
    ensures ok { OnOk result (index.new ≡ with_key index.old key.now place) }
    ensures err { OnErr result (index.new ≡ index.old) }
{
    let own = key.copy(alloc)?;
    index.put(own, place)?;
    Ok(())
}

// Notes a record that stands behind the live bytes now, with the place of its value. On want of memory it is a tail.
fn note_put(
    alloc: Global,
    notes: &mut Notes,
    key: &Bytes,
    place: Place,
    live: u32,
) -> Result<(), Stop>
    ensures ok { OnOk result (notes.new ≡ record { index = with_key notes.old.index key.now place; live = live; tail = notes.old.tail; tidying = notes.old.tidying }) }
    ensures err { OnErr result (notes.new ≡ record { index = notes.old.index; live = notes.old.live; tail = true; tidying = notes.old.tidying }) }
    ensures why { IfErr result (λ why. why ≡ stop.NoMemory) }
{
    match note(alloc, &mut notes.index, key, place) {
        Ok(()) => {
            notes.live = live;
            Ok(())
        }
        Err(_) => {
            notes.tail = true;
            Err(Stop::NoMemory)
        }
    }
}

// A key with its new value, and the record of both.
#[derive(Clone, Copy)]
struct KeyPut<'a> {
    key: &'a Bytes,
    value: &'a Bytes,
    record: &'a Data,
}

// Writes a key's record behind the live bytes, where no others stand, and notes where its value is.
fn write_put<S: Store, R: Wait>(
    rt: &R,
    court: &Hall<S>,
    agent: &mut Agent<S>,
    handle: &mut SyncHandle,
    notes: &mut Notes,
    put: &KeyPut,
) -> Result<(), Stop>
    requires own { agent.old.pass.hall ≡ court.now }
    requires room { HasRoom agent.old }
    requires stands { Stands S.tells agent.old (seen handle.old notes.old) }
    requires none { notes.old.tail ≡ false }
    requires key { IsKey put.now.key.now }
    requires value { IsValue put.now.value.now }
    requires fits { notes.old.live + (6 + length put.now.key.now + length put.now.value.now) ≤ 16777216 }
    requires record { put.now.record.now ≡ spelled_by put.now.key.now (Some put.now.value.now) }
    ensures put { OnOk result (Serves S.tells agent.old agent.new (seen handle.old notes.old) (seen handle.new notes.new) 1 (with_key (map_in agent.old (seen handle.old notes.old)) put.now.key.now put.now.value.now)) }
    ensures live { OnOk result (notes.new.live ≡ notes.old.live + (6 + length put.now.key.now + length put.now.value.now)) }
    ensures left { OnErr result (Serves S.tells agent.old agent.new (seen handle.old notes.old) (seen handle.new notes.new) 1 (map_in agent.old (seen handle.old notes.old))) }
    ensures cause { IfErr result (IsCaused agent.old agent.new (IsAppend (seen handle.old notes.old) (spelled_by put.now.key.now (Some put.now.value.now)))) }
{
    let at = notes.live + 6 + put.key.len() as u32;
    let len = put.value.len() as u32;
    let alloc = agent.alloc();
    match write(rt, court, agent, handle, put.record, notes.live as u64) {
        Ok(()) => note_put(alloc, notes, put.key, Place { at, len }, at + len),
        Err(stop) => Err(stop),
    }
}

// Writes the record that takes out a key behind the live bytes, where no others stand.
fn write_gone<S: Store, R: Wait>(
    rt: &R,
    court: &Hall<S>,
    agent: &mut Agent<S>,
    handle: &mut SyncHandle,
    notes: &mut Notes,
    key: &Bytes,
    bytes: &Data,
) -> Result<(), Stop>
    requires own { agent.old.pass.hall ≡ court.now }
    requires room { HasRoom agent.old }
    requires stands { Stands S.tells agent.old (seen handle.old notes.old) }
    requires none { notes.old.tail ≡ false }
    requires key { IsKey key.now }
    requires fits { notes.old.live + (2 + length key.now) ≤ 16777216 }
    requires bytes { bytes.now ≡ spelled_by key.now None }
    ensures gone { OnOk result (Serves S.tells agent.old agent.new (seen handle.old notes.old) (seen handle.new notes.new) 1 (without_key (map_in agent.old (seen handle.old notes.old)) key.now)) }
    ensures live { OnOk result (notes.new.live ≡ notes.old.live + (2 + length key.now)) }
    ensures left { OnErr result (Serves S.tells agent.old agent.new (seen handle.old notes.old) (seen handle.new notes.new) 1 (map_in agent.old (seen handle.old notes.old))) }
    ensures cause { IfErr result (IsCaused agent.old agent.new (IsAppend (seen handle.old notes.old) (spelled_by key.now None))) }
{
    match write(rt, court, agent, handle, bytes, notes.live as u64) {
        Ok(()) => {
            notes.index.take_out(key);
            notes.live = notes.live + 2 + key.len() as u32;
            Ok(())
        }
        Err(stop) => Err(stop),
    }
}

// Writes the record of a key with its new value, where there is room, and cuts a pending tail before.
fn cut_put<S: Store, R: Wait>(
    rt: &R,
    court: &Hall<S>,
    agent: &mut Agent<S>,
    handle: &mut SyncHandle,
    notes: &mut Notes,
    put: &KeyPut,
) -> Result<(), Stop>
    requires own { agent.old.pass.hall ≡ court.now }
    requires few { HasPlaces agent.old }
    requires stands { Stands S.tells agent.old (seen handle.old notes.old) }
    requires key { IsKey put.now.key.now }
    requires value { IsValue put.now.value.now }
    requires fits { notes.old.live + (6 + length put.now.key.now + length put.now.value.now) ≤ 16777216 }
    requires record { put.now.record.now ≡ spelled_by put.now.key.now (Some put.now.value.now) }
    ensures put { OnOk result (Serves S.tells agent.old agent.new (seen handle.old notes.old) (seen handle.new notes.new) 2 (with_key (map_in agent.old (seen handle.old notes.old)) put.now.key.now put.now.value.now)) }
    ensures live { OnOk result (notes.new.live ≡ notes.old.live + (6 + length put.now.key.now + length put.now.value.now)) }
    ensures left { OnErr result (Serves S.tells agent.old agent.new (seen handle.old notes.old) (seen handle.new notes.new) 2 (map_in agent.old (seen handle.old notes.old))) }
    ensures cause { IfErr result (IsCaused agent.old agent.new (IsCutOr (seen handle.old notes.old) (IsAppend (seen handle.old notes.old) (spelled_by put.now.key.now (Some put.now.value.now))))) }
{
    match cut(rt, court, agent, handle, notes) {
        Ok(()) => write_put(rt, court, agent, handle, notes, put),
        Err(stop) => Err(stop),
    }
}

// Gives a key a value, where there is room.
fn put_in<S: Store, R: Wait>(
    rt: &R,
    court: &Hall<S>,
    agent: &mut Agent<S>,
    handle: &mut SyncHandle,
    notes: &mut Notes,
    key: &Bytes,
    value: &Bytes,
) -> Result<(), Stop>
    requires own { agent.old.pass.hall ≡ court.now }
    requires few { HasPlaces agent.old }
    requires stands { Stands S.tells agent.old (seen handle.old notes.old) }
    requires key { IsKey key.now }
    requires value { IsValue value.now }
    requires fits { notes.old.live + (6 + length key.now + length value.now) ≤ 16777216 }
    ensures put { OnOk result (Serves S.tells agent.old agent.new (seen handle.old notes.old) (seen handle.new notes.new) 2 (with_key (map_in agent.old (seen handle.old notes.old)) key.now value.now)) }
    ensures live { OnOk result (notes.new.live ≡ notes.old.live + (6 + length key.now + length value.now)) }
    ensures left { OnErr result (Serves S.tells agent.old agent.new (seen handle.old notes.old) (seen handle.new notes.new) 2 (map_in agent.old (seen handle.old notes.old))) }
    ensures cause { IfErr result (IsCaused agent.old agent.new (IsCutOr (seen handle.old notes.old) (IsAppend (seen handle.old notes.old) (spelled_by key.now (Some value.now))))) }
{
    match put_record(agent.alloc(), key, value) {
        Ok(record) => {
            let put = KeyPut {
                key,
                value,
                record: &record,
            };
            cut_put(rt, court, agent, handle, notes, &put)
        }
        Err(_) => Err(Stop::NoMemory),
    }
}

// Writes the record that takes out a key, where there is room, and cuts a pending tail before.
fn cut_gone<S: Store, R: Wait>(
    rt: &R,
    court: &Hall<S>,
    agent: &mut Agent<S>,
    handle: &mut SyncHandle,
    notes: &mut Notes,
    key: &Bytes,
    bytes: &Data,
) -> Result<(), Stop>
    requires own { agent.old.pass.hall ≡ court.now }
    requires few { HasPlaces agent.old }
    requires stands { Stands S.tells agent.old (seen handle.old notes.old) }
    requires key { IsKey key.now }
    requires fits { notes.old.live + (2 + length key.now) ≤ 16777216 }
    requires bytes { bytes.now ≡ spelled_by key.now None }
    ensures gone { OnOk result (Serves S.tells agent.old agent.new (seen handle.old notes.old) (seen handle.new notes.new) 2 (without_key (map_in agent.old (seen handle.old notes.old)) key.now)) }
    ensures live { OnOk result (notes.new.live ≡ notes.old.live + (2 + length key.now)) }
    ensures left { OnErr result (Serves S.tells agent.old agent.new (seen handle.old notes.old) (seen handle.new notes.new) 2 (map_in agent.old (seen handle.old notes.old))) }
    ensures cause { IfErr result (IsCaused agent.old agent.new (IsCutOr (seen handle.old notes.old) (IsAppend (seen handle.old notes.old) (spelled_by key.now None)))) }
{
    match cut(rt, court, agent, handle, notes) {
        Ok(()) => write_gone(rt, court, agent, handle, notes, key, bytes),
        Err(stop) => Err(stop),
    }
}

// Takes out a key that is there, where there is room.
fn take_in<S: Store, R: Wait>(
    rt: &R,
    court: &Hall<S>,
    agent: &mut Agent<S>,
    handle: &mut SyncHandle,
    notes: &mut Notes,
    key: &Bytes,
) -> Result<(), Stop>
    requires own { agent.old.pass.hall ≡ court.now }
    requires few { HasPlaces agent.old }
    requires stands { Stands S.tells agent.old (seen handle.old notes.old) }
    requires key { IsKey key.now }
    requires fits { notes.old.live + (2 + length key.now) ≤ 16777216 }
    ensures gone { OnOk result (Serves S.tells agent.old agent.new (seen handle.old notes.old) (seen handle.new notes.new) 2 (without_key (map_in agent.old (seen handle.old notes.old)) key.now)) }
    ensures live { OnOk result (notes.new.live ≡ notes.old.live + (2 + length key.now)) }
    ensures left { OnErr result (Serves S.tells agent.old agent.new (seen handle.old notes.old) (seen handle.new notes.new) 2 (map_in agent.old (seen handle.old notes.old))) }
    ensures cause { IfErr result (IsCaused agent.old agent.new (IsCutOr (seen handle.old notes.old) (IsAppend (seen handle.old notes.old) (spelled_by key.now None)))) }
{
    match gone_record(agent.alloc(), key) {
        Ok(record) => cut_gone(rt, court, agent, handle, notes, key, &record),
        Err(_) => Err(Stop::NoMemory),
    }
}

/// Gives a key a value.
pub fn put<S: Store, R: Wait>(
    rt: &R,
    court: &Hall<S>,
    agent: &mut Agent<S>,
    handle: &mut SyncHandle,
    notes: &mut Notes,
    key: &Bytes,
    value: &Bytes,
) -> Result<(), KvStop>
    requires own { agent.old.pass.hall ≡ court.now }
    requires few { HasPlaces agent.old }
    requires stands { Stands S.tells agent.old (seen handle.old notes.old) }
    requires key { IsKey key.now }
    requires value { IsValue value.now }
    ensures put { OnOk result (Serves S.tells agent.old agent.new (seen handle.old notes.old) (seen handle.new notes.new) 2 (with_key (map_in agent.old (seen handle.old notes.old)) key.now value.now)) }
    ensures live { OnOk result (notes.new.live ≡ notes.old.live + (6 + length key.now + length value.now)) }
    ensures left { OnErr result (Serves S.tells agent.old agent.new (seen handle.old notes.old) (seen handle.new notes.new) 2 (map_in agent.old (seen handle.old notes.old))) }
    ensures full { 16777216 < notes.old.live + (6 + length key.now + length value.now) → result ≡ Err (kv_stop.Full notes.old.live (6 + length key.now + length value.now)) }
    ensures cause { IfErr result (HasCause agent.old agent.new (IsCutOr (seen handle.old notes.old) (IsAppend (seen handle.old notes.old) (spelled_by key.now (Some value.now)))) notes.old.live (6 + length key.now + length value.now)) }
{
    let need = 6 + key.len() as u64 + value.len() as u64;
    if notes.live as u64 + need > 16_777_216 {
        return Err(KvStop::Full(notes.live as u64, need));
    }
    match put_in(rt, court, agent, handle, notes, key, value) {
        Ok(()) => Ok(()),
        Err(stop) => Err(KvStop::Agent(stop)),
    }
}

// Takes out a key that is there.
fn take_out<S: Store, R: Wait>(
    rt: &R,
    court: &Hall<S>,
    agent: &mut Agent<S>,
    handle: &mut SyncHandle,
    notes: &mut Notes,
    key: &Bytes,
) -> Result<bool, KvStop>
    requires own { agent.old.pass.hall ≡ court.now }
    requires few { HasPlaces agent.old }
    requires stands { Stands S.tells agent.old (seen handle.old notes.old) }
    requires key { IsKey key.now }
    ensures was { IfOk result (λ was. was ≡ true) }
    ensures gone { OnOk result (Serves S.tells agent.old agent.new (seen handle.old notes.old) (seen handle.new notes.new) 2 (without_key (map_in agent.old (seen handle.old notes.old)) key.now)) }
    ensures live { OnOk result (notes.new.live ≡ notes.old.live + (2 + length key.now)) }
    ensures left { OnErr result (Serves S.tells agent.old agent.new (seen handle.old notes.old) (seen handle.new notes.new) 2 (map_in agent.old (seen handle.old notes.old))) }
    ensures full { 16777216 < notes.old.live + (2 + length key.now) → result ≡ Err (kv_stop.Full notes.old.live (2 + length key.now)) }
    ensures cause { IfErr result (HasCause agent.old agent.new (IsCutOr (seen handle.old notes.old) (IsAppend (seen handle.old notes.old) (spelled_by key.now None))) notes.old.live (2 + length key.now)) }
{
    let need = 2 + key.len() as u64;
    if notes.live as u64 + need > 16_777_216 {
        return Err(KvStop::Full(notes.live as u64, need));
    }
    match take_in(rt, court, agent, handle, notes, key) {
        Ok(()) => Ok(true),
        Err(stop) => Err(KvStop::Agent(stop)),
    }
}

/// Takes out a key, and tells whether it was there.
pub fn delete<S: Store, R: Wait>(
    rt: &R,
    court: &Hall<S>,
    agent: &mut Agent<S>,
    handle: &mut SyncHandle,
    notes: &mut Notes,
    key: &Bytes,
) -> Result<bool, KvStop>
    requires own { agent.old.pass.hall ≡ court.now }
    requires few { HasPlaces agent.old }
    requires stands { Stands S.tells agent.old (seen handle.old notes.old) }
    requires key { IsKey key.now }
    ensures was { IfOk result (λ was. was ≡ is_some (found (map_in agent.old (seen handle.old notes.old)) key.now)) }
    ensures gone { OnOk result (Serves S.tells agent.old agent.new (seen handle.old notes.old) (seen handle.new notes.new) 2 (without_key (map_in agent.old (seen handle.old notes.old)) key.now)) }
    ensures live { OnOk result (found notes.old.index key.now ≢ None → notes.new.live ≡ notes.old.live + (2 + length key.now)) }
    ensures left { OnErr result (Serves S.tells agent.old agent.new (seen handle.old notes.old) (seen handle.new notes.new) 2 (map_in agent.old (seen handle.old notes.old))) }
    ensures none { found notes.old.index key.now ≡ None → (result ≡ Ok false) × (agent.new ≡ agent.old) }
    ensures full { found notes.old.index key.now ≢ None → 16777216 < notes.old.live + (2 + length key.now) → result ≡ Err (kv_stop.Full notes.old.live (2 + length key.now)) }
    ensures cause { IfErr result (HasCause agent.old agent.new (IsCutOr (seen handle.old notes.old) (IsAppend (seen handle.old notes.old) (spelled_by key.now None))) notes.old.live (2 + length key.now)) }
{
    match notes.index.find(key) {
        Some(_) => take_out(rt, court, agent, handle, notes, key),
        None => Ok(false),
    }
}
