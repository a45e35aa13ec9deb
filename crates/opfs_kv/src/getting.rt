//! How a value is found.

ghost use Rattle.std.specs.Prelude.{◌≡◌, IfErr, IfOk, Some};
ghost use Rattle.opfs_kv.specs.Records.Maps.{found};
ghost use Rattle.opfs_splice.specs.Splicing.{window};
ghost use Rattle.opfs_sync_files.specs.Files.{file_bytes};
ghost use Rattle.opfs_kv.specs.Asked.{IsGet};
ghost use Rattle.opfs_kv.specs.Calls.{HasPlainCause, IsGotten, IsRead};
ghost use Rattle.opfs_kv.specs.Seen.{HasPlaces, Serves, Stands, map_in, seen};

use crate::notes::Notes;
use crate::records::Place;
use crate::stop::KvStop;
use opfs_agent::Agent;
use opfs_agent::handle_calls::SyncHandle;
use opfs_base::Bytes;
use opfs_hall::Hall;
use opfs_store::Store;
use opfs_sync_files::read;
use std::sync::Wait;

// The value at a place.
fn value_at<S: Store, R: Wait>(
    rt: &R,
    court: &Hall<S>,
    agent: &mut Agent<S>,
    handle: &mut SyncHandle,
    notes: &Notes,
    place: Place,
) -> Result<Option<Bytes>, KvStop>
    requires own { agent.old.pass.hall ≡ court.now }
    requires few { HasPlaces agent.old }
    requires stands { Stands S.tells agent.old (seen handle.old notes.now) }
    ensures serves { Serves S.tells agent.old agent.new (seen handle.old notes.now) (seen handle.new notes.now) 1 (map_in agent.old (seen handle.old notes.now)) }
    ensures value { IfOk result (λ value. S.tells → value ≡ Some (window (file_bytes agent.old handle.old) place.at place.len)) }
    ensures read { IsRead S.tells agent.old agent.new handle.old.row place result }
    ensures cause { IfErr result (HasPlainCause agent.old agent.new (IsGet handle.old.row (Some place))) }
{
    match read(rt, court, agent, handle, place.len as u64, place.at as u64) {
        Ok(bytes) => Ok(Some(bytes)),
        Err(stop) => Err(KvStop::Agent(stop)),
    }
}

/// The value of a key, read alone, through the index.
pub fn get<S: Store, R: Wait>(
    rt: &R,
    court: &Hall<S>,
    agent: &mut Agent<S>,
    handle: &mut SyncHandle,
    notes: &Notes,
    key: &Bytes,
) -> Result<Option<Bytes>, KvStop>
    requires own { agent.old.pass.hall ≡ court.now }
    requires few { HasPlaces agent.old }
    requires stands { Stands S.tells agent.old (seen handle.old notes.now) }
    ensures serves { Serves S.tells agent.old agent.new (seen handle.old notes.now) (seen handle.new notes.now) 1 (map_in agent.old (seen handle.old notes.now)) }
    ensures value { IfOk result (λ value. S.tells → value ≡ found (map_in agent.old (seen handle.old notes.now)) key.now) }
    ensures once { IsGotten S.tells agent.old agent.new handle.old.row (found notes.now.index key.now) result }
    ensures cause { IfErr result (HasPlainCause agent.old agent.new (IsGet handle.old.row (found notes.now.index key.now))) }
{
    match notes.index.find(key) {
        Some(place) => value_at(rt, court, agent, handle, notes, place),
        None => Ok(None),
    }
}
