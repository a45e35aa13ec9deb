//! The keys of a key-value file, and how many of its bytes are dead.

ghost use Rattle.std.specs.Prelude.{◌≡◌, IfOk, is_some};
ghost use Rattle.std.specs.Map.{keys_of};
ghost use Rattle.opfs_kv.specs.Records.Maps.{found, keys_between, keys_from, keys_with};
ghost use Rattle.opfs_kv.specs.Seen.{Stands, dead_in, map_in, seen};

use crate::notes::Notes;
use crate::records;
use opfs_agent::Agent;
use opfs_agent::handle_calls::SyncHandle;
use opfs_base::Bytes;
use opfs_store::Store;
use std::alloc::AllocError;

/// The keys from one on.
pub fn keys_from<S: Store>(
    agent: &Agent<S>,
    handle: &SyncHandle,
    notes: &Notes,
    from: &Bytes,
) -> Result<Vec<Bytes>, AllocError>
    ensures { IfOk result (λ keys. keys.items ≡ keys_from from.now (keys_of (map_in agent.now (seen handle.now notes.now)))) }
{
    let _ = handle;
    let keys = records::keys_from(agent.alloc(), &notes.index, from)?;
    Ok(keys)
}

/// The keys from one on, and below another.
pub fn keys_between<S: Store>(
    agent: &Agent<S>,
    handle: &SyncHandle,
    notes: &Notes,
    from: &Bytes,
    to: &Bytes,
) -> Result<Vec<Bytes>, AllocError>
    ensures { IfOk result (λ keys. keys.items ≡ keys_between from.now to.now (keys_of (map_in agent.now (seen handle.now notes.now)))) }
{
    let _ = handle;
    let keys = records::keys_between(agent.alloc(), &notes.index, from, to)?;
    Ok(keys)
}

/// The keys that begin with bytes.
pub fn keys_with<S: Store>(
    agent: &Agent<S>,
    handle: &SyncHandle,
    notes: &Notes,
    front: &Bytes,
) -> Result<Vec<Bytes>, AllocError>
    ensures { IfOk result (λ keys. keys.items ≡ keys_with front.now (keys_of (map_in agent.now (seen handle.now notes.now)))) }
{
    let _ = handle;
    let keys = records::keys_with(agent.alloc(), &notes.index, front)?;
    Ok(keys)
}

/// Whether a key is there.
pub fn contains<S: Store>(agent: &Agent<S>, handle: &SyncHandle, notes: &Notes, key: &Bytes) -> bool
    ensures { result ≡ is_some (found (map_in agent.now (seen handle.now notes.now)) key.now) }
{
    let _ = agent;
    let _ = handle;
    match notes.index.find(key) {
        Some(_) => true,
        None => false,
    }
}

/// How many of the live bytes are dead.
pub fn dead<S: Store>(agent: &Agent<S>, handle: &SyncHandle, notes: &Notes) -> u64
    requires { Stands S.tells agent.now (seen handle.now notes.now) }
    ensures { result ≡ dead_in (seen handle.now notes.now) }
{
    let _ = agent;
    let _ = handle;
    notes.live as u64 - records::cost_of(&notes.index)
}
