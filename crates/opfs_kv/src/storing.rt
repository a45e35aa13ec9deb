//! How a pending tail is cut, and the file stored.

ghost use Rattle.std.specs.Prelude.{◌≡◌, ◌+◌, ◌≤◌, false, take, IfErr, OnErr, OnOk};
ghost use Rattle.opfs_sync_files.specs.Entries.{IsCaused};
ghost use Rattle.opfs_sync_files.specs.Files.{file_bytes};
ghost use Rattle.opfs_turns.specs.Calls.{HasRoom};
ghost use Rattle.opfs_kv.specs.Asked.{IsCut, IsCutOr, IsFlush};
ghost use Rattle.opfs_kv.specs.Calls.{HasPlainCause};
ghost use Rattle.opfs_kv.specs.Seen.{Flushes, Serves, Stands, map_in, seen};

use crate::notes::Notes;
use crate::stop::KvStop;
use opfs_agent::Agent;
use opfs_agent::handle_calls::SyncHandle;
use opfs_hall::Hall;
use opfs_store::Store;
use opfs_sync_files::{flush, truncate};
use opfs_turns::Stop;
use std::sync::Wait;

/// Cuts a pending tail, where there is one.
pub fn cut<S: Store, R: Wait>(
    rt: &R,
    court: &Hall<S>,
    agent: &mut Agent<S>,
    handle: &mut SyncHandle,
    notes: &mut Notes,
) -> Result<(), Stop>
    requires own { agent.old.pass.hall ≡ court.now }
    requires room { HasRoom agent.old }
    requires stands { Stands S.tells agent.old (seen handle.old notes.old) }
    ensures serves { Serves S.tells agent.old agent.new (seen handle.old notes.old) (seen handle.new notes.new) 1 (map_in agent.old (seen handle.old notes.old)) }
    ensures none { OnOk result (notes.new.tail ≡ false) }
    ensures idle { notes.old.tail ≡ false → (agent.new ≡ agent.old) × (handle.new ≡ handle.old) }
    ensures front { take notes.old.live (file_bytes agent.new handle.new) ≡ take notes.old.live (file_bytes agent.old handle.old) }
    ensures same { (notes.new.index ≡ notes.old.index) × (notes.new.live ≡ notes.old.live) }
    ensures cause { IfErr result (IsCaused agent.old agent.new (IsCut (seen handle.old notes.old))) }
{
    if !notes.tail {
        return Ok(());
    }
    match truncate(rt, court, agent, handle, notes.live as u64) {
        Ok(()) => {
            notes.tail = false;
            Ok(())
        }
        Err(stop) => Err(stop),
    }
}

// Stores the file for good, without a tail.
fn store<S: Store, R: Wait>(
    rt: &R,
    court: &Hall<S>,
    agent: &mut Agent<S>,
    handle: &mut SyncHandle,
    notes: &mut Notes,
) -> Result<(), Stop>
    requires own { agent.old.pass.hall ≡ court.now }
    requires room { HasRoom agent.old }
    requires more { agent.old.entries + 1 ≤ 60000000 }
    requires stands { Stands S.tells agent.old (seen handle.old notes.old) }
    ensures flushed { OnOk result (Flushes S.tells agent.old agent.new (seen handle.old notes.old) (seen handle.new notes.new) 2 (map_in agent.old (seen handle.old notes.old))) }
    ensures same { notes.old.tail ≡ false → file_bytes agent.new handle.new ≡ file_bytes agent.old handle.old }
    ensures left { OnErr result (Serves S.tells agent.old agent.new (seen handle.old notes.old) (seen handle.new notes.new) 2 (map_in agent.old (seen handle.old notes.old))) }
    ensures cause { IfErr result (IsCaused agent.old agent.new (IsCutOr (seen handle.old notes.old) (IsFlush (seen handle.old notes.old)))) }
{
    match cut(rt, court, agent, handle, notes) {
        Ok(()) => {}
        Err(stop) => return Err(stop),
    }
    match flush(rt, court, agent, handle) {
        Ok(()) => Ok(()),
        Err(unstored) => Err(unstored),
    }
}

/// The same, with the reasons of a key-value file.
pub fn flush_file<S: Store, R: Wait>(
    rt: &R,
    court: &Hall<S>,
    agent: &mut Agent<S>,
    handle: &mut SyncHandle,
    notes: &mut Notes,
) -> Result<(), KvStop>
    requires own { agent.old.pass.hall ≡ court.now }
    requires room { HasRoom agent.old }
    requires more { agent.old.entries + 1 ≤ 60000000 }
    requires stands { Stands S.tells agent.old (seen handle.old notes.old) }
    ensures flushed { OnOk result (Flushes S.tells agent.old agent.new (seen handle.old notes.old) (seen handle.new notes.new) 2 (map_in agent.old (seen handle.old notes.old))) }
    ensures same { notes.old.tail ≡ false → file_bytes agent.new handle.new ≡ file_bytes agent.old handle.old }
    ensures left { OnErr result (Serves S.tells agent.old agent.new (seen handle.old notes.old) (seen handle.new notes.new) 2 (map_in agent.old (seen handle.old notes.old))) }
    ensures cause { IfErr result (HasPlainCause agent.old agent.new (IsCutOr (seen handle.old notes.old) (IsFlush (seen handle.old notes.old)))) }
{
    match store(rt, court, agent, handle, notes) {
        Ok(()) => Ok(()),
        Err(stop) => Err(KvStop::Agent(stop)),
    }
}
