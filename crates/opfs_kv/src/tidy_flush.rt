//! How a file is stored, by when it compacts by itself.

ghost use Rattle.std.specs.Prelude.{◌≡◌, ◌↔◌, map, IfErr, IsTrue, OnErr, OnOk};
ghost use Rattle.opfs_sync_files.specs.Entries.{GoesOn};
ghost use Rattle.opfs_sync_files.specs.Files.{file_bytes};
ghost use Rattle.opfs_kv.specs.Records.Records.{log_of, put_of};
ghost use Rattle.opfs_kv.specs.Asked.{IsCutOr, IsTidyFlush};
ghost use Rattle.opfs_kv.specs.Calls.{HasPlainCause};
ghost use Rattle.opfs_kv.specs.Seen.{Flushes, HasPlaces, IsTidiedNow, Serves, Stands, map_in, seen};

use crate::compacting::{compact_file, is_wasted};
use crate::notes::Notes;
use crate::stop::KvStop;
use crate::storing::flush_file;
use crate::tidying::Tidying;
use opfs_agent::Agent;
use opfs_agent::handle_calls::SyncHandle;
use opfs_hall::Hall;
use opfs_store::Store;
use std::sync::Wait;

// Whether a file compacts at a flush.
fn is_tidied<S: Store>(agent: &Agent<S>, handle: &SyncHandle, notes: &Notes) -> bool
    requires { Stands S.tells agent.now (seen handle.now notes.now) }
    ensures { IsTrue result ↔ IsTidiedNow (seen handle.now notes.now) }
{
    match notes.tidying {
        Tidying::AtFlush => is_wasted(agent, handle, notes),
        Tidying::Never => false,
    }
}

// Compacts a file that does so, and stores it for good.
fn compact_and_flush<S: Store, R: Wait>(
    rt: &R,
    court: &Hall<S>,
    agent: &mut Agent<S>,
    handle: &mut SyncHandle,
    notes: &mut Notes,
) -> Result<(), KvStop>
    requires own { agent.old.pass.hall ≡ court.now }
    requires few { HasPlaces agent.old }
    requires stands { Stands S.tells agent.old (seen handle.old notes.old) }
    requires tidied { IsTidiedNow (seen handle.old notes.old) }
    ensures flushed { OnOk result (Flushes S.tells agent.old agent.new (seen handle.old notes.old) (seen handle.new notes.new) 6 (map_in agent.old (seen handle.old notes.old))) }
    ensures packed { OnOk result (S.tells → file_bytes agent.new handle.new ≡ log_of (map put_of (map_in agent.old (seen handle.old notes.old)))) }
    ensures left { OnErr result (Serves S.tells agent.old agent.new (seen handle.old notes.old) (seen handle.new notes.new) 6 (map_in agent.old (seen handle.old notes.old))) }
    ensures cause { IfErr result (HasPlainCause agent.old agent.new (IsCutOr (seen handle.old notes.old) (IsTidyFlush S.tells (seen handle.old notes.old) (map_in agent.old (seen handle.old notes.old))))) }
{
    match compact_file(rt, court, agent, handle, notes) {
        Ok(()) => flush_file(rt, court, agent, handle, notes),
        Err(stop) => Err(stop),
    }
}

/// Stores a file for good, and compacts it before where it does so.
pub fn flush<S: Store, R: Wait>(
    rt: &R,
    court: &Hall<S>,
    agent: &mut Agent<S>,
    handle: &mut SyncHandle,
    notes: &mut Notes,
) -> Result<(), KvStop>
    requires own { agent.old.pass.hall ≡ court.now }
    requires few { HasPlaces agent.old }
    requires stands { Stands S.tells agent.old (seen handle.old notes.old) }
    ensures flushed { OnOk result (Flushes S.tells agent.old agent.new (seen handle.old notes.old) (seen handle.new notes.new) 6 (map_in agent.old (seen handle.old notes.old))) }
    ensures packed { OnOk result (IsTidiedNow (seen handle.old notes.old) → S.tells → file_bytes agent.new handle.new ≡ log_of (map put_of (map_in agent.old (seen handle.old notes.old)))) }
    ensures plain { (IsTidiedNow (seen handle.old notes.old) → ⊥) → GoesOn agent.old agent.new 2 }
    ensures left { OnErr result (Serves S.tells agent.old agent.new (seen handle.old notes.old) (seen handle.new notes.new) 6 (map_in agent.old (seen handle.old notes.old))) }
    ensures cause { IfErr result (HasPlainCause agent.old agent.new (IsCutOr (seen handle.old notes.old) (IsTidyFlush S.tells (seen handle.old notes.old) (map_in agent.old (seen handle.old notes.old))))) }
{
    if is_tidied(agent, handle, notes) {
        return compact_and_flush(rt, court, agent, handle, notes);
    }
    flush_file(rt, court, agent, handle, notes)
}
