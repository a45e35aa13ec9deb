//! How an access handle ends.

ghost use Rattle.std.specs.Prelude.{◌≡◌, ◌++◌, IfOk, IfErr};
ghost use Rattle.opfs_hist.specs.declared.op.Op.TheVariants as op;
ghost use Rattle.opfs_turns.specs.Asking.Rows.{HasClosedHandle, HasHandle};
ghost use Rattle.opfs_base.specs.Places.{place_of};
ghost use Rattle.opfs_sync_files.specs.Doubts.{DoubtsStore};
ghost use Rattle.opfs_sync_files.specs.Entries.{GoesOn, IsCaused, TheCall};
ghost use Rattle.opfs_sync_files.specs.Files.{file_bytes, flushed_by, stored_of};
ghost use Rattle.opfs_sync_files.specs.Resting.{LeavesRest};
ghost use Rattle.opfs_sync_files.specs.Still.{TheBytes, IsStill};
ghost use Rattle.opfs_turns.specs.Calls.{HasRoom};

use opfs_agent::Agent;
use opfs_agent::handle_calls::{ClosedSync, SyncHandle};
use opfs_hall::Hall;
use opfs_store::Store;
use opfs_turns::Stop;
use std::sync::Wait;

/// Closes an access handle: the bytes of its file are stored for good. Where that is refused the handle comes back open, and
/// nothing is stored.
pub fn close<S: Store, R: Wait>(
    rt: &R,
    court: &Hall<S>,
    agent: &mut Agent<S>,
    handle: SyncHandle,
) -> Result<ClosedSync, (SyncHandle, Stop)>
    requires own { agent.old.pass.hall ≡ court.now }
    requires room { HasRoom agent.old }
    requires handle { HasHandle S.tells agent.old handle }
    ensures closed { IfOk result (λ closed. (closed.row ≡ handle.row) × HasClosedHandle agent.new closed.row) }
    ensures goes { GoesOn agent.old agent.new 1 }
    ensures others { LeavesRest S.tells agent.old agent.new handle.row }
    ensures stored { IfOk result (λ closed. stored_of agent.new handle ≡ stored_of agent.old handle ++ flushed_by handle.mode (file_bytes agent.old handle)) }
    ensures doubts { IfOk result (λ closed. S.tells → DoubtsStore agent.old.opening agent.old.pass.base agent.new.pass.base (place_of handle.file) (TheBytes (file_bytes agent.old handle))) }
    ensures still { IfErr result (λ back. IsStill S.tells agent.old agent.new handle back.0 (TheBytes (file_bytes agent.old handle))) }
    ensures same { IfErr result (λ back. file_bytes agent.new back.0 ≡ file_bytes agent.old handle) }
    ensures unstored { IfErr result (λ back. stored_of agent.new back.0 ≡ stored_of agent.old handle) }
    ensures cause { IfErr result (λ back. IsCaused agent.old agent.new (TheCall (op.SyncClose handle.row)) back.1) }
{
    agent.know_kept();
    let done = agent.close_sync(rt, court, handle);
    agent.know_kept();
    done
}
