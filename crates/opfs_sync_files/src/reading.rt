//! How a file is read through its access handle.

ghost use Rattle.std.specs.Prelude.{◌≡◌, length, IfOk, IfErr, Some};
ghost use Rattle.opfs_hist.specs.declared.op.Op.TheVariants as op;
ghost use Rattle.opfs_store.specs.Acts.Asking.{IsSmall};
ghost use Rattle.opfs_turns.specs.Asking.Rows.{HasHandle};
ghost use Rattle.opfs_splice.specs.Splicing.{window};
ghost use Rattle.opfs_sync_files.specs.Entries.{IsCaused, TheCall};
ghost use Rattle.opfs_sync_files.specs.Files.{file_bytes, stored_of, ReadsOnce};
ghost use Rattle.opfs_sync_files.specs.Still.{NoBytes, IsStill};
ghost use Rattle.opfs_turns.specs.Calls.{HasRoom};

use opfs_agent::Agent;
use opfs_agent::handle_calls::SyncHandle;
use opfs_base::Bytes;
use opfs_hall::Hall;
use opfs_store::Store;
use opfs_turns::Stop;
use std::sync::Wait;

/// How many bytes a file has.
pub fn size<S: Store>(agent: &mut Agent<S>, handle: &SyncHandle) -> Result<u64, Stop>
    requires room { HasRoom agent.old }
    requires handle { HasHandle S.tells agent.old handle.now }
    ensures still { IsStill S.tells agent.old agent.new handle.now handle.now NoBytes }
    ensures size { IfOk result (λ size. size ≡ length (file_bytes agent.old handle.now)) }
    ensures same { file_bytes agent.new handle.now ≡ file_bytes agent.old handle.now }
    ensures stored { stored_of agent.new handle.now ≡ stored_of agent.old handle.now }
    ensures cause { IfErr result (IsCaused agent.old agent.new (TheCall (op.SyncGetSize handle.now.row))) }
{
    agent.know_kept();
    let done = agent.sync_size(handle);
    agent.know_kept();
    done
}

/// The bytes of a file from a place on, at most so many: one call, with a turn only where some bytes are elsewhere.
pub fn read<S: Store, R: Wait>(
    rt: &R,
    court: &Hall<S>,
    agent: &mut Agent<S>,
    handle: &mut SyncHandle,
    len: u64,
    at: u64,
) -> Result<Bytes, Stop>
    requires own { agent.old.pass.hall ≡ court.now }
    requires room { HasRoom agent.old }
    requires handle { HasHandle S.tells agent.old handle.old }
    requires len { IsSmall len }
    requires at { IsSmall at }
    ensures still { IsStill S.tells agent.old agent.new handle.old handle.new NoBytes }
    ensures once { ReadsOnce S.tells agent.old agent.new handle.old.row len at result }
    ensures read { IfOk result (λ bytes. S.tells → bytes ≡ window (file_bytes agent.old handle.old) at len) }
    ensures long { IfOk result (λ bytes. length bytes ≡ length (window (file_bytes agent.old handle.old) at len)) }
    ensures same { file_bytes agent.new handle.new ≡ file_bytes agent.old handle.old }
    ensures stored { stored_of agent.new handle.new ≡ stored_of agent.old handle.old }
    ensures cause { IfErr result (IsCaused agent.old agent.new (TheCall (op.SyncRead handle.old.row len (Some at)))) }
{
    agent.know_kept();
    if handle.near(len, Some(at)) {
        let done = agent.sync_read(handle, len, Some(at));
        agent.know_kept();
        return done;
    }
    let done = agent.sync_read_far(rt, court, handle, len, Some(at));
    agent.know_kept();
    done
}
