//! How a file is changed through its access handle, and stored.

ghost use Rattle.std.specs.Prelude.{◌≡◌, ◌++◌, length, OnOk, OnErr, IfErr, Some};
ghost use Rattle.opfs_hist.specs.declared.op.Op.TheVariants as op;
ghost use Rattle.opfs_store.specs.Acts.Asking.{IsSmall, IsSmallData};
ghost use Rattle.opfs_turns.specs.Asking.Rows.{HasHandle};
ghost use Rattle.opfs_splice.specs.Splicing.{resize, splice};
ghost use Rattle.opfs_sync_files.specs.Entries.{IsCaused, TheCall};
ghost use Rattle.opfs_sync_files.specs.Files.{file_bytes, flushed_by, stored_of, written};
ghost use Rattle.opfs_sync_files.specs.Still.{NoBytes, TheBytes, IsStill};
ghost use Rattle.opfs_turns.specs.Calls.{HasRoom};

use opfs_agent::Agent;
use opfs_agent::handle_calls::SyncHandle;
use opfs_base::Data;
use opfs_hall::Hall;
use opfs_store::Store;
use opfs_turns::Stop;
use std::sync::Wait;

// A write that was done, whatever number of bytes it tells.
fn written(done: Result<u64, Stop>) -> Result<(), Stop>
    ensures { result ≡ written done }
{
    match done {
        Ok(_) => Ok(()),
        Err(stop) => Err(stop),
    }
}

/// Writes bytes at a place of a file. A write that is refused leaves the file.
pub fn write<S: Store, R: Wait>(
    rt: &R,
    court: &Hall<S>,
    agent: &mut Agent<S>,
    handle: &mut SyncHandle,
    bytes: &Data,
    at: u64,
) -> Result<(), Stop>
    requires own { agent.old.pass.hall ≡ court.now }
    requires room { HasRoom agent.old }
    requires handle { HasHandle S.tells agent.old handle.old }
    requires bytes { IsSmallData bytes.now }
    requires at { IsSmall at }
    ensures still { IsStill S.tells agent.old agent.new handle.old handle.new NoBytes }
    ensures wrote { OnOk result (file_bytes agent.new handle.new ≡ splice (file_bytes agent.old handle.old) at bytes.now) }
    ensures same { OnErr result (file_bytes agent.new handle.new ≡ file_bytes agent.old handle.old) }
    ensures stored { stored_of agent.new handle.new ≡ stored_of agent.old handle.old }
    ensures cause { IfErr result (IsCaused agent.old agent.new (TheCall (op.SyncWrite handle.old.row bytes.now (Some at)))) }
{
    agent.know_kept();
    let done = agent.sync_write(rt, court, handle, bytes, Some(at));
    agent.know_kept();
    written(done)
}

/// Cuts or extends a file to a size. A truncate that is refused leaves the file.
pub fn truncate<S: Store, R: Wait>(
    rt: &R,
    court: &Hall<S>,
    agent: &mut Agent<S>,
    handle: &mut SyncHandle,
    size: u64,
) -> Result<(), Stop>
    requires own { agent.old.pass.hall ≡ court.now }
    requires room { HasRoom agent.old }
    requires handle { HasHandle S.tells agent.old handle.old }
    requires size { IsSmall size }
    ensures still { IsStill S.tells agent.old agent.new handle.old handle.new NoBytes }
    ensures cut { OnOk result (file_bytes agent.new handle.new ≡ resize (file_bytes agent.old handle.old) size) }
    ensures same { OnErr result (file_bytes agent.new handle.new ≡ file_bytes agent.old handle.old) }
    ensures stored { stored_of agent.new handle.new ≡ stored_of agent.old handle.old }
    ensures cause { IfErr result (IsCaused agent.old agent.new (TheCall (op.SyncTruncate handle.old.row size))) }
{
    agent.know_kept();
    let done = agent.sync_truncate(rt, court, handle, size);
    agent.know_kept();
    done
}

/// Stores the bytes of a file for good. A flush that is refused stores nothing.
pub fn flush<S: Store, R: Wait>(
    rt: &R,
    court: &Hall<S>,
    agent: &mut Agent<S>,
    handle: &mut SyncHandle,
) -> Result<(), Stop>
    requires own { agent.old.pass.hall ≡ court.now }
    requires room { HasRoom agent.old }
    requires handle { HasHandle S.tells agent.old handle.old }
    ensures still { IsStill S.tells agent.old agent.new handle.old handle.new (TheBytes (file_bytes agent.old handle.old)) }
    ensures same { file_bytes agent.new handle.new ≡ file_bytes agent.old handle.old }
    ensures stored { OnOk result (stored_of agent.new handle.new ≡ stored_of agent.old handle.old ++ flushed_by handle.old.mode (file_bytes agent.old handle.old)) }
    ensures unstored { OnErr result (stored_of agent.new handle.new ≡ stored_of agent.old handle.old) }
    ensures cause { IfErr result (IsCaused agent.old agent.new (TheCall (op.SyncFlush handle.old.row))) }
{
    agent.know_kept();
    let done = agent.sync_flush(rt, court, handle);
    agent.know_kept();
    done
}
