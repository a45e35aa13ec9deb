//! Files of an agent: how they are found, and opened through an access handle.

ghost use Rattle.std.specs.Prelude.{◌≡◌, IfErr, IfOk};
ghost use Rattle.opfs_notebook.specs.Ready.{Goes, HasMade, Holds, IsMine, IsReady};

use opfs_agent::Agent;
use opfs_agent::handle_calls::SyncHandle;
use opfs_base::{Locator, Text};
use opfs_hall::Hall;
use opfs_hist::Mode;
use opfs_store::Store;
use opfs_turns::Stop;
use std::alloc::Global;
use std::sync::Wait;

// A text in memory of its own.
fn text(alloc: Global, text: &str) -> Result<Text, Stop>
    ensures { IfOk result (λ copy. copy ≡ text.now) }
{
    match Text::copy_of(alloc, text) {
        Ok(copy) => Ok(copy),
        Err(_) => Err(Stop::NoMemory),
    }
}

/// The root of the agent's default bucket.
pub fn root<S: Store, R: Wait>(
    rt: &R,
    court: &Hall<S>,
    agent: &mut Agent<S>,
) -> Result<Locator, Stop>
    requires ready { IsReady court.now agent.old 0 }
    requires few { HasMade agent.old 50000000 }
    ensures ready { IsReady court.now agent.new 0 }
    ensures goes { Goes agent.old agent.new 1 }
    ensures mine { IfOk result (λ at. IsMine agent.new at) }
{
    let bucket = text(agent.alloc(), "default")?;
    agent.know_kept();
    let root = agent.get_directory(rt, court, &bucket);
    agent.know_kept();
    root
}

/// A file of a directory, which is made where it is missing.
pub fn child<S: Store, R: Wait>(
    rt: &R,
    court: &Hall<S>,
    agent: &mut Agent<S>,
    dir: &Locator,
    name: &str,
) -> Result<Locator, Stop>
    requires ready { IsReady court.now agent.old 0 }
    requires few { HasMade agent.old 50000000 }
    requires mine { IsMine agent.old dir.now }
    ensures ready { IsReady court.now agent.new 0 }
    ensures goes { Goes agent.old agent.new 1 }
    ensures mine { IfOk result (λ at. IsMine agent.new at) }
{
    let name = text(agent.alloc(), name)?;
    agent.know_kept();
    let file = agent.get_file_handle(rt, court, dir, &name, true);
    agent.know_kept();
    file
}

/// A file of the agent's default bucket, which is made where it is missing.
pub fn new_file<S: Store, R: Wait>(
    rt: &R,
    court: &Hall<S>,
    agent: &mut Agent<S>,
    name: &str,
) -> Result<Locator, Stop>
    requires ready { IsReady court.now agent.old 0 }
    requires few { HasMade agent.old 40000000 }
    ensures ready { IsReady court.now agent.new 0 }
    ensures goes { Goes agent.old agent.new 2 }
    ensures mine { IfOk result (λ at. IsMine agent.new at) }
{
    let root = root(rt, court, agent)?;
    child(rt, court, agent, &root, name)
}

/// An access handle on a file, which may write.
pub fn open_file<S: Store, R: Wait>(
    rt: &R,
    court: &Hall<S>,
    agent: &mut Agent<S>,
    file: &Locator,
) -> Result<SyncHandle, Stop>
    requires ready { IsReady court.now agent.old 0 }
    requires few { HasMade agent.old 50000000 }
    requires mine { IsMine agent.old file.now }
    ensures goes { Goes agent.old agent.new 1 }
    ensures holds { IfOk result (λ handle. Holds S.tells court.now agent.new handle) }
    ensures not { IfErr result (λ _. IsReady court.now agent.new 0) }
{
    agent.know_kept();
    let opened = agent.create_sync(rt, court, file, Mode::ReadWrite);
    agent.know_kept();
    opened
}

/// Discards an access handle: its file has again what was last stored.
pub fn discard<S: Store, R: Wait>(rt: &R, court: &Hall<S>, agent: &mut Agent<S>, handle: SyncHandle)
    requires holds { Holds S.tells court.now agent.old handle }
    requires few { HasMade agent.old 50001000 }
    ensures ready { IsReady court.now agent.new 0 }
    ensures goes { Goes agent.old agent.new 1 }
{
    agent.know_kept();
    let _closed = agent.discard_sync(rt, court, handle);
    agent.know_kept();
}
