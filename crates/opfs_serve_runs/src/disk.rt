//! A conversation over an image.

ghost use Rattle.std.specs.Prelude.{◌≡◌, ◌≢◌, ◌≤◌, [], length, Err, IfOk, IfErr};
ghost use Rattle.opfs_codec.specs.declared.change.Format.TheVariants.{New};
ghost use Rattle.opfs_image.specs.Reading.{read_as};
ghost use Rattle.opfs_journal.specs.Walking.{OnlyRead};
ghost use Rattle.opfs_outside.specs.Faults.{Rose};
ghost use Rattle.opfs_serve_runs.specs.Conversations.{IsServedOn, IsServedOver};
ghost use Rattle.opfs_serving.specs.Served.{HasNoScripts};

use opfs_desk::Desk;
use opfs_desk_runs::{Completion, agents_of, end_run};
use opfs_image::{ImageRefusal, Recovered, recover};
use opfs_outside::Disk;
use opfs_port::Port;
use opfs_script::AgentScript;
use opfs_serving::{Served, State, serve};
use std::sync::Wait;

/// What a conversation leaves: the run, and whether all answers went out.
pub struct ServedRun<D> {
    pub run: Completion<D>,
    pub state: State,
}

// The disk of an image.
fn disk_of<D: Disk>(from: Recovered<D>) -> D
    ensures { result ≡ from.journal.disk }
{
    let Recovered { journal, .. } = from;
    journal.give_back()
}

/// Holds a conversation of agents over an image that was recovered, and ends the run. Its state is that the port failed only where a call
/// of the port did. Where there is no memory to begin, it gives the disk back, which it has not called, and nothing was heard or told.
pub fn serve_image<D: Disk, P: Port<Desk<D>>, R: AllocGlobal + Wait>(
    rt: &R,
    from: Recovered<D>,
    agents: &[AgentScript],
    port: &mut P,
) -> Result<ServedRun<D>, D>
    requires few { length agents.now ≤ 64 }
    requires alone { HasNoScripts agents.now }
    ensures served { IfOk result (λ served. IsServedOver D.Disk P.tells P.said agents.now port.old port.new from served.run served.state) }
    ensures all { IfOk result (λ served. served.state ≡ State.On → P.tells → P.rest port.new ≡ []) }
    ensures failed { IfOk result (λ served. served.state ≡ State.Failed → Rose (P.faults port.old) (P.faults port.new)) }
    ensures later { P.faults port.old ≤ P.faults port.new }
    ensures err { IfErr result (λ disk. disk ≡ from.journal.disk) }
    ensures none { IfErr result (λ disk. port.new ≡ port.old) }
{
    let alloc = rt.alloc();
    let Ok(callers) = agents_of(alloc, agents) else {
        return Err(disk_of(from));
    };
    let desk = Desk::make(alloc, from, callers)?;
    match serve(rt, desk, agents, port) {
        Ok(
            Served {
                store,
                whole,
                state,
            },
        ) => Ok(ServedRun {
            run: end_run(store, whole),
            state,
        }),
        Err(desk) => Err(desk.leave()),
    }
}

/// Recovers the image that a disk holds, and holds a conversation over it, as `serve_image` does. Where the image is refused, the disk
/// fails or there is no memory before that, it gives the disk back, which was only read, and nothing was heard or told.
pub fn serve_disk<D: Disk, P: Port<Desk<D>>, R: AllocGlobal + Wait>(
    rt: &R,
    disk: D,
    agents: &[AgentScript],
    port: &mut P,
) -> Result<ServedRun<D>, (D, ImageRefusal)>
    requires few { length agents.now ≤ 64 }
    requires alone { HasNoScripts agents.now }
    ensures served { IfOk result (λ served. IsServedOn D.Disk P.tells P.said agents.now port.old port.new disk served.run served.state) }
    ensures all { IfOk result (λ served. served.state ≡ State.On → P.tells → P.rest port.new ≡ []) }
    ensures failed { IfOk result (λ served. served.state ≡ State.Failed → Rose (P.faults port.old) (P.faults port.new)) }
    ensures later { P.faults port.old ≤ P.faults port.new }
    ensures only { IfErr result (λ err. OnlyRead D.Disk disk err.0) }
    ensures refused { IfErr result (λ err. err.1 ≢ ImageRefusal.DiskFault → err.1 ≢ ImageRefusal.NoMemory → D.tells → read_as New New (D.content disk) ≡ Err err.1) }
    ensures cause { IfErr result (λ err. err.1 ≡ ImageRefusal.DiskFault → Rose (D.faults disk) (D.faults err.0)) }
    ensures none { IfErr result (λ err. port.new ≡ port.old) }
{
    let from = match recover(rt.alloc(), disk) {
        Ok(from) => from,
        Err(refused) => return Err(refused),
    };
    match serve_image(rt, from, agents, port) {
        Ok(served) => Ok(served),
        Err(disk) => Err((disk, ImageRefusal::NoMemory)),
    }
}
