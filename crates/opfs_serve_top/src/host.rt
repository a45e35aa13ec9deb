//! A conversation over the image at a path of a host.

ghost use Rattle.std.specs.Prelude.{◌≡◌, ◌+◌, ◌-◌, ◌≤◌, [], length, true, false, Ok, IfOk, OnErr};
ghost use Rattle.opfs_outside.specs.Faults.{Rose, RoseBy};
ghost use Rattle.opfs_outside.specs.Turns.{of_host, GivenBack, HostServed, IsReturned, OthersAsBefore};
ghost use Rattle.opfs_serve_top.specs.Endings.{IsEnding, IsUnserved};
ghost use Rattle.opfs_serve_top.specs.Ends.{broken_end, EndedOn, IsGivenOr, IsHeldEnd, IsRefusedEnd, WasTold};
ghost use Rattle.opfs_serving.specs.Served.{HasNoScripts};

use opfs_desk::Desk;
use opfs_desk_runs::Completion;
use opfs_image::ImageRefusal;
use opfs_outside::{Disk, Host, HostStop};
use opfs_port::Port;
use opfs_script::AgentScript;
use opfs_serve_runs::{ServedRun, serve_disk};
use opfs_serving::State;
use std::alloc::AllocError;
use std::sync::Wait;

/// How a conversation over the image at a path ended.
#[derive(Clone, Copy, PartialEq, Eq)]
pub enum Ending {
    /// It was held, and the image stands for all of it; whether all answers went out.
    Held(State),
    /// It was held, but a disk or the host failed in the end.
    Broken(State),
    /// It was not held, since the image is refused.
    Refused(ImageRefusal),
    /// It was not held, since a disk or the host failed.
    Failed,
}

// The ending of a conversation whose disk was given back, or was not.
fn ending_of(state: State, whole: bool) -> Ending
    ensures held { whole ≡ true → result ≡ Ending.Held state }
    ensures broken { whole ≡ false → result ≡ Ending.Broken state }
{
    if whole {
        Ending::Held(state)
    } else {
        Ending::Broken(state)
    }
}

// The disk of a conversation that was held, and how that ended.
fn end_held<D: Disk>(served: ServedRun<D>) -> (D, Ending)
    ensures disk { result.0 ≡ served.run.disk }
    ensures ended { IsHeldEnd served.run.done served.state result.1 }
{
    let ServedRun { run, state } = served;
    let Completion {
        disk,
        history: _,
        whole: _,
        done,
    } = run;
    (disk, ending_of(state, done.is_ok()))
}

// How a conversation ended that was not held.
fn refused_end(refusal: ImageRefusal) -> Result<Ending, AllocError>
    ensures { IsRefusedEnd refusal result }
{
    if refusal == ImageRefusal::DiskFault {
        return Ok(Ending::Failed);
    }
    if refusal == ImageRefusal::NoMemory {
        return Err(AllocError);
    }
    Ok(Ending::Refused(refusal))
}

// Holds a conversation over the image that a disk holds, and says how it ended.
fn serve_on<D: Disk, P: Port<Desk<D>>, R: AllocGlobal + Wait>(
    rt: &R,
    disk: D,
    agents: &[AgentScript],
    port: &mut P,
) -> (D, Result<Ending, AllocError>)
    requires few { length agents.now ≤ 64 }
    requires alone { HasNoScripts agents.now }
    ensures ended { EndedOn D.Disk P.tells P.said agents.now port.old port.new disk result.0 result.1 }
    ensures all { IfOk result.1 (λ ending. WasTold State.On ending → P.tells → P.rest port.new ≡ []) }
    ensures failed { IfOk result.1 (λ ending. WasTold State.Failed ending → Rose (P.faults port.old) (P.faults port.new)) }
{
    match serve_disk(rt, disk, agents, port) {
        Ok(served) => {
            let (disk, end) = end_held(served);
            (disk, Ok(end))
        }
        Err((disk, refusal)) => (disk, refused_end(refusal)),
    }
}

// How it ended where the disk did not come back.
fn broken(end: Result<Ending, AllocError>) -> Ending
    ensures { result ≡ broken_end end }
{
    match end {
        Ok(Ending::Held(state)) => Ending::Broken(state),
        Ok(Ending::Broken(state)) => Ending::Broken(state),
        Ok(Ending::Refused(_)) => Ending::Failed,
        Ok(Ending::Failed) => Ending::Failed,
        Err(_) => Ending::Failed,
    }
}

// Gives the disk of a conversation back, and then says how it ended.
fn end_at<H: Host>(
    host: &mut H,
    path: &str,
    disk: H::D,
    end: Result<Ending, AllocError>,
) -> Result<Ending, AllocError>
    ensures kept { IsGivenOr (H.tells → GivenBack (of_host H.Host host.old host.new) path.now (H.D.content disk) (H.D.moment disk) (H.D.since disk)) (Rose (H.own_faults host.old) (H.own_faults host.new)) end result }
    ensures back { H.tells → HostServed (of_host H.Host host.old host.new) → GivenBack (of_host H.Host host.old host.new) path.now (H.D.content disk) (H.D.moment disk) (H.D.since disk) }
    ensures returned { H.tells → IsReturned (of_host H.Host host.old host.new) path.now (H.D.content disk) (H.D.since disk 0) }
    ensures own_later { H.own_faults host.old ≤ H.own_faults host.new }
    ensures later { RoseBy (H.D.faults disk + (H.own_faults host.new - H.own_faults host.old)) (H.faults host.old) (H.faults host.new) }
{
    match host.give_back(path, disk) {
        Ok(()) => end,
        Err(_) => Ok(broken(end)),
    }
}

/// Holds a conversation of agents over the image at a path of a host. Where there is no memory to begin, nothing was heard or told.
/// However it ends, every other path is as before. The path has its image still where no conversation was held; where one was, also
/// where the disk was not given back, it has that image or one that the history may have left.
pub fn serve_at<H: Host, P: Port<Desk<H::D>>, R: AllocGlobal + Wait>(
    rt: &R,
    host: &mut H,
    path: &str,
    agents: &[AgentScript],
    port: &mut P,
) -> Result<Ending, AllocError>
    requires few { length agents.now ≤ 64 }
    requires alone { HasNoScripts agents.now }
    ensures ended { IfOk result (λ ending. IsEnding H.D.Disk (of_host H.Host host.old host.new) path.now P.tells P.said agents.now port.old port.new ending) }
    ensures unserved { OnErr result (IsUnserved (of_host H.Host host.old host.new) path.now port.old port.new) }
    ensures all { IfOk result (λ ending. WasTold State.On ending → P.tells → P.rest port.new ≡ []) }
    ensures failed { IfOk result (λ ending. WasTold State.Failed ending → Rose (P.faults port.old) (P.faults port.new)) }
    ensures others { H.tells → OthersAsBefore (of_host H.Host host.old host.new) path.now }
{
    let disk = match host.fetch(path) {
        Ok(disk) => disk,
        Err(HostStop::Failed) => return Ok(Ending::Failed),
        Err(HostStop::NoMemory) => return Err(AllocError),
    };
    let (disk, end) = serve_on(rt, disk, agents, port);
    end_at(host, path, disk, end)
}
