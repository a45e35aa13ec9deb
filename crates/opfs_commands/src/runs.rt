//! A run of a script over the image at a path of a host.
ghost use Rattle.std.specs.Prelude.{◌≡◌, ◌+◌, ◌-◌, ◌≤◌, IfOk};
ghost use Rattle.opfs_outside.specs.Faults.{Rose, RoseBy};
ghost use Rattle.opfs_outside.specs.Turns.{of_host, of_sink, GivenBack, HostServed, IsReturned, OthersAsBefore};
ghost use Rattle.opfs_commands.specs.Ran.{IsAnswerOf, IsEndOf, IsFaultOf, IsGivenOr, IsRefusedEnd, RanAt, RanOn};

use crate::answers::{ToolAnswer, ToolEnd, bare_answer, host_answer, refused_answer};
use opfs_desk_runs::{Completion, ToldRun, tell_disk};
use opfs_image::ImageRefusal;
use opfs_journal::DiskFault;
use opfs_outside::{Disk, Gate, Host, HostStop, Sink};
use opfs_script::Script;
use opfs_telling::State;
use std::alloc::{AllocError, Global};
use std::sync::Wait;
use std::thread::Threads;

/// How a run over a disk ended, before the disk is given back.
#[derive(Drop)]
pub(crate) enum RunEnd {
    /// The agents ran, and the transcript went out.
    Done,
    /// The same, but the disk failed in the end.
    Failed,
    /// The agents ran, and the sink failed within the transcript.
    Cut,
    /// They did not run, and this is the answer.
    Before(ToolAnswer),
}

// How a run ended, of which it is known whether it was whole, how it was told, and how its end went.
fn ended(whole: bool, told: State, done: Result<(), DiskFault>) -> Result<RunEnd, AllocError>
    ensures { IsEndOf whole told done result }
{
    if !whole {
        return Err(AllocError);
    }
    match told {
        State::Short => Err(AllocError),
        State::Failed => Ok(RunEnd::Cut),
        State::On => match done {
            Ok(()) => Ok(RunEnd::Done),
            Err(_) => Ok(RunEnd::Failed),
        },
    }
}

// How a run ended that left this.
fn end_run<D: Disk>(told: ToldRun<D>) -> (D, Result<RunEnd, AllocError>)
    ensures disk { result.0 ≡ told.run.disk }
    ensures ended { IsEndOf told.run.whole told.told told.run.done result.1 }
{
    let ToldRun { run, told } = told;
    let Completion {
        disk,
        history: _,
        whole,
        done,
    } = run;
    (disk, ended(whole, told, done))
}

// The answer where the image is refused, or the disk failed.
fn refused_end(alloc: Global, refusal: ImageRefusal) -> Result<RunEnd, AllocError>
    ensures { IfOk result (λ end. IsRefusedEnd refusal end) }
{
    let answer = refused_answer(alloc, refusal)?;
    Ok(RunEnd::Before(answer))
}

// Runs the agents of a script over the image that a disk holds, and tells their lines.
fn run_on<R: AllocGlobal + Threads + Wait + Sync, D: Disk + Send, G: Gate, K: Sink + Send>(
    rt: &R,
    disk: D,
    script: &Script,
    gate: &G,
    sink: &mut K,
) -> (D, Result<RunEnd, AllocError>)
    ensures ran { RanOn D.Disk (of_sink K.Sink sink.old sink.new) script.now disk result.0 result.1 }
    ensures later { K.faults sink.old ≤ K.faults sink.new }
{
    match tell_disk(rt, disk, script.agents(), gate, sink) {
        Ok(told) => end_run(told),
        Err((disk, refusal)) => (disk, refused_end(rt.alloc(), refusal)),
    }
}

// The answer where the disk was given back.
fn answer_of(alloc: Global, end: RunEnd) -> Result<ToolAnswer, AllocError>
    ensures { IfOk result (λ answer. IsAnswerOf end answer) }
{
    match end {
        RunEnd::Done => Ok(bare_answer(alloc, ToolEnd::Done)),
        RunEnd::Failed => host_answer(alloc),
        RunEnd::Cut => Ok(bare_answer(alloc, ToolEnd::Sink)),
        RunEnd::Before(answer) => Ok(answer),
    }
}

// The answer where it was not.
fn fault_of(alloc: Global, end: RunEnd) -> Result<ToolAnswer, AllocError>
    ensures { IfOk result (λ answer. IsFaultOf end answer) }
{
    match end {
        RunEnd::Cut => Ok(bare_answer(alloc, ToolEnd::Sink)),
        RunEnd::Done | RunEnd::Failed | RunEnd::Before(_) => host_answer(alloc),
    }
}

// Gives the disk of a run back, and then the answer.
fn end_at<H: Host>(
    alloc: Global,
    host: &mut H,
    path: &str,
    disk: H::D,
    end: Result<RunEnd, AllocError>,
) -> Result<ToolAnswer, AllocError>
    ensures kept { IsGivenOr (H.tells → GivenBack (of_host H.Host host.old host.new) path.now (H.D.content disk) (H.D.moment disk) (H.D.since disk)) (Rose (H.own_faults host.old) (H.own_faults host.new)) end result }
    ensures back { H.tells → HostServed (of_host H.Host host.old host.new) → GivenBack (of_host H.Host host.old host.new) path.now (H.D.content disk) (H.D.moment disk) (H.D.since disk) }
    ensures returned { H.tells → IsReturned (of_host H.Host host.old host.new) path.now (H.D.content disk) (H.D.since disk 0) }
    ensures own_later { H.own_faults host.old ≤ H.own_faults host.new }
    ensures later { RoseBy (H.D.faults disk + (H.own_faults host.new - H.own_faults host.old)) (H.faults host.old) (H.faults host.new) }
{
    let back = host.give_back(path, disk);
    let end = end?;
    match back {
        Ok(()) => answer_of(alloc, end),
        Err(_) => fault_of(alloc, end),
    }
}

/// Runs the agents of a script over the image at a path of a host, each on a thread of its own, and puts their transcript out while they
/// run. Where a disk or the host failed only in the end, the answer's text is the line of a fault, which stands behind the transcript.
/// However it ends, every other path is as before. The path has its image still where the agents did not run; where they did, also where
/// the disk was not given back, it has that image or one that the run may have left.
pub fn run_at<R: AllocGlobal + Threads + Wait + Sync, H: Host, G: Gate, K: Sink + Send>(
    rt: &R,
    host: &mut H,
    path: &str,
    script: &Script,
    gate: &G,
    sink: &mut K,
) -> Result<ToolAnswer, AllocError>
    ensures ran { RanAt (of_host H.Host host.old host.new) (of_sink K.Sink sink.old sink.new) path.now script.now result }
    ensures others { H.tells → OthersAsBefore (of_host H.Host host.old host.new) path.now }
    ensures later { K.faults sink.old ≤ K.faults sink.new }
{
    let alloc = rt.alloc();
    let disk = match host.fetch(path) {
        Ok(disk) => disk,
        Err(HostStop::Failed) => return host_answer(alloc),
        Err(HostStop::NoMemory) => return Err(AllocError),
    };
    let (disk, end) = run_on(rt, disk, script, gate, sink);
    end_at(alloc, host, path, disk, end)
}
