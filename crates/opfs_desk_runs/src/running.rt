//! The run of a script over an image.

ghost use Rattle.std.specs.Prelude.{◌≡◌, ◌≢◌, ◌+◌, ◌≤◌, [], length, true, Err, IfOk, IfErr, OnOk, OnErr};
ghost use Rattle.opfs_codec.specs.declared.change.Format.TheVariants.{New};
ghost use Rattle.opfs_desk.specs.Apart.{IsToldApart};
ghost use Rattle.opfs_desk.specs.Ending.{EndsFronts, EndsKept, EndsTime, KeepsSizes, LeavesFront, StandsWhole};
ghost use Rattle.opfs_desk.specs.Keeping.{EndsKeeping};
ghost use Rattle.opfs_desk.specs.Seen.{entries_of};
ghost use Rattle.opfs_desk_runs.specs.Runs.{IsRunOn, IsRunOver, opening_over};
ghost use Rattle.opfs_hist.specs.Faults.{disk_faults};
ghost use Rattle.opfs_image.specs.Reading.{read_as};
ghost use Rattle.opfs_journal.specs.Walking.{OnlyRead};
ghost use Rattle.opfs_outside.specs.Faults.{Rose, RoseBy};
ghost use Rattle.opfs_runner.specs.Run.Begun.{AreAgentsOf};
ghost use Rattle.opfs_script_run.specs.Stage.Runs.{EachCut, EachRuns};

use crate::agents::agents_of;
use opfs_desk::Desk;
use opfs_hist::History;
use opfs_image::{ImageRefusal, Recovered, recover};
use opfs_journal::DiskFault;
use opfs_outside::{Disk, Gate};
use opfs_runner::{Ran, run_scripts};
use opfs_script::AgentScript;
use std::sync::Wait;
use std::thread::Threads;

/// What a run leaves: the disk, the history, whether each agent was run whole (it was not only after want of memory), and how the
/// end went.
pub struct Completion<D> {
    pub disk: D,
    pub history: History,
    pub whole: bool,
    pub done: Result<(), DiskFault>,
}

/// Ends a run, of which it is known whether it was whole.
pub fn end_run<D: Disk>(desk: Desk<D>, whole: bool) -> Completion<D>
    ensures whole { result.whole ≡ whole }
    ensures history { result.history ≡ entries_of desk }
    ensures apart { IsToldApart D.tells desk.fixed.opening result.history }
    ensures stands { OnOk result.done (StandsWhole D.Disk desk result.disk) }
    ensures left { D.tells → LeavesFront D.Disk desk.fixed.opening result.history result.disk }
    ensures fronts { EndsFronts D.Disk desk result.disk }
    ensures keeps { EndsKept D.Disk desk result.disk }
    ensures stays { EndsKeeping D.Disk desk result.disk }
    ensures sizes { KeepsSizes D.Disk desk result.disk }
    ensures time { EndsTime D.Disk desk result.disk }
    ensures faults { RoseBy (disk_faults (entries_of desk)) (D.faults desk.fixed.begun) (D.faults result.disk) }
    ensures failed { OnErr result.done (RoseBy (disk_faults (entries_of desk) + 1) (D.faults desk.fixed.begun) (D.faults result.disk)) }
{
    desk.counts();
    let (disk, history, done) = desk.finish();
    Completion {
        disk,
        history,
        whole,
        done,
    }
}

// The disk of an image.
pub(crate) fn disk_of<D: Disk>(from: Recovered<D>) -> D
    ensures { result ≡ from.journal.disk }
{
    let Recovered { journal, .. } = from;
    journal.give_back()
}

// Runs the scripts of agents over a desk without entries that began with these agents.
fn run_desk<D: Disk + Send, R: AllocGlobal + Threads + Wait + Sync, G: Gate>(
    rt: &R,
    desk: Desk<D>,
    scripts: &[AgentScript],
    gate: &G,
) -> Result<Ran<Desk<D>>, Desk<D>>
    requires few { length scripts.now ≤ 64 }
    requires empty { entries_of desk ≡ [] }
    requires agents { AreAgentsOf desk.fixed.opening scripts.now }
    ensures fixed { IfOk result (λ ran. ran.store.fixed ≡ desk.fixed) }
    ensures cut { IfOk result (λ ran. EachCut scripts.now (entries_of ran.store)) }
    ensures run { IfOk result (λ ran. ran.whole ≡ true → EachRuns scripts.now (entries_of ran.store)) }
    ensures err { IfErr result (λ back. back ≡ desk) }
{
    let ran = run_scripts(rt, desk, scripts, gate)?;
    Ok(ran)
}

/// Runs the scripts of agents at the same time over an image that was recovered, each agent on a thread of its own, and ends the run.
/// Where there is no memory to begin, it gives the disk back, which it has not called.
pub fn run_image<D: Disk + Send, R: AllocGlobal + Threads + Wait + Sync, G: Gate>(
    rt: &R,
    from: Recovered<D>,
    scripts: &[AgentScript],
    gate: &G,
) -> Result<Completion<D>, D>
    requires few { length scripts.now ≤ 64 }
    ensures run { IfOk result (λ run. IsRunOver D.Disk from.geometry (opening_over D.Disk from scripts.now) scripts.now from.journal.disk run) }
    ensures err { IfErr result (λ disk. disk ≡ from.journal.disk) }
{
    let alloc = rt.alloc();
    let Ok(agents) = agents_of(alloc, scripts) else {
        return Err(disk_of(from));
    };
    let desk = Desk::make(alloc, from, agents)?;
    match run_desk(rt, desk, scripts, gate) {
        Ok(Ran { store, whole }) => Ok(end_run(store, whole)),
        Err(desk) => Err(desk.leave()),
    }
}

/// Recovers the image that a disk holds, and runs the scripts of agents over it, as `run_image` does. Where the image is refused, the disk
/// fails or there is no memory before that, it gives the disk back, which was only read.
pub fn run_disk<D: Disk + Send, R: AllocGlobal + Threads + Wait + Sync, G: Gate>(
    rt: &R,
    disk: D,
    scripts: &[AgentScript],
    gate: &G,
) -> Result<Completion<D>, (D, ImageRefusal)>
    requires few { length scripts.now ≤ 64 }
    ensures run { IfOk result (λ run. IsRunOn D.Disk scripts.now disk run) }
    ensures only { IfErr result (λ err. OnlyRead D.Disk disk err.0) }
    ensures refused { IfErr result (λ err. err.1 ≢ ImageRefusal.DiskFault → err.1 ≢ ImageRefusal.NoMemory → D.tells → read_as New New (D.content disk) ≡ Err err.1) }
    ensures cause { IfErr result (λ err. err.1 ≡ ImageRefusal.DiskFault → Rose (D.faults disk) (D.faults err.0)) }
{
    let from = match recover(rt.alloc(), disk) {
        Ok(from) => from,
        Err(refused) => return Err(refused),
    };
    match run_image(rt, from, scripts, gate) {
        Ok(run) => Ok(run),
        Err(disk) => Err((disk, ImageRefusal::NoMemory)),
    }
}
