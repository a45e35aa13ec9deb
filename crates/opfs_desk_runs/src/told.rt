//! The run of a script over an image, told while its agents run.

ghost use Rattle.std.specs.Prelude.{◌≡◌, ◌≢◌, ◌≤◌, [], length, true, Err, IfOk, IfErr, OnErr};
ghost use Rattle.opfs_codec.specs.declared.change.Format.TheVariants.{New};
ghost use Rattle.opfs_desk_runs.specs.Runs.{IsRunOn, IsRunOver, opening_over};
ghost use Rattle.opfs_image.specs.Reading.{read_as};
ghost use Rattle.opfs_journal.specs.Walking.{OnlyRead};
ghost use Rattle.opfs_outside.specs.Faults.{Rose};
ghost use Rattle.opfs_outside.specs.Turns.{of_sink};
ghost use Rattle.opfs_runner.specs.Run.Begun.{AreAgentsOf};
ghost use Rattle.opfs_script_run.specs.Stage.Runs.{EachCut, EachRuns};
ghost use Rattle.opfs_telling.specs.Telling.{HasPut};

use crate::agents::agents_of;
use crate::running::{Completion, disk_of, end_run};
use opfs_desk::Desk;
use opfs_image::{ImageRefusal, Recovered, recover};
use opfs_outside::{Disk, Gate, Sink};
use opfs_runner::{Ran, run_scripts};
use opfs_script::AgentScript;
use opfs_store::Store;
use opfs_telling::{Ended, Parts, State, Teller};
use std::sync::Wait;
use std::thread::Threads;

/// What a run leaves that was told: the run, and how it was told.
pub struct ToldRun<D> {
    pub run: Completion<D>,
    pub told: State,
}

// A store over which scripts were run, whether they were run whole, and how that was told.
struct ToldStore<S: Store> {
    store: S,
    whole: bool,
    told: State,
}

// Runs the scripts of agents over a store without entries that began with these agents, and tells their lines to a sink while they run.
// Where there is no memory to begin, it gives the store back, and nothing was told.
fn tell_scripts<S: Store + Send, K: Sink + Send, R: AllocGlobal + Threads + Wait + Sync, G: Gate>(
    rt: &R,
    store: S,
    scripts: &[AgentScript],
    gate: &G,
    sink: &mut K,
) -> Result<ToldStore<S>, S>
    requires few { length scripts.now ≤ 64 }
    requires empty { S.entries store ≡ [] }
    requires agents { AreAgentsOf (S.opened (S.opening store)) scripts.now }
    ensures opening { IfOk result (λ ran. S.opening ran.store ≡ S.opening store) }
    ensures cut { IfOk result (λ ran. EachCut scripts.now (S.entries ran.store)) }
    ensures run { IfOk result (λ ran. ran.whole ≡ true → EachRuns scripts.now (S.entries ran.store)) }
    ensures put { IfOk result (λ ran. HasPut (of_sink K.Sink sink.old sink.new) (S.entries ran.store) ran.told) }
    ensures later { K.faults sink.old ≤ K.faults sink.new }
    ensures err { IfErr result (λ back. back ≡ store) }
    ensures none { OnErr result (sink.new ≡ sink.old) }
{
    let teller = Teller::make(rt.alloc(), store, sink);
    match run_scripts(rt, teller, scripts, gate) {
        Ok(Ran { store, whole }) => {
            let Ended {
                store,
                sink: left,
                state: told,
            } = store.end();
            // (so the borrow ends where proofs see it)
            let _ = left;
            Ok(ToldStore { store, whole, told })
        }
        Err(teller) => {
            let Parts {
                store,
                sink: left,
                progress: _,
            } = teller.into_parts();
            let _ = left;
            Err(store)
        }
    }
}

/// Runs the scripts of agents over an image as `run_image` does, and tells their lines to a sink while they run. Where there is no memory
/// to begin, nothing was told.
pub fn tell_image<D: Disk + Send, K: Sink + Send, R: AllocGlobal + Threads + Wait + Sync, G: Gate>(
    rt: &R,
    from: Recovered<D>,
    scripts: &[AgentScript],
    gate: &G,
    sink: &mut K,
) -> Result<ToldRun<D>, D>
    requires few { length scripts.now ≤ 64 }
    ensures run { IfOk result (λ told. IsRunOver D.Disk from.geometry (opening_over D.Disk from scripts.now) scripts.now from.journal.disk told.run) }
    ensures put { IfOk result (λ told. HasPut (of_sink K.Sink sink.old sink.new) told.run.history told.told) }
    ensures later { K.faults sink.old ≤ K.faults sink.new }
    ensures err { IfErr result (λ disk. disk ≡ from.journal.disk) }
    ensures none { OnErr result (sink.new ≡ sink.old) }
{
    let alloc = rt.alloc();
    let Ok(agents) = agents_of(alloc, scripts) else {
        return Err(disk_of(from));
    };
    let desk = Desk::make(alloc, from, agents)?;
    match tell_scripts(rt, desk, scripts, gate, sink) {
        Ok(ToldStore { store, whole, told }) => Ok(ToldRun {
            run: end_run(store, whole),
            told,
        }),
        Err(desk) => Err(desk.leave()),
    }
}

/// Recovers the image that a disk holds, and runs the scripts of agents over it, as `tell_image` does. Where the image is refused, the disk
/// fails or there is no memory before that, it gives the disk back, which was only read, and nothing was told.
pub fn tell_disk<D: Disk + Send, K: Sink + Send, R: AllocGlobal + Threads + Wait + Sync, G: Gate>(
    rt: &R,
    disk: D,
    scripts: &[AgentScript],
    gate: &G,
    sink: &mut K,
) -> Result<ToldRun<D>, (D, ImageRefusal)>
    requires few { length scripts.now ≤ 64 }
    ensures run { IfOk result (λ told. IsRunOn D.Disk scripts.now disk told.run) }
    ensures put { IfOk result (λ told. HasPut (of_sink K.Sink sink.old sink.new) told.run.history told.told) }
    ensures later { K.faults sink.old ≤ K.faults sink.new }
    ensures only { IfErr result (λ err. OnlyRead D.Disk disk err.0) }
    ensures refused { IfErr result (λ err. err.1 ≢ ImageRefusal.DiskFault → err.1 ≢ ImageRefusal.NoMemory → D.tells → read_as New New (D.content disk) ≡ Err err.1) }
    ensures cause { IfErr result (λ err. err.1 ≡ ImageRefusal.DiskFault → Rose (D.faults disk) (D.faults err.0)) }
    ensures none { OnErr result (sink.new ≡ sink.old) }
{
    let from = match recover(rt.alloc(), disk) {
        Ok(from) => from,
        Err(refused) => return Err(refused),
    };
    match tell_image(rt, from, scripts, gate, sink) {
        Ok(told) => Ok(told),
        Err(disk) => Err((disk, ImageRefusal::NoMemory)),
    }
}
