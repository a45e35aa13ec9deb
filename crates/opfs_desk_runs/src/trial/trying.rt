//! The trial of a script.

ghost use Rattle.std.specs.Prelude.{◌≡◌, true, IfOk, OnOk};
ghost use Rattle.opfs_desk_runs.specs.Trial.Empty.{IsEmptyImage, NeverFails};
ghost use Rattle.opfs_judge.specs.Trial.Trials.{IsTrial};

use crate::trial::empty::empty_image;
use crate::{Completion, run_disk};
use opfs_hist::Entries;
use opfs_image::ImageRefusal;
use opfs_outside::{Disk, Gate};
use opfs_script::Script;
use std::alloc::AllocError;
use std::sync::Wait;
use std::thread::Threads;

// The history of a run. Where that was not whole, memory was short.
fn whole_history<D>(run: Completion<D>) -> (D, Result<Entries, AllocError>)
    ensures whole { OnOk result.1 (run.whole ≡ true) }
    ensures history { IfOk result.1 (λ history. history ≡ run.history) }
{
    let Completion {
        disk,
        history,
        whole,
        done,
    } = run;
    drop(done);
    match history.whole() {
        Some(entries) if whole => (disk, Ok(entries)),
        _ => (disk, Err(AllocError)),
    }
}

// The one refusal that an image which is none can have.
fn short_of_memory(refusal: ImageRefusal) -> AllocError
    requires { refusal ≡ ImageRefusal.NoMemory }
{
    match refusal {
        ImageRefusal::NoMemory => AllocError,
        _ => unreachable!(),
    }
}

// Runs a script's agents over an empty image on a disk that never fails.
fn run_on<R: AllocGlobal + Threads + Wait + Sync, D: Disk + Send, G: Gate>(
    rt: &R,
    disk: D,
    script: &Script,
    gate: &G,
) -> (D, Result<Entries, AllocError>)
    requires tells { D.tells }
    requires empty { IsEmptyImage (D.content disk) }
    requires never { NeverFails D.Disk }
    ensures { IfOk result.1 (λ history. IsTrial script.now history) }
{
    match run_disk(rt, disk, script.agents(), gate) {
        Ok(run) => whole_history(run),
        Err((disk, refusal)) => (disk, Err(short_of_memory(refusal))),
    }
}

/// Runs a script's agents at the same time, each on a thread of its own, over an empty store: all entries are one legal history,
/// in which each agent's calls stand once, in its order, and each party's answers are those of its own calls, the recorded
/// evictions and the recorded refusals of shared room.
pub fn try_script<R: AllocGlobal + Threads + Wait + Sync, G: Gate>(
    rt: &R,
    script: &Script,
    gate: &G,
) -> Result<Entries, AllocError>
    ensures { IfOk result (λ history. IsTrial script.now history) }
{
    let disk = empty_image(rt.alloc())?;
    let (disk, history) = run_on(rt, disk, script, gate);
    drop(disk);
    history
}
