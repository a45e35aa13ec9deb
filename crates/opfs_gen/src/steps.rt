//! The steps of a round.

ghost use Rattle.std.specs.Prelude.{◌≡◌, ◌∷◌, ◌++◌, [], codes, replicate, true, false, Some, IfOk, OnOk};
ghost use Rattle.opfs_gen.specs.Rounds.{handle_steps, name_of, read_steps, removal_steps, round_steps, stream_steps};
ghost use Rattle.opfs_script.specs.declared.step.Step.TheVariants as step;

use crate::drawing::Round;
use opfs_base::{Data, Text};
use opfs_script::Step;
use std::alloc::{AllocError, Global};

/// The file of a round, by its name.
fn name(alloc: Global, round: &Round) -> Result<Text, AllocError>
    ensures { IfOk result (λ name. name ≡ name_of round.now) }
{
    let file = round.file;
    let text = format!(in alloc; "f{file}")?;
    let name = Text::copy_of(alloc, text.as_str())?;
    Ok(name)
}

/// The directory of an agent.
pub fn directory(alloc: Global) -> Result<Step, AllocError>
    ensures { IfOk result (λ made. made ≡ step.GetDirectory (codes "default") (codes "d")) }
{
    let bucket = Text::copy_of(alloc, "default")?;
    let bind = Text::copy_of(alloc, "d")?;
    Ok(Step::GetDirectory { bucket, bind })
}

fn file(alloc: Global, round: &Round, create: bool) -> Result<Step, AllocError>
    ensures { IfOk result (λ made. made ≡ step.GetFileHandle (codes "d") (name_of round.now) create (codes "h")) }
{
    let dir = Text::copy_of(alloc, "d")?;
    let name = name(alloc, round)?;
    let bind = Text::copy_of(alloc, "h")?;
    Ok(Step::GetFileHandle {
        dir,
        name,
        create,
        bind,
    })
}

fn stream(alloc: Global) -> Result<Step, AllocError>
    ensures { IfOk result (λ made. made ≡ step.CreateWritable (codes "h") true (codes "w")) }
{
    let file = Text::copy_of(alloc, "h")?;
    let bind = Text::copy_of(alloc, "w")?;
    Ok(Step::CreateWritable {
        file,
        keep: true,
        bind,
    })
}

fn write(alloc: Global, round: &Round) -> Result<Step, AllocError>
    ensures { IfOk result (λ made. made ≡ step.Write (codes "w") (replicate round.now.count round.now.byte) (Some round.now.position)) }
{
    let stream = Text::copy_of(alloc, "w")?;
    Ok(Step::Write {
        stream,
        bytes: Data::filled(round.byte, round.count),
        position: Some(round.position),
    })
}

fn close(alloc: Global) -> Result<Step, AllocError>
    ensures { IfOk result (λ made. made ≡ step.Close (codes "w")) }
{
    let stream = Text::copy_of(alloc, "w")?;
    Ok(Step::Close { stream })
}

fn handle(alloc: Global) -> Result<Step, AllocError>
    ensures { IfOk result (λ made. made ≡ step.CreateSyncAccessHandle (codes "h") false (codes "s")) }
{
    let file = Text::copy_of(alloc, "h")?;
    let bind = Text::copy_of(alloc, "s")?;
    Ok(Step::CreateSyncAccessHandle {
        file,
        read_only: false,
        bind,
    })
}

fn sync_write(alloc: Global, round: &Round) -> Result<Step, AllocError>
    ensures { IfOk result (λ made. made ≡ step.SyncWrite (codes "s") (replicate round.now.count round.now.byte) (Some round.now.position)) }
{
    let sync = Text::copy_of(alloc, "s")?;
    Ok(Step::SyncWrite {
        sync,
        bytes: Data::filled(round.byte, round.count),
        at: Some(round.position),
    })
}

fn sync_close(alloc: Global) -> Result<Step, AllocError>
    ensures { IfOk result (λ made. made ≡ step.SyncClose (codes "s")) }
{
    let sync = Text::copy_of(alloc, "s")?;
    Ok(Step::SyncClose { sync })
}

fn snapshot(alloc: Global) -> Result<Step, AllocError>
    ensures { IfOk result (λ made. made ≡ step.GetFile (codes "h") (codes "g")) }
{
    let file = Text::copy_of(alloc, "h")?;
    let bind = Text::copy_of(alloc, "g")?;
    Ok(Step::GetFile { file, bind })
}

fn slice(alloc: Global) -> Result<Step, AllocError>
    ensures { IfOk result (λ made. made ≡ step.Slice (codes "g") 0 64) }
{
    let snapshot = Text::copy_of(alloc, "g")?;
    Ok(Step::Slice {
        snapshot,
        at: 0,
        len: 64,
    })
}

fn removal(alloc: Global, round: &Round) -> Result<Step, AllocError>
    ensures { IfOk result (λ made. made ≡ step.RemoveEntry (codes "d") (name_of round.now) false) }
{
    let dir = Text::copy_of(alloc, "d")?;
    let name = name(alloc, round)?;
    Ok(Step::RemoveEntry {
        dir,
        name,
        recursive: false,
    })
}

/// Adds what writes by a stream.
fn add_stream(alloc: Global, round: &Round, steps: &mut Vec<Step>) -> Result<(), AllocError>
    ensures { OnOk result (steps.new.items ≡ steps.old.items ++ stream_steps round.now) }
{
    steps.push(file(alloc, round, true)?)?;
    steps.push(stream(alloc)?)?;
    steps.push(write(alloc, round)?)?;
    steps.push(close(alloc)?)?;
    Ok(())
}

/// Adds what writes by an access handle.
fn add_handle(alloc: Global, round: &Round, steps: &mut Vec<Step>) -> Result<(), AllocError>
    ensures { OnOk result (steps.new.items ≡ steps.old.items ++ handle_steps round.now) }
{
    steps.push(file(alloc, round, true)?)?;
    steps.push(handle(alloc)?)?;
    steps.push(sync_write(alloc, round)?)?;
    steps.push(sync_close(alloc)?)?;
    Ok(())
}

/// Adds what reads.
fn add_read(alloc: Global, round: &Round, steps: &mut Vec<Step>) -> Result<(), AllocError>
    ensures { OnOk result (steps.new.items ≡ steps.old.items ++ read_steps round.now) }
{
    steps.push(file(alloc, round, false)?)?;
    steps.push(snapshot(alloc)?)?;
    steps.push(slice(alloc)?)?;
    Ok(())
}

/// Adds what removes a file.
fn add_removal(alloc: Global, round: &Round, steps: &mut Vec<Step>) -> Result<(), AllocError>
    ensures { OnOk result (steps.new.items ≡ steps.old.items ++ removal_steps round.now) }
{
    steps.push(removal(alloc, round)?)?;
    Ok(())
}

/// Adds the steps of a round.
#[tactic(auto, unfolding(crate::specs::Rounds::round_steps))]
pub fn add_round(alloc: Global, round: &Round, steps: &mut Vec<Step>) -> Result<(), AllocError>
    ensures { OnOk result (steps.new.items ≡ steps.old.items ++ round_steps round.now) }
{
    match round.act {
        0 => add_stream(alloc, round, steps),
        1 => add_handle(alloc, round, steps),
        2 => add_read(alloc, round, steps),
        _ => add_removal(alloc, round, steps),
    }
}
