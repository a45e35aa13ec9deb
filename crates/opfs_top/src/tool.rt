//! Which command words ask for, and how it ends.

ghost use Rattle.std.specs.Prelude.{◌≡◌, ◌≢◌, ◌⊎◌, ◌≤◌, IfOk};
ghost use Rattle.opfs_base.specs.Texts.{Text};
ghost use Rattle.opfs_commands.specs.Commands.{running, spelled, AsksNothing, Asks, InRange};
ghost use Rattle.opfs_commands.specs.Kinds.{DoneKind, MadeKind, IsDumping, IsMaking, IsReading, IsMigration, LeavesMade};
ghost use Rattle.opfs_commands.specs.Telling.{IsStoodFor, StandsForText};
ghost use Rattle.opfs_machine.specs.Openings.{Map};
ghost use Rattle.opfs_migrate.specs.Migrating.{StandsEither};
ghost use Rattle.opfs_outside.specs.Turns.{of_host, of_sink, of_source, AsBefore, ImageStays, OthersAsBefore};
ghost use Rattle.opfs_top.specs.Answers.{ImageEnded, IsTold, IsUnmadeBy, LoadEnded};
ghost use Rattle.opfs_top.specs.Doing.{Dumped, Ended, IsEarly, IsTool, LeavesNew, LeavesRun, Makes, Migrates, Names, Printed, TakesImage, Tells, ToolEnded};

use crate::answer::{Answer, Task, answer_large_run, answer_nothing, answer_script};
use crate::run::run_script_at;
use crate::status::{Status, status_of};
use opfs_base::Words;
use opfs_commands::{Action, Command, ToolEnd, load_at, read_command, run_command};
use opfs_outside::{Gate, Host, Sink, Source};
use std::alloc::{AllocError, Global};
use std::sync::Wait;
use std::thread::Threads;

// How a command on the image at a path ends, and what it is to put out.
fn answer_image<H: Host, K: Sink>(
    alloc: Global,
    host: &mut H,
    path: &str,
    action: Action,
    sink: &mut K,
) -> Result<Answer, AllocError>
    requires { InRange action }
    ensures told { IsTold (of_sink K.Sink sink.old sink.new) (λ text. IsDumping action × (H.tells → DoneKind action (H.image host.old path.now) (H.image host.new path.now) text)) (ImageEnded (of_host H.Host host.old host.new) path.now action) result }
    ensures others { H.tells → OthersAsBefore (of_host H.Host host.old host.new) path.now }
    ensures reads { IsReading action → H.tells → ImageStays (of_host H.Host host.old host.new) path.now }
    ensures refused { IfOk result (λ answer. answer.status ≡ Status.Image → H.tells → ImageStays (of_host H.Host host.old host.new) path.now) }
    ensures trail { IsMigration action → H.tells → (m : Map) → IsStoodFor m (H.image host.old path.now) → (c : Text) → H.trail host.new path.now c → H.trail host.old path.now c ⊎ StandsEither m c }
    ensures made { IsMaking action → H.tells → LeavesMade (of_host H.Host host.old host.new) path.now (MadeKind action) (IsUnmadeBy result) }
    ensures later { K.faults sink.old ≤ K.faults sink.new }
{
    let answer = run_command(alloc, host, path, action, sink)?;
    Ok(Answer {
        status: status_of(answer.end),
        text: answer.text,
    })
}

// How making an image from a text ends, and what it is to put out.
fn answer_load<H: Host>(
    alloc: Global,
    host: &mut H,
    image: &str,
    text: &str,
) -> Result<Answer, AllocError>
    ensures ended { IfOk result (λ answer. LoadEnded (of_host H.Host host.old host.new) image.now text.now answer.status answer.text) }
    ensures others { H.tells → (path : Text) → path ≢ image.now → path ≢ text.now → AsBefore (of_host H.Host host.old host.new) path }
    ensures reads { H.tells → text.now ≢ image.now → ImageStays (of_host H.Host host.old host.new) text.now }
    ensures refused { IfOk result (λ answer. answer.status ≡ Status.Image → H.tells → (path : Text) → ImageStays (of_host H.Host host.old host.new) path) }
    ensures made { H.tells → LeavesMade (of_host H.Host host.old host.new) image.now (StandsForText (H.image host.old text.now)) (IsUnmadeBy result) }
{
    let answer = load_at(alloc, host, image, text)?;
    Ok(Answer {
        status: status_of(answer.end),
        text: answer.text,
    })
}

/// How the command on an image ends that words ask for, and what it is to put out behind what it has put out.
pub fn answer_tool<H: Host, K: Sink>(
    alloc: Global,
    words: &Words,
    host: &mut H,
    sink: &mut K,
) -> Result<Answer, AllocError>
    ensures told { IsTold (of_sink K.Sink sink.old sink.new) (λ text. Asks words.now (λ command. Dumped command (of_host H.Host host.old host.new) text)) (ToolEnded words.now (of_host H.Host host.old host.new)) result }
    ensures others { H.tells → (path : Text) → (Asks words.now (Names path) → ⊥) → AsBefore (of_host H.Host host.old host.new) path }
    ensures reads { H.tells → (path : Text) → Asks words.now (Tells path) → ImageStays (of_host H.Host host.old host.new) path }
    ensures refused { IfOk result (λ answer. answer.status ≡ Status.Image → H.tells → (path : Text) → Asks words.now (Names path) → ImageStays (of_host H.Host host.old host.new) path) }
    ensures trail { H.tells → (path : Text) → Asks words.now (Migrates path) → (m : Map) → IsStoodFor m (H.image host.old path) → (c : Text) → H.trail host.new path c → H.trail host.old path c ⊎ StandsEither m c }
    ensures made { H.tells → (path : Text) → Asks words.now (Makes path) → LeavesNew words.now (of_host H.Host host.old host.new) path (IsUnmadeBy result) }
    ensures none { (Asks words.now IsTool → ⊥) → host.new ≡ host.old }
    ensures later { K.faults sink.old ≤ K.faults sink.new }
{
    match read_command(words) {
        Some(Command::OnImage(path, action)) => answer_image(alloc, host, path, action, sink),
        Some(Command::Load(image, text)) => answer_load(alloc, host, image, text),
        Some(Command::Run(_)) => answer_nothing(alloc),
        Some(Command::Try) => answer_nothing(alloc),
        Some(Command::Judge) => answer_nothing(alloc),
        Some(Command::Generate(_)) => answer_nothing(alloc),
        None => answer_nothing(alloc),
    }
}

/// How the command ends that words ask for, and what it is to put out behind what it has put out.
pub fn answer_to<
    R: AllocGlobal + Threads + Wait + Sync,
    H: Host,
    S: Source,
    K: Sink + Send,
    G: Gate,
>(
    rt: &R,
    words: &Words,
    host: &mut H,
    source: &mut S,
    sink: &mut K,
    gate: &G,
) -> Result<Answer, AllocError>
    ensures told { IsTold (of_sink K.Sink sink.old sink.new) (λ text. Asks words.now (λ command. Printed command (of_source S.Source source.old source.new) (of_host H.Host host.old host.new) text)) (Ended words.now (of_source S.Source source.old source.new) (of_host H.Host host.old host.new)) result }
    ensures others { H.tells → (path : Text) → (Asks words.now (Names path) → ⊥) → AsBefore (of_host H.Host host.old host.new) path }
    ensures reads { H.tells → (path : Text) → Asks words.now (Tells path) → ImageStays (of_host H.Host host.old host.new) path }
    ensures refused { IfOk result (λ answer. answer.status ≡ Status.Image → H.tells → (path : Text) → Asks words.now (Names path) → ImageStays (of_host H.Host host.old host.new) path) }
    ensures trail { H.tells → (path : Text) → Asks words.now (Migrates path) → (m : Map) → IsStoodFor m (H.image host.old path) → (c : Text) → H.trail host.new path c → H.trail host.old path c ⊎ StandsEither m c }
    ensures made { H.tells → (path : Text) → Asks words.now (Makes path) → LeavesNew words.now (of_host H.Host host.old host.new) path (IsUnmadeBy result) }
    ensures left { (path : Text) → words.now ≡ spelled (running path) → LeavesRun (of_source S.Source source.old source.new) (of_host H.Host host.old host.new) path }
    ensures early { IfOk result (λ answer. IsEarly answer.status → host.new ≡ host.old) }
    ensures none { (Asks words.now TakesImage → ⊥) → host.new ≡ host.old }
    ensures later { K.faults sink.old ≤ K.faults sink.new }
{
    let alloc = rt.alloc();
    match read_command(words) {
        Some(Command::OnImage(path, action)) => answer_image(alloc, host, path, action, sink),
        Some(Command::Load(image, text)) => answer_load(alloc, host, image, text),
        Some(Command::Run(path)) => run_script_at(rt, host, path, source, gate, sink),
        Some(Command::Try) => answer_script(rt, Task::Try, source, gate),
        Some(Command::Judge) => answer_script(rt, Task::Judge, source, gate),
        Some(Command::Generate(numbers)) => answer_large_run(rt, numbers, gate),
        None => answer_nothing(alloc),
    }
}
