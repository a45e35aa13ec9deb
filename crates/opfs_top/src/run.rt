//! A run of a script over the image at a path.

ghost use Rattle.std.specs.Prelude.{◌≡◌, ◌≤◌, IfOk};
ghost use Rattle.opfs_commands.specs.Ran.{IsRunShort, IsRunText};
ghost use Rattle.opfs_outside.specs.Turns.{of_host, of_sink, of_source, OthersAsBefore};
ghost use Rattle.opfs_top.specs.Answers.{BytesRan, IsTold, RunEnded, SourceRan};
ghost use Rattle.opfs_top.specs.Doing.{IsEarly, LeavesRun, OfSource};
ghost use Rattle.opfs_top.specs.Headline.{LeavesOf, OfScript};

use crate::answer::{Answer, line_of, refused};
use crate::input::{Input, read_all};
use crate::status::{Status, status_of};
use opfs_commands::run_at;
use opfs_outside::{Gate, Host, Sink, Source};
use opfs_print::{BadScript, End};
use opfs_script::{Script, read_script};
use std::alloc::AllocError;
use std::sync::Wait;
use std::thread::Threads;

// Runs the agents of a script over the image at a path, and puts their transcript out.
fn run_agents<R: AllocGlobal + Threads + Wait + Sync, H: Host, G: Gate, K: Sink + Send>(
    rt: &R,
    host: &mut H,
    path: &str,
    script: &Script,
    gate: &G,
    sink: &mut K,
) -> Result<Answer, AllocError>
    ensures told { IsTold (of_sink K.Sink sink.old sink.new) (IsRunText (of_host H.Host host.old host.new) path.now script.now) (RunEnded (of_host H.Host host.old host.new) path.now script.now) result }
    ensures later { K.faults sink.old ≤ K.faults sink.new }
    ensures left { IsRunShort (of_host H.Host host.old host.new) path.now script.now }
    ensures others { H.tells → OthersAsBefore (of_host H.Host host.old host.new) path.now }
{
    let answer = run_at(rt, host, path, script, gate, sink)?;
    Ok(Answer {
        status: status_of(answer.end),
        text: answer.text,
    })
}

// Runs the script that bytes are over the image at a path.
fn run_bytes<R: AllocGlobal + Threads + Wait + Sync, H: Host, G: Gate, K: Sink + Send>(
    rt: &R,
    host: &mut H,
    path: &str,
    bytes: &[u8],
    gate: &G,
    sink: &mut K,
) -> Result<Answer, AllocError>
    ensures told { IsTold (of_sink K.Sink sink.old sink.new) (OfScript (IsRunText (of_host H.Host host.old host.new) path.now) bytes.now) (BytesRan (of_host H.Host host.old host.new) path.now bytes.now) result }
    ensures later { K.faults sink.old ≤ K.faults sink.new }
    ensures left { LeavesOf (of_host H.Host host.old host.new) path.now bytes.now }
    ensures others { H.tells → OthersAsBefore (of_host H.Host host.old host.new) path.now }
    ensures early { IfOk result (λ answer. IsEarly answer.status → host.new ≡ host.old) }
{
    match read_script(rt.alloc(), bytes) {
        Ok(script) => {
            let answer = run_agents(rt, host, path, &script, gate, sink)?;
            Ok(answer)
        }
        Err(why) => {
            let answer = refused(rt.alloc(), why)?;
            Ok(answer)
        }
    }
}

/// Runs the script that a source gives over the image at a path, and puts its transcript out while its agents run.
pub fn run_script_at<
    R: AllocGlobal + Threads + Wait + Sync,
    H: Host,
    S: Source,
    G: Gate,
    K: Sink + Send,
>(
    rt: &R,
    host: &mut H,
    path: &str,
    source: &mut S,
    gate: &G,
    sink: &mut K,
) -> Result<Answer, AllocError>
    ensures told { IsTold (of_sink K.Sink sink.old sink.new) (OfSource (of_source S.Source source.old source.new) (OfScript (IsRunText (of_host H.Host host.old host.new) path.now))) (SourceRan (of_source S.Source source.old source.new) (of_host H.Host host.old host.new) path.now) result }
    ensures later { K.faults sink.old ≤ K.faults sink.new }
    ensures left { LeavesRun (of_source S.Source source.old source.new) (of_host H.Host host.old host.new) path.now }
    ensures others { H.tells → OthersAsBefore (of_host H.Host host.old host.new) path.now }
    ensures early { IfOk result (λ answer. IsEarly answer.status → host.new ≡ host.old) }
{
    let alloc = rt.alloc();
    let (status, end) = match read_all(alloc, source) {
        Input::Whole(bytes) => return run_bytes(rt, host, path, bytes.as_slice(), gate, sink),
        Input::TooFar => (Status::Script, End::Script(BadScript::TooMany)),
        Input::Failed => (Status::Source, End::Source),
        Input::NoMemory => return Err(AllocError),
    };
    let text = line_of(alloc, end)?;
    Ok(Answer { status, text })
}
