//! The program's call.

ghost use Rattle.std.specs.Prelude.{◌≡◌, ◌∷◌, ◌≤◌, [], length, IfOk, IfSome, List, OnErr, ℕ};
ghost use Rattle.std.specs.Option.{IfNone};
ghost use Rattle.opfs_commands.specs.Telling.{IsLineOf};
ghost use Rattle.opfs_image.specs.declared.refusal.ImageRefusal.{ImageRefusal as ARefusal};
ghost use Rattle.opfs_outside.specs.Faults.{Rose};
ghost use Rattle.opfs_outside.specs.Turns.{of_host, AsBefore, OthersAsBefore};
ghost use Rattle.opfs_print.specs.Status.{status_text};
ghost use Rattle.opfs_print.specs.declared.end.End.TheVariants as end;
ghost use Rattle.opfs_serve_top.specs.Endings.{IsUnserved};
ghost use Rattle.opfs_serve_top.specs.Headline.{Asks, AsksNothing, EndsAt, EndsBy, EndsFor, IsReplyTo, IsUnanswered, status_of};
ghost use Rattle.opfs_serving.specs.Served.{HasNoScripts};
ghost use Rattle.opfs_top.specs.Doing.{IsEarly, IsRefusal};

use crate::first::{First, hear_first};
use crate::host::{Ending, serve_at};
use opfs_base::{Bytes, Words};
use opfs_desk::Desk;
use opfs_image::ImageRefusal;
use opfs_outside::Host;
use opfs_port::Port;
use opfs_print::{BadImage, BadScript, End, status_line};
use opfs_script::{AgentScript, ScriptRefusal};
use opfs_serving::State;
use opfs_top::Status;
use std::alloc::{AllocError, Global};
use std::str;
use std::sync::Wait;

/// How the program ends, and the line that says so, which is empty where all was done.
#[derive(Drop)]
pub struct Reply {
    pub status: Status,
    pub line: Bytes,
}

// The path that a word is: any text that is not empty.
fn path_in(word: &[u8]) -> Option<&str>
    ensures some { IfSome result (λ path. Asks (word.now ∷ []) path.now) }
    ensures none { IfNone result (AsksNothing (word.now ∷ [])) }
{
    let Ok(path) = str::from_utf8(word) else {
        return None;
    };
    if path.is_empty() {
        return None;
    }
    Some(path)
}

// The path that words ask for; None where they ask for nothing.
fn path_of(words: &Words) -> Option<&str>
    ensures some { IfSome result (λ path. Asks words.now path.now) }
    ensures none { IfNone result (AsksNothing words.now) }
{
    match words.as_slice() {
        [word] => path_in(word.as_slice()),
        _ => None,
    }
}

// A status line.
fn line_of(alloc: Global, end: End) -> Result<Bytes, AllocError>
    ensures { IfOk result (λ line. line ≡ status_text end) }
{
    let mut line = Vec::new(alloc);
    status_line(alloc, &end, &mut line)?;
    Ok(Bytes::from_vec(line))
}

// The line that says why a first line is refused.
fn script_line(alloc: Global, why: ScriptRefusal) -> Result<Bytes, AllocError>
    ensures { IfOk result (λ line. IsRefusal why line) }
{
    let told = match why {
        ScriptRefusal::NotJson => BadScript::NotJson,
        ScriptRefusal::BadShape(agent, step) => BadScript::BadShape(agent, step),
        ScriptRefusal::UnknownStep(agent, step) => BadScript::UnknownStep(agent, step),
        ScriptRefusal::BadOrigin(agent) => BadScript::BadOrigin(agent),
        ScriptRefusal::TooMany => BadScript::TooMany,
        ScriptRefusal::NoMemory => return Err(AllocError),
    };
    let line = line_of(alloc, End::Script(told))?;
    Ok(line)
}

// The line that says why an image is refused.
fn image_line(alloc: Global, why: ImageRefusal) -> Result<Bytes, AllocError>
    ensures { IfOk result (λ line. IsLineOf why line) }
{
    let told = match why {
        ImageRefusal::Short => BadImage::Short,
        ImageRefusal::Magic => BadImage::Magic,
        ImageRefusal::Geometry => BadImage::Geometry,
        ImageRefusal::NoArea => BadImage::NoArea,
        ImageRefusal::BadRecord(place) => BadImage::BadRecord(place),
        ImageRefusal::Old => BadImage::Old,
        ImageRefusal::NotOld => BadImage::NotOld,
        ImageRefusal::Overfull(charge, area) => BadImage::Overfull(charge, area),
        ImageRefusal::DiskFault | ImageRefusal::NoMemory => return Err(AllocError),
    };
    let line = line_of(alloc, End::Image(told))?;
    Ok(line)
}

// The status of a conversation that was held.
fn status_of(state: State) -> Status
    ensures { result ≡ status_of state }
{
    match state {
        State::On => Status::Done,
        State::Failed => Status::Sink,
        State::Short => Status::Memory,
    }
}

// The reply to an ending. `fault` is the line of a fault.
fn reply_to(alloc: Global, ending: Ending, fault: Bytes) -> Result<Reply, AllocError>
    requires { fault ≡ status_text end.Host }
    ensures reply { IfOk result (λ reply. IsReplyTo ending reply.status reply.line) }
    ensures none { OnErr result ((why : ARefusal) × (ending ≡ Ending.Refused why)) }
{
    match ending {
        Ending::Held(state) => Ok(Reply {
            status: status_of(state),
            line: Bytes::from_vec(Vec::new(alloc)),
        }),
        Ending::Broken(_) | Ending::Failed => Ok(Reply {
            status: Status::Host,
            line: fault,
        }),
        Ending::Refused(why) => {
            let line = image_line(alloc, why)?;
            Ok(Reply {
                status: Status::Image,
                line,
            })
        }
    }
}

// The reply where the first line is refused.
fn refused(alloc: Global, why: ScriptRefusal) -> Result<Reply, AllocError>
    ensures status { IfOk result (λ reply. reply.status ≡ Status.Script) }
    ensures line { IfOk result (λ reply. IsRefusal why reply.line) }
{
    let line = script_line(alloc, why)?;
    Ok(Reply {
        status: Status::Script,
        line,
    })
}

// The reply where the port failed before the first line.
fn failed(alloc: Global) -> Result<Reply, AllocError>
    ensures status { IfOk result (λ reply. reply.status ≡ Status.Source) }
    ensures line { IfOk result (λ reply. reply.line ≡ status_text end.Source) }
{
    let line = line_of(alloc, End::Source)?;
    Ok(Reply {
        status: Status::Source,
        line,
    })
}

// The reply to words that ask for nothing.
fn unasked(alloc: Global) -> Result<Reply, AllocError>
    ensures status { IfOk result (λ reply. reply.status ≡ Status.Usage) }
    ensures line { IfOk result (λ reply. reply.line ≡ status_text end.Usage) }
{
    let line = line_of(alloc, End::Usage)?;
    Ok(Reply {
        status: Status::Usage,
        line,
    })
}

// Holds a conversation of agents over the image at a path. `fault` is the line of a fault.
fn serve_agents<H: Host, P: Port<Desk<H::D>>, R: AllocGlobal + Wait>(
    rt: &R,
    path: &str,
    host: &mut H,
    agents: &[AgentScript],
    port: &mut P,
    fault: Bytes,
) -> Result<Reply, AllocError>
    requires few { length agents.now ≤ 64 }
    requires alone { HasNoScripts agents.now }
    requires fault { fault ≡ status_text end.Host }
    ensures ended { IfOk result (λ reply. EndsFor H.D.Disk (of_host H.Host host.old host.new) path.now P.tells P.said agents.now port.old port.new reply.status reply.line) }
    ensures unserved { OnErr result (IsUnserved (of_host H.Host host.old host.new) path.now port.old port.new) }
    ensures all { IfOk result (λ reply. reply.status ≡ Status.Done → P.tells → P.rest port.new ≡ []) }
    ensures sink_cause { IfOk result (λ reply. reply.status ≡ Status.Sink → Rose (P.faults port.old) (P.faults port.new)) }
    ensures others { H.tells → OthersAsBefore (of_host H.Host host.old host.new) path.now }
{
    let ending = serve_at(rt, host, path, agents, port)?;
    let reply = reply_to(rt.alloc(), ending, fault)?;
    Ok(reply)
}

// Hears the first line, and holds a conversation of the agents that it names over the image at a path.
fn serve_path<H: Host, P: Port<Desk<H::D>>, R: AllocGlobal + Wait>(
    rt: &R,
    path: &str,
    host: &mut H,
    port: &mut P,
) -> Result<Reply, AllocError>
    ensures ended { IfOk result (λ reply. EndsAt H.D.Disk (of_host H.Host host.old host.new) P.tells P.said P.rest P.faults port.old port.new path.now reply.status reply.line) }
    ensures unanswered { OnErr result (IsUnanswered (of_host H.Host host.old host.new) P.tells P.said P.rest port.old port.new path.now) }
    ensures all { IfOk result (λ reply. reply.status ≡ Status.Done → P.tells → P.rest port.new ≡ []) }
    ensures sink_cause { IfOk result (λ reply. reply.status ≡ Status.Sink → Rose (P.faults port.old) (P.faults port.new)) }
    ensures early { IfOk result (λ reply. IsEarly reply.status → host.new ≡ host.old) }
    ensures others { H.tells → OthersAsBefore (of_host H.Host host.old host.new) path.now }
{
    let alloc = rt.alloc();
    let fault = line_of(alloc, End::Host)?;
    match hear_first(alloc, port) {
        First::Agents(script) => {
            let reply = serve_agents(rt, path, host, script.agents(), port, fault)?;
            Ok(reply)
        }
        First::Refused(why) => {
            let reply = refused(alloc, why)?;
            Ok(reply)
        }
        First::Failed => {
            let reply = failed(alloc)?;
            Ok(reply)
        }
        First::NoMemory => Err(AllocError),
    }
}

/// Answers each line as it hears it. The one word is the path of an image. The first line names the agents; its answer is `ready N`. Each further
/// line is a step of one of them, or its end, and is answered by the lines of what was entered then. When no line comes any more, or the port fails, each
/// agent ends. The status and its line are those of `opfs run`. Where there is no memory to begin, nothing is answered.
///
/// However it ends, every other path is as before. The path has its image still where no conversation was held; where one was, also where a call of
/// the host failed, it has that image or one that the history may have left.
pub fn opfs_serve<H: Host, P: Port<Desk<H::D>>, R: AllocGlobal + Wait>(
    rt: &R,
    words: &Words,
    host: &mut H,
    port: &mut P,
) -> Result<Reply, AllocError>
    ensures ended { IfOk result (λ reply. EndsBy H.D.Disk (of_host H.Host host.old host.new) P.tells P.said P.rest P.faults port.old port.new words.now reply.status reply.line) }
    ensures unanswered { OnErr result ((path : List ℕ) → Asks words.now path → IsUnanswered (of_host H.Host host.old host.new) P.tells P.said P.rest port.old port.new path) }
    ensures all { IfOk result (λ reply. reply.status ≡ Status.Done → P.tells → P.rest port.new ≡ []) }
    ensures sink_cause { IfOk result (λ reply. reply.status ≡ Status.Sink → Rose (P.faults port.old) (P.faults port.new)) }
    ensures early { IfOk result (λ reply. IsEarly reply.status → host.new ≡ host.old) }
    ensures others { H.tells → (path : List ℕ) → (Asks words.now path → ⊥) → AsBefore (of_host H.Host host.old host.new) path }
{
    let Some(path) = path_of(words) else {
        let reply = unasked(rt.alloc())?;
        return Ok(reply);
    };
    let reply = serve_path(rt, path, host, port)?;
    Ok(reply)
}
