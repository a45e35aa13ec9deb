//! The first line of a conversation.

ghost use Rattle.std.specs.Prelude.{◌≤◌};
ghost use Rattle.opfs_serve_top.specs.Hearing.{IsFirst, IsFirstOf};

use opfs_port::{Heard, Port, PortFault};
use opfs_script::{Script, ScriptRefusal};
use opfs_serve_runs::first_agents;
use std::alloc::Global;

/// How many bytes a line has at most.
const MOST_BYTES: usize = 33_555_456;

/// What the first line gave.
#[derive(Drop)]
pub enum First {
    /// The agents of the conversation.
    Agents(Script),
    /// It is refused.
    Refused(ScriptRefusal),
    /// The port failed.
    Failed,
    /// There was no memory.
    NoMemory,
}

// What a first line gives that was heard.
fn first_of(alloc: Global, line: &[u8]) -> First
    ensures { IsFirstOf line.now result }
{
    match first_agents(alloc, line) {
        Ok(script) => First::Agents(script),
        Err(ScriptRefusal::NoMemory) => First::NoMemory,
        Err(why) => First::Refused(why),
    }
}

/// Hears the first line, and reads the agents that it names. Where no line comes it is refused as an empty one.
pub fn hear_first<T, P: Port<T>>(alloc: Global, port: &mut P) -> First
    ensures first { IsFirst P.tells P.said P.rest port.old port.new P.faults result }
    ensures later { P.faults port.old ≤ P.faults port.new }
{
    let mut line = Vec::new(alloc);
    match port.hear(&mut line, MOST_BYTES) {
        Ok(Heard::Line) => first_of(alloc, line.as_slice()),
        Ok(Heard::TooLong) => First::Refused(ScriptRefusal::TooMany),
        Ok(Heard::End) => First::Refused(ScriptRefusal::NotJson),
        Err(PortFault::Stream) => First::Failed,
        Err(PortFault::NoMemory) => First::NoMemory,
    }
}
