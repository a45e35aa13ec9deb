//! What a line asks.

ghost use Rattle.std.specs.Prelude.{◌≡◌, ◌+◌, ◌≤◌, length, IfOk, IfErr, List};
ghost use Rattle.opfs_hist.specs.declared.entry.Entry.{Entry};
ghost use Rattle.opfs_serving.specs.Requests.{AsksNothing, IsFree, IsHeldBack, IsRequest, IsTrouble};

use crate::refusal::LineRefusal;
use crate::seat::Seat;
use opfs_script::{Asking, ScriptRefusal, Step, named_agent, read_asking};
use opfs_store::Store;
use std::alloc::Global;

/// How many calls and rows an agent may have, at most, to be asked for a step.
const MOST: usize = 59_900_000;

/// What a line asks of the agent at a place: a step, or to end.
#[derive(Drop)]
pub struct Request {
    pub place: usize,
    pub asking: Asking,
}

/// Why a line asks nothing.
#[derive(Clone, Copy, PartialEq, Eq)]
pub enum Trouble {
    Refused(LineRefusal),
    /// The agent at this place awaits.
    Waits(usize),
    NoMemory,
}

// How the refusal of a step is told.
fn told_as(why: ScriptRefusal) -> Trouble
    ensures { IsTrouble why result }
{
    match why {
        ScriptRefusal::NotJson => Trouble::Refused(LineRefusal::NotJson),
        ScriptRefusal::BadShape(agent, step) => Trouble::Refused(LineRefusal::BadShape(
            agent, step,
        )),
        ScriptRefusal::UnknownStep(agent, step) => {
            Trouble::Refused(LineRefusal::UnknownStep(agent, step))
        }
        ScriptRefusal::BadOrigin(agent) => Trouble::Refused(LineRefusal::BadShape(agent, 0)),
        ScriptRefusal::TooMany => Trouble::Refused(LineRefusal::TooMany),
        ScriptRefusal::NoMemory => Trouble::NoMemory,
    }
}

// What keeps the agent of the seat at a place from being asked, if anything does.
fn held_back<S: Store>(seat: &Seat<S>, place: usize) -> Option<Trouble>
    ensures { IsHeldBack place seat.now result }
{
    let Some(agent) = seat.agent.as_ref() else {
        return Some(Trouble::Refused(LineRefusal::Ended));
    };
    if seat.awaits.is_some() {
        return Some(Trouble::Waits(place));
    }
    if agent.entries() as usize + seat.rows.len() > MOST {
        return Some(Trouble::Refused(LineRefusal::TooMany));
    }
    None
}

// The number of the next call of an agent that is there.
fn next_number<S: Store>(seat: &Seat<S>) -> u64
    requires free { IsFree seat.now }
    ensures { (free : IsFree seat.now) → result ≡ free.agent.number }
{
    match seat.agent.as_ref() {
        Some(agent) => u64::from(agent.next_number()),
        None => unreachable!(),
    }
}

/// What a line asks of agents.
pub fn request_of<S: Store>(
    alloc: Global,
    line: &[u8],
    seats: &[Seat<S>],
) -> Result<Request, Trouble>
    requires few { length seats.now ≤ 64 }
    ensures asked { IfOk result (λ request. IsRequest line.now seats.now request.place request.asking) }
    ensures nothing { IfErr result (λ why. (seen : List Entry) → AsksNothing seen line.now seats.now why) }
{
    let Some(part) = named_agent(line, seats.len() as u32) else {
        return Err(Trouble::Refused(LineRefusal::NoAgent));
    };
    let place = (part.agent - 1) as usize;
    let seat = &seats[place];
    if let Some(why) = held_back(seat, place) {
        return Err(why);
    }
    match read_asking(alloc, u64::from(part.agent), next_number(seat), part.text) {
        Ok(asking) => Ok(Request { place, asking }),
        Err(why) => Err(told_as(why)),
    }
}
