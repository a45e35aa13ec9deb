//! A conversation, line by line.

ghost use Rattle.std.specs.Prelude.{◌≡◌, ◌≢◌, ◌<◌, ℕ, false, [], length, slice_get, Some};
ghost use Rattle.opfs_serving.specs.Seats.{HasBegunToWait, SeatSeen};
ghost use Rattle.opfs_serving.specs.Served.{AreWaiting, IsQuiet, Serves, ServesOn, words};

use crate::answering::{answer_line, refuse, show};
use crate::looking::look_turn;
use crate::polling::poll;
use crate::progress::State;
use crate::refusal::LineRefusal;
use crate::table::Table;
use crate::telling::tell_turn;
use opfs_hall::{Hall, Watch};
use opfs_port::{Heard, Port, PortFault};
use opfs_store::Store;
use std::sync::Wait;

/// How many bytes a line has at most.
const MOST_BYTES: usize = 33_555_456;

// Looks after the await of the agent at a place, and tells what was entered where it is answered.
fn poll_at<S: Store, P: Port<S>, R: AllocGlobal + Wait>(
    rt: &R,
    hall: &Hall<S>,
    watch: Watch<S>,
    table: &mut Table<S>,
    place: usize,
    port: &mut P,
) -> Watch<S>
    requires within { place < length table.old.seats.items }
    requires serves { Serves (words S.opening S.opened S.entries S.keeps S.goes_on S.tells P.tells P.said P.faults) hall.now port.old watch table.old.seats.items table.old.progress }
    requires on { table.old.progress.state ≡ State.On }
    ensures on_with { ServesOn (words S.opening S.opened S.entries S.keeps S.goes_on S.tells P.tells P.said P.faults) hall.now port.old port.new watch result table.old.seats.items table.new.seats.items table.old.progress table.new.progress }
    ensures count { length table.new.seats.items ≡ length table.old.seats.items }
    ensures whole { table.new.progress.whole ≡ table.old.progress.whole }
    ensures begun { table.new.progress.state ≡ State.On → (x : SeatSeen S.Opening) → slice_get table.new.seats.items place ≡ Some x → HasBegunToWait x }
    ensures others { (i : ℕ) → i ≢ place → slice_get table.new.seats.items i ≡ slice_get table.old.seats.items i }
    ensures rest { P.tells → P.rest port.new ≡ P.rest port.old }
    ensures still { table.new.progress.state ≡ State.On → table.old.progress.state ≡ State.On }
{
    match poll(rt, hall, &mut table.seats[place]) {
        Ok(true) => {
            let mut watch = watch;
            show(hall, &mut table.seats[place], &mut watch);
            tell_turn(rt, hall, watch, port, &mut table.progress)
        }
        Ok(false) => watch,
        Err(_) => {
            table.progress.state = State::Short;
            watch
        }
    }
}

/// The same where answers are still told, and nothing where they are not.
pub fn poll_on<S: Store, P: Port<S>, R: AllocGlobal + Wait>(
    rt: &R,
    hall: &Hall<S>,
    watch: Watch<S>,
    table: &mut Table<S>,
    place: usize,
    port: &mut P,
) -> Watch<S>
    requires within { place < length table.old.seats.items }
    requires serves { Serves (words S.opening S.opened S.entries S.keeps S.goes_on S.tells P.tells P.said P.faults) hall.now port.old watch table.old.seats.items table.old.progress }
    ensures on_with { ServesOn (words S.opening S.opened S.entries S.keeps S.goes_on S.tells P.tells P.said P.faults) hall.now port.old port.new watch result table.old.seats.items table.new.seats.items table.old.progress table.new.progress }
    ensures count { length table.new.seats.items ≡ length table.old.seats.items }
    ensures whole { table.new.progress.whole ≡ table.old.progress.whole }
    ensures begun { table.new.progress.state ≡ State.On → (x : SeatSeen S.Opening) → slice_get table.new.seats.items place ≡ Some x → HasBegunToWait x }
    ensures others { (i : ℕ) → i ≢ place → slice_get table.new.seats.items i ≡ slice_get table.old.seats.items i }
    ensures rest { P.tells → P.rest port.new ≡ P.rest port.old }
    ensures still { table.new.progress.state ≡ State.On → table.old.progress.state ≡ State.On }
{
    if table.progress.state != State::On {
        return watch;
    }
    poll_at(rt, hall, watch, table, place, port)
}

// Looks after all awaits, in the order of the agents.
fn poll_all<S: Store, P: Port<S>, R: AllocGlobal + Wait>(
    rt: &R,
    hall: &Hall<S>,
    mut watch: Watch<S>,
    table: &mut Table<S>,
    port: &mut P,
) -> Watch<S>
    requires serves { Serves (words S.opening S.opened S.entries S.keeps S.goes_on S.tells P.tells P.said P.faults) hall.now port.old watch table.old.seats.items table.old.progress }
    ensures on_with { ServesOn (words S.opening S.opened S.entries S.keeps S.goes_on S.tells P.tells P.said P.faults) hall.now port.old port.new watch result table.old.seats.items table.new.seats.items table.old.progress table.new.progress }
    ensures begun { table.new.progress.state ≡ State.On → AreWaiting table.new.seats.items }
    ensures rest { P.tells → P.rest port.new ≡ P.rest port.old }
    ensures still { table.new.progress.state ≡ State.On → table.old.progress.state ≡ State.On }
{
    let count = table.seats.len();
    for place in 0..count {
        watch = poll_on(rt, hall, watch, table, place, port);
    }
    watch
}

// Looks after all awaits until each is at rest, or no answers are told any more.
fn settle<S: Store, P: Port<S>, R: AllocGlobal + Wait>(
    rt: &R,
    hall: &Hall<S>,
    mut watch: Watch<S>,
    table: &mut Table<S>,
    port: &mut P,
) -> Watch<S>
    requires serves { Serves (words S.opening S.opened S.entries S.keeps S.goes_on S.tells P.tells P.said P.faults) hall.now port.old watch table.old.seats.items table.old.progress }
    ensures on_with { ServesOn (words S.opening S.opened S.entries S.keeps S.goes_on S.tells P.tells P.said P.faults) hall.now port.old port.new watch result table.old.seats.items table.new.seats.items table.old.progress table.new.progress }
    ensures quiet { table.new.progress.state ≡ State.On → IsQuiet (words S.opening S.opened S.entries S.keeps S.goes_on S.tells P.tells P.said P.faults) result table.new.seats.items }
{
    for _ in rt.forever() {
        watch = poll_all(rt, hall, watch, table, port);
        if table.progress.state != State::On {
            return watch;
        }
        let (now, look) = look_turn(rt, hall, watch, table.seats.as_slice());
        watch = now;
        if !look {
            return watch;
        }
    }
    unreachable!()
}

// What is left to tell after a fault of the port.
fn state_of(fault: PortFault) -> State
    ensures off { result ≢ State.On }
    ensures cause { result ≡ State.Failed → fault ≡ PortFault.Stream }
{
    match fault {
        PortFault::Stream => State::Failed,
        PortFault::NoMemory => State::Short,
    }
}

// Hears a line and answers it. False where none comes any more, or the port failed.
fn hear_line<S: Store, P: Port<S>, R: AllocGlobal + Wait>(
    rt: &R,
    hall: &Hall<S>,
    watch: Watch<S>,
    table: &mut Table<S>,
    port: &mut P,
) -> (Watch<S>, bool)
    requires serves { Serves (words S.opening S.opened S.entries S.keeps S.goes_on S.tells P.tells P.said P.faults) hall.now port.old watch table.old.seats.items table.old.progress }
    requires on { table.old.progress.state ≡ State.On }
    requires quiet { IsQuiet (words S.opening S.opened S.entries S.keeps S.goes_on S.tells P.tells P.said P.faults) watch table.old.seats.items }
    ensures on_with { ServesOn (words S.opening S.opened S.entries S.keeps S.goes_on S.tells P.tells P.said P.faults) hall.now port.old port.new watch result.0 table.old.seats.items table.new.seats.items table.old.progress table.new.progress }
    ensures end { result.1 ≡ false → table.new.progress.state ≡ State.On → P.tells → P.rest port.new ≡ [] }
{
    let mut line = Vec::new(rt.alloc());
    match port.hear(&mut line, MOST_BYTES) {
        Ok(Heard::Line) => (
            answer_line(rt, hall, watch, table, line.as_slice(), port),
            true,
        ),
        Ok(Heard::TooLong) => (
            refuse(rt, hall, watch, table, LineRefusal::TooMany, port),
            true,
        ),
        Ok(Heard::End) => (watch, false),
        Err(fault) => {
            table.progress.state = state_of(fault);
            (watch, false)
        }
    }
}

/// Hears lines and answers each, once all awaits are at rest, to the end of the lines, or until the port fails or memory is wanting.
pub fn converse<S: Store, P: Port<S>, R: AllocGlobal + Wait>(
    rt: &R,
    hall: &Hall<S>,
    mut watch: Watch<S>,
    table: &mut Table<S>,
    port: &mut P,
) -> Watch<S>
    requires serves { Serves (words S.opening S.opened S.entries S.keeps S.goes_on S.tells P.tells P.said P.faults) hall.now port.old watch table.old.seats.items table.old.progress }
    ensures on_with { ServesOn (words S.opening S.opened S.entries S.keeps S.goes_on S.tells P.tells P.said P.faults) hall.now port.old port.new watch result table.old.seats.items table.new.seats.items table.old.progress table.new.progress }
    ensures all { table.new.progress.state ≡ State.On → P.tells → P.rest port.new ≡ [] }
{
    for _ in rt.forever() {
        watch = settle(rt, hall, watch, table, port);
        if table.progress.state != State::On {
            return watch;
        }
        let (now, more) = hear_line(rt, hall, watch, table, port);
        watch = now;
        if !more {
            return watch;
        }
    }
    unreachable!()
}
