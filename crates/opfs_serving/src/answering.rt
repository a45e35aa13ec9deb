//! The answer to a line.

ghost use Rattle.std.specs.Prelude.{◌≡◌, ℕ, true, false, Some};
ghost use Rattle.opfs_base.specs.Texts.{Text};
ghost use Rattle.opfs_hall.specs.History.{IsPrefix};
ghost use Rattle.opfs_script.specs.Limits.{keeps_bounds};
ghost use Rattle.opfs_script.specs.Scripts.{Asked};
ghost use Rattle.opfs_script.specs.declared.lines.Asking.TheVariants as asking;
ghost use Rattle.opfs_serving.specs.Requests.{IsAwaiting, IsFree, IsOf, IsRefusedAt, IsRequest};
ghost use Rattle.opfs_serving.specs.Seats.{IsAt, SeatSeen};
ghost use Rattle.opfs_serving.specs.Served.{HasHeard, IsQuiet, Serves, ServesOn, words};
ghost use Rattle.opfs_serving.specs.Stepping.{HasMade, HasMissed};
ghost use Rattle.opfs_turns.specs.Agents.{AgentSeen, IsAgent};
ghost use Rattle.opfs_turns.specs.Calls.{HasLooked};

use crate::asking::ask;
use crate::ending::end_seat;
use crate::progress::{Progress, State};
use crate::refusal::LineRefusal;
use crate::requests::{Request, Trouble, request_of};
use crate::seat::Seat;
use crate::table::Table;
use crate::telling::{say_turn, tell_turn};
use crate::texts::refusal_line;
use opfs_hall::{Hall, Watch};
use opfs_port::Port;
use opfs_script::{Asking, Step};
use opfs_store::Store;
use std::sync::Wait;

/// Lets the owner's pass take note of what a seat's agent has seen.
pub fn show<S: Store>(hall: &Hall<S>, seat: &mut Seat<S>, watch: &mut Watch<S>)
    requires own { watch.old.pass.hall ≡ hall.now }
    requires there { (a : AgentSeen S.Opening) × (seat.old.agent ≡ Some a) × (a.pass.hall ≡ hall.now) }
    ensures same { seat.new ≡ seat.old }
    ensures noted { (a : AgentSeen S.Opening) → seat.old.agent ≡ Some a → watch.new.pass ≡ record watch.old.pass { base = a.pass.base } }
    ensures last { watch.new.last ≡ watch.old.last }
{
    let Some(agent) = seat.agent.as_mut() else {
        unreachable!();
    };
    agent.show(hall, watch);
}

// Has an agent make a step, and tells what was entered then. False where there was no memory for the step.
fn step_turn<S: Store, P: Port<S>, R: AllocGlobal + Wait>(
    rt: &R,
    hall: &Hall<S>,
    mut watch: Watch<S>,
    seat: &mut Seat<S>,
    step: &Step,
    port: &mut P,
    progress: &mut Progress,
) -> (Watch<S>, bool)
    requires own { (watch.pass.hall ≡ hall.now) × (watch.pass.agent ≡ 0) }
    requires free { IsFree seat.old }
    requires midway { (a : AgentSeen S.Opening) → seat.old.agent ≡ Some a → (k : ℕ) × (asked : Asked) × IsAt S.tells hall.now k asked seat.old a }
    requires bounds { keeps_bounds step.now ≡ true }
    ensures made { result.1 ≡ true → HasMade (words S.opening S.opened S.entries S.keeps S.goes_on S.tells P.tells P.said P.faults) hall.now step.now seat.old seat.new watch result.0 port.old port.new progress.old progress.new }
    ensures missed { result.1 ≡ false → HasMissed (words S.opening S.opened S.entries S.keeps S.goes_on S.tells P.tells P.said P.faults) hall.now step.now seat.old seat.new watch result.0 port.old port.new progress.old progress.new }
{
    if !ask(rt, hall, seat, step) {
        progress.state = State::Short;
        return (watch, false);
    }
    show(hall, seat, &mut watch);
    let now = tell_turn(rt, hall, watch, port, progress);
    (now, true)
}

// Has the agent at a place make the step that a line asks for, and answers it.
fn step_at<S: Store, P: Port<S>, R: AllocGlobal + Wait>(
    rt: &R,
    hall: &Hall<S>,
    watch: Watch<S>,
    table: &mut Table<S>,
    place: usize,
    step: &Step,
    port: &mut P,
) -> Watch<S>
    requires asked { (line : Text) × IsRequest line table.old.seats.items place (asking.Step step.now) }
    requires serves { (before : P) × Serves (words S.opening S.opened S.entries S.keeps S.goes_on S.tells P.tells P.said P.faults) hall.now before watch table.old.seats.items table.old.progress }
    requires on { table.old.progress.state ≡ State.On }
    requires quiet { IsQuiet (words S.opening S.opened S.entries S.keeps S.goes_on S.tells P.tells P.said P.faults) watch table.old.seats.items }
    ensures { (line : Text) (before : P) → IsRequest line table.old.seats.items place (asking.Step step.now) → HasHeard (words S.opening S.opened S.entries S.keeps S.goes_on S.tells P.tells P.said P.faults) line before port.old
        → ServesOn (words S.opening S.opened S.entries S.keeps S.goes_on S.tells P.tells P.said P.faults) hall.now before port.new watch result table.old.seats.items table.new.seats.items table.old.progress table.new.progress }
{
    let (now, _) = step_turn(
        rt,
        hall,
        watch,
        &mut table.seats[place],
        step,
        port,
        &mut table.progress,
    );
    now
}

// Ends the agent at a place, as a line asks, and answers it.
fn end_at<S: Store, P: Port<S>, R: AllocGlobal + Wait>(
    rt: &R,
    hall: &Hall<S>,
    watch: Watch<S>,
    table: &mut Table<S>,
    place: usize,
    port: &mut P,
) -> Watch<S>
    requires asked { (line : Text) × IsRequest line table.old.seats.items place asking.End }
    requires serves { (before : P) × Serves (words S.opening S.opened S.entries S.keeps S.goes_on S.tells P.tells P.said P.faults) hall.now before watch table.old.seats.items table.old.progress }
    requires on { table.old.progress.state ≡ State.On }
    requires quiet { IsQuiet (words S.opening S.opened S.entries S.keeps S.goes_on S.tells P.tells P.said P.faults) watch table.old.seats.items }
    ensures { (line : Text) (before : P) → IsRequest line table.old.seats.items place asking.End → HasHeard (words S.opening S.opened S.entries S.keeps S.goes_on S.tells P.tells P.said P.faults) line before port.old
        → ServesOn (words S.opening S.opened S.entries S.keeps S.goes_on S.tells P.tells P.said P.faults) hall.now before port.new watch result table.old.seats.items table.new.seats.items table.old.progress table.new.progress }
{
    let watch = end_seat(rt, hall, watch, &mut table.seats[place]);
    tell_turn(rt, hall, watch, port, &mut table.progress)
}

// Answers a line that is refused.
pub fn refuse<S: Store, P: Port<S>, R: AllocGlobal + Wait>(
    rt: &R,
    hall: &Hall<S>,
    watch: Watch<S>,
    table: &mut Table<S>,
    why: LineRefusal,
    port: &mut P,
) -> Watch<S>
    requires serves { (before : P) × Serves (words S.opening S.opened S.entries S.keeps S.goes_on S.tells P.tells P.said P.faults) hall.now before watch table.old.seats.items table.old.progress }
    requires on { table.old.progress.state ≡ State.On }
    requires quiet { IsQuiet (words S.opening S.opened S.entries S.keeps S.goes_on S.tells P.tells P.said P.faults) watch table.old.seats.items }
    ensures { (line : Text) (before : P) → IsRefusedAt (S.entries watch.last) line table.old.seats.items why → HasHeard (words S.opening S.opened S.entries S.keeps S.goes_on S.tells P.tells P.said P.faults) line before port.old
        → ServesOn (words S.opening S.opened S.entries S.keeps S.goes_on S.tells P.tells P.said P.faults) hall.now before port.new watch result table.old.seats.items table.new.seats.items table.old.progress table.new.progress }
{
    let Ok(text) = refusal_line(rt.alloc(), why) else {
        table.progress.state = State::Short;
        return watch;
    };
    say_turn(rt, hall, watch, port, text.as_slice(), &mut table.progress)
}

// Lets the agent of a seat see all that the owner's pass has seen.
fn look<S: Store, R: Wait>(rt: &R, hall: &Hall<S>, seat: &mut Seat<S>, watch: &mut Watch<S>)
    requires own { watch.old.pass.hall ≡ hall.now }
    requires there { (a : AgentSeen S.Opening) × (seat.old.agent ≡ Some a) × (a.pass.hall ≡ hall.now) }
    ensures looked { (a : AgentSeen S.Opening) → seat.old.agent ≡ Some a
        → (b : AgentSeen S.Opening) × (seat.new ≡ record seat.old { agent = Some b }) × HasLooked a b × IsAgent S.tells b × IsPrefix (S.entries watch.old.last) b.pass.base }
    ensures same { watch.new ≡ watch.old }
{
    let Some(agent) = seat.agent.as_mut() else {
        unreachable!();
    };
    agent.look_behind(rt, hall, watch);
    agent.know_kept();
}

// Refuses a line whose agent, at this place, awaits.
fn refuse_waiting<S: Store, P: Port<S>, R: AllocGlobal + Wait>(
    rt: &R,
    hall: &Hall<S>,
    mut watch: Watch<S>,
    table: &mut Table<S>,
    place: usize,
    port: &mut P,
) -> Watch<S>
    requires awaits { (line : Text) × (x : SeatSeen S.Opening) × (rest : Text) × IsOf line table.old.seats.items place x rest × IsAwaiting x }
    requires serves { (before : P) × Serves (words S.opening S.opened S.entries S.keeps S.goes_on S.tells P.tells P.said P.faults) hall.now before watch table.old.seats.items table.old.progress }
    requires on { table.old.progress.state ≡ State.On }
    requires quiet { IsQuiet (words S.opening S.opened S.entries S.keeps S.goes_on S.tells P.tells P.said P.faults) watch table.old.seats.items }
    ensures { (line : Text) (before : P) (x : SeatSeen S.Opening) (rest : Text) → IsOf line table.old.seats.items place x rest → IsAwaiting x
        → HasHeard (words S.opening S.opened S.entries S.keeps S.goes_on S.tells P.tells P.said P.faults) line before port.old
        → ServesOn (words S.opening S.opened S.entries S.keeps S.goes_on S.tells P.tells P.said P.faults) hall.now before port.new watch result table.old.seats.items table.new.seats.items table.old.progress table.new.progress }
{
    look(rt, hall, &mut table.seats[place], &mut watch);
    refuse(rt, hall, watch, table, LineRefusal::Waiting, port)
}

// Does what a line asks, and answers it.
fn answer_request<S: Store, P: Port<S>, R: AllocGlobal + Wait>(
    rt: &R,
    hall: &Hall<S>,
    watch: Watch<S>,
    table: &mut Table<S>,
    request: Request,
    port: &mut P,
) -> Watch<S>
    requires asked { (line : Text) × IsRequest line table.old.seats.items request.place request.asking }
    requires serves { (before : P) × Serves (words S.opening S.opened S.entries S.keeps S.goes_on S.tells P.tells P.said P.faults) hall.now before watch table.old.seats.items table.old.progress }
    requires on { table.old.progress.state ≡ State.On }
    requires quiet { IsQuiet (words S.opening S.opened S.entries S.keeps S.goes_on S.tells P.tells P.said P.faults) watch table.old.seats.items }
    ensures { (line : Text) (before : P) → IsRequest line table.old.seats.items request.place request.asking → HasHeard (words S.opening S.opened S.entries S.keeps S.goes_on S.tells P.tells P.said P.faults) line before port.old
        → ServesOn (words S.opening S.opened S.entries S.keeps S.goes_on S.tells P.tells P.said P.faults) hall.now before port.new watch result table.old.seats.items table.new.seats.items table.old.progress table.new.progress }
{
    let Request { place, asking } = request;
    match asking {
        Asking::Step(step) => {
            let now = step_at(rt, hall, watch, table, place, &step, port);
            drop(step);
            now
        }
        Asking::End => end_at(rt, hall, watch, table, place, port),
    }
}

/// Answers a line that was heard.
pub fn answer_line<S: Store, P: Port<S>, R: AllocGlobal + Wait>(
    rt: &R,
    hall: &Hall<S>,
    watch: Watch<S>,
    table: &mut Table<S>,
    line: &[u8],
    port: &mut P,
) -> Watch<S>
    requires serves { (before : P) × Serves (words S.opening S.opened S.entries S.keeps S.goes_on S.tells P.tells P.said P.faults) hall.now before watch table.old.seats.items table.old.progress }
    requires on { table.old.progress.state ≡ State.On }
    requires quiet { IsQuiet (words S.opening S.opened S.entries S.keeps S.goes_on S.tells P.tells P.said P.faults) watch table.old.seats.items }
    ensures { (before : P) → HasHeard (words S.opening S.opened S.entries S.keeps S.goes_on S.tells P.tells P.said P.faults) line.now before port.old
        → ServesOn (words S.opening S.opened S.entries S.keeps S.goes_on S.tells P.tells P.said P.faults) hall.now before port.new watch result table.old.seats.items table.new.seats.items table.old.progress table.new.progress }
{
    match request_of(rt.alloc(), line, table.seats.as_slice()) {
        Ok(request) => answer_request(rt, hall, watch, table, request, port),
        Err(Trouble::Refused(why)) => refuse(rt, hall, watch, table, why, port),
        Err(Trouble::Waits(place)) => refuse_waiting(rt, hall, watch, table, place, port),
        Err(Trouble::NoMemory) => {
            table.progress.state = State::Short;
            watch
        }
    }
}
