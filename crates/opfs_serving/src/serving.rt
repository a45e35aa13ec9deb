//! A conversation with a store, from its agents to their ends.

ghost use Rattle.std.specs.Prelude.{◌≡◌, ◌≢◌, ◌≤◌, ◌<◌, ℕ, List, [], length, map, slice_get, Some, None, IfOk, IfErr, All, true, false, vec_capacity};
ghost use Rattle.opfs_outside.specs.Faults.{Rose};
ghost use Rattle.opfs_runner.specs.Run.Begun.{AreAgentsOf};
ghost use Rattle.opfs_script.specs.Scripts.{Asked};
ghost use Rattle.opfs_script_run.specs.Runs.Running.{empty_hand};
ghost use Rattle.opfs_serving.specs.Seats.{SeatSeen};
ghost use Rattle.opfs_serving.specs.Served.{AreSeatsOf, HasNoScripts, IsServed, IsServing, IsSilent, Serves, words};

use crate::conversing::{converse, poll_on};
use crate::ending::end_seat;
use crate::progress::{Progress, State};
use crate::seat::Seat;
use crate::table::Table;
use crate::telling::{say_turn, tell_entries, tell_turn};
use crate::texts::ready_line;
use opfs_agent::Agent;
use opfs_base::copy_key;
use opfs_hall::{Hall, Watch};
use opfs_port::Port;
use opfs_runner::{Started, begin_agents};
use opfs_script::AgentScript;
use opfs_script_run::Hand;
use opfs_store::Store;
use std::alloc::{AllocError, Global};
use std::sync::Wait;

/// What a conversation leaves: the store; whether each agent has made each step that it was asked for; and whether all answers went out.
pub struct Served<S> {
    pub store: S,
    pub whole: bool,
    pub state: State,
}

// Whether an agent that ends now may lack a step that it was asked for.
fn is_cut<S: Store>(state: State, seat: &Seat<S>) -> bool
    ensures { result ≡ false → (state ≡ State.On) × (seat.now.awaits ≡ None) }
{
    if state != State::On {
        return true;
    }
    seat.awaits.is_some()
}

// Whether all are whole still, once an agent ends.
fn stays_whole<S: Store>(progress: Progress, seat: &Seat<S>) -> bool
    ensures { result ≡ true → (progress.whole ≡ true) × (progress.state ≡ State.On) × (seat.now.awaits ≡ None) }
{
    if is_cut(progress.state, seat) {
        return false;
    }
    progress.whole
}

// Ends the agent at a place, behind its await, if that is answered by now, and tells what was entered.
fn end_one<S: Store, P: Port<S>, R: AllocGlobal + Wait>(
    rt: &R,
    hall: &Hall<S>,
    watch: Watch<S>,
    table: &mut Table<S>,
    place: usize,
    port: &mut P,
) -> Watch<S>
    requires within { place < length table.old.seats.items }
    requires serves { Serves (words S.opening S.opened S.entries S.keeps S.goes_on S.tells P.tells P.said P.faults) hall.now port.old watch table.old.seats.items table.old.progress }
    ensures on_with { (agents : List Asked) (begun : P) → IsServing (words S.opening S.opened S.entries S.keeps S.goes_on S.tells P.tells P.said P.faults) hall.now agents begun port.old watch table.old.seats.items table.old.progress
        → IsServing (words S.opening S.opened S.entries S.keeps S.goes_on S.tells P.tells P.said P.faults) hall.now agents begun port.new result table.new.seats.items table.new.progress }
    ensures count { length table.new.seats.items ≡ length table.old.seats.items }
    ensures ended { (x : SeatSeen S.Opening) → slice_get table.new.seats.items place ≡ Some x → x.agent ≡ None }
    ensures others { (i : ℕ) → i ≢ place → slice_get table.new.seats.items i ≡ slice_get table.old.seats.items i }
    ensures rest { P.tells → P.rest port.new ≡ P.rest port.old }
    ensures still { table.new.progress.state ≡ State.On → table.old.progress.state ≡ State.On }
{
    let watch = poll_on(rt, hall, watch, table, place, port);
    table.progress.whole = stays_whole(table.progress, &table.seats[place]);
    let watch = end_seat(rt, hall, watch, &mut table.seats[place]);
    tell_turn(rt, hall, watch, port, &mut table.progress)
}

// The same, where it awaits nothing; else it stays.
fn end_free<S: Store, P: Port<S>, R: AllocGlobal + Wait>(
    rt: &R,
    hall: &Hall<S>,
    watch: Watch<S>,
    table: &mut Table<S>,
    place: usize,
    port: &mut P,
) -> Watch<S>
    requires within { place < length table.old.seats.items }
    requires serves { Serves (words S.opening S.opened S.entries S.keeps S.goes_on S.tells P.tells P.said P.faults) hall.now port.old watch table.old.seats.items table.old.progress }
    ensures on_with { (agents : List Asked) (begun : P) → IsServing (words S.opening S.opened S.entries S.keeps S.goes_on S.tells P.tells P.said P.faults) hall.now agents begun port.old watch table.old.seats.items table.old.progress
        → IsServing (words S.opening S.opened S.entries S.keeps S.goes_on S.tells P.tells P.said P.faults) hall.now agents begun port.new result table.new.seats.items table.new.progress }
    ensures count { length table.new.seats.items ≡ length table.old.seats.items }
    ensures rest { P.tells → P.rest port.new ≡ P.rest port.old }
    ensures still { table.new.progress.state ≡ State.On → table.old.progress.state ≡ State.On }
{
    if table.seats[place].awaits.is_some() {
        return watch;
    }
    end_one(rt, hall, watch, table, place, port)
}

// Ends all agents that await nothing, in order.
fn end_idle<S: Store, P: Port<S>, R: AllocGlobal + Wait>(
    rt: &R,
    hall: &Hall<S>,
    mut watch: Watch<S>,
    table: &mut Table<S>,
    port: &mut P,
) -> Watch<S>
    requires serves { Serves (words S.opening S.opened S.entries S.keeps S.goes_on S.tells P.tells P.said P.faults) hall.now port.old watch table.old.seats.items table.old.progress }
    ensures on_with { (agents : List Asked) (begun : P) → IsServing (words S.opening S.opened S.entries S.keeps S.goes_on S.tells P.tells P.said P.faults) hall.now agents begun port.old watch table.old.seats.items table.old.progress
        → IsServing (words S.opening S.opened S.entries S.keeps S.goes_on S.tells P.tells P.said P.faults) hall.now agents begun port.new result table.new.seats.items table.new.progress }
    ensures rest { P.tells → P.rest port.new ≡ P.rest port.old }
    ensures still { table.new.progress.state ≡ State.On → table.old.progress.state ≡ State.On }
{
    let count = table.seats.len();
    for place in 0..count {
        watch = end_free(rt, hall, watch, table, place, port);
    }
    watch
}

// Ends all agents, in order.
fn end_all<S: Store, P: Port<S>, R: AllocGlobal + Wait>(
    rt: &R,
    hall: &Hall<S>,
    mut watch: Watch<S>,
    table: &mut Table<S>,
    port: &mut P,
) -> Watch<S>
    requires serves { Serves (words S.opening S.opened S.entries S.keeps S.goes_on S.tells P.tells P.said P.faults) hall.now port.old watch table.old.seats.items table.old.progress }
    ensures on_with { (agents : List Asked) (begun : P) → IsServing (words S.opening S.opened S.entries S.keeps S.goes_on S.tells P.tells P.said P.faults) hall.now agents begun port.old watch table.old.seats.items table.old.progress
        → IsServing (words S.opening S.opened S.entries S.keeps S.goes_on S.tells P.tells P.said P.faults) hall.now agents begun port.new result table.new.seats.items table.new.progress }
    ensures all { All (λ x. x.agent ≡ None) table.new.seats.items }
    ensures rest { P.tells → P.rest port.new ≡ P.rest port.old }
    ensures still { table.new.progress.state ≡ State.On → table.old.progress.state ≡ State.On }
{
    let count = table.seats.len();
    for place in 0..count {
        watch = end_one(rt, hall, watch, table, place, port);
    }
    watch
}

// What the variables of agents name before their first steps.
fn hands_of(alloc: Global, scripts: &[AgentScript]) -> Result<Vec<Hand>, AllocError>
    ensures { IfOk result (λ hands. hands.items ≡ map (λ s. empty_hand s.key) scripts.now) }
{
    let mut hands = Vec::new(alloc);
    for script in scripts {
        let key = copy_key(alloc, script.key())?;
        hands.push(Hand::make(alloc, key))?;
    }
    Ok(hands)
}

// Seats agents, in order, with their hands. Takes no memory.
fn seat_all<S: Store>(
    alloc: Global,
    agents: &mut Vec<Agent<S>>,
    hands: &mut Vec<Hand>,
    seats: &mut Vec<Seat<S>>,
)
    requires count { length agents.old.items ≡ length hands.old.items }
    requires none { seats.old.items ≡ [] }
    requires room { length agents.old.items ≤ vec_capacity seats.old }
    ensures seated { AreSeatsOf S.tells agents.old.items hands.old.items seats.new.items }
    ensures capacity { vec_capacity seats.old ≤ vec_capacity seats.new }
{
    let Some(hand) = hands.pop() else {
        return;
    };
    let agent = agents.pop().unwrap();
    agent.know_kept();
    seat_all(alloc, agents, hands, seats);
    seats.push_reserved(Seat {
        agent: Some(agent),
        rows: Vec::new(alloc),
        hand,
        awaits: None,
    });
}

// Begins a conversation: it tells how many agents there are.
fn greet<S: Store, P: Port<S>, R: AllocGlobal + Wait>(
    rt: &R,
    hall: &Hall<S>,
    watch: Watch<S>,
    table: &mut Table<S>,
    port: &mut P,
) -> Watch<S>
    requires silent { (agents : List Asked) × IsSilent (words S.opening S.opened S.entries S.keeps S.goes_on S.tells P.tells P.said P.faults) hall.now agents port.old watch table.old.seats.items table.old.progress }
    requires on { table.old.progress.state ≡ State.On }
    ensures { (agents : List Asked) → IsSilent (words S.opening S.opened S.entries S.keeps S.goes_on S.tells P.tells P.said P.faults) hall.now agents port.old watch table.old.seats.items table.old.progress
        → IsServing (words S.opening S.opened S.entries S.keeps S.goes_on S.tells P.tells P.said P.faults) hall.now agents port.old port.new result table.new.seats.items table.new.progress }
{
    let Ok(text) = ready_line(rt.alloc(), table.seats.len() as u64) else {
        table.progress.state = State::Short;
        return watch;
    };
    say_turn(rt, hall, watch, port, text.as_bytes(), &mut table.progress)
}

// Collects what is left of seats whose agents have ended.
fn clear<S: Store>(seats: Vec<Seat<S>>)
    requires gone { All (λ x. (x.agent ≡ None) × (x.rows ≡ [])) seats.items }
{
    let mut seats = seats;
    loop {
        let Some(seat) = seats.pop() else {
            break;
        };
        let Seat {
            agent,
            rows,
            hand: _,
            awaits: _,
        } = seat;
        rows.destroy_empty();
        let None = agent else {
            unreachable!();
        };
    }
    seats.destroy_empty();
}

// Ends a conversation: its agents, those that await last, and the hall; and tells what is left.
fn finish<S: Store, P: Port<S>, R: AllocGlobal + Wait>(
    rt: &R,
    hall: Hall<S>,
    watch: Watch<S>,
    table: Table<S>,
    port: &mut P,
) -> Served<S>
    requires serves { Serves (words S.opening S.opened S.entries S.keeps S.goes_on S.tells P.tells P.said P.faults) hall port.old watch table.seats.items table.progress }
    ensures opening { S.opening result.store ≡ hall.opening }
    ensures served { (agents : List Asked) (begun : P) → IsServing (words S.opening S.opened S.entries S.keeps S.goes_on S.tells P.tells P.said P.faults) hall agents begun port.old watch table.seats.items table.progress
        → IsServed (words S.opening S.opened S.entries S.keeps S.goes_on S.tells P.tells P.said P.faults) agents begun port.new result.store result.whole result.state }
    ensures rest { P.tells → P.rest port.new ≡ P.rest port.old }
    ensures still { result.state ≡ State.On → table.progress.state ≡ State.On }
{
    let mut table = table;
    let idle = end_idle(rt, &hall, watch, &mut table, port);
    let last = end_all(rt, &hall, idle, &mut table, port);
    let Table {
        seats,
        mut progress,
    } = table;
    clear(seats);
    let mut store = last.close(hall);
    store.know_kept();
    tell_entries(rt.alloc(), &mut store, port, &mut progress);
    Served {
        store,
        whole: progress.whole,
        state: progress.state,
    }
}

/// Holds a conversation with a store over a port: its agents, each without steps before, make the step of each line once it is heard. When
/// no line comes any more, or the port fails, or memory is wanting, each agent ends. Its state is that the port failed only where a call of
/// the port did. Where there is no memory to begin, it gives the store back, and nothing was heard or told.
pub fn serve<S: Store, P: Port<S>, R: AllocGlobal + Wait>(
    rt: &R,
    store: S,
    agents: &[AgentScript],
    port: &mut P,
) -> Result<Served<S>, S>
    requires few { length agents.now ≤ 64 }
    requires empty { S.entries store ≡ [] }
    requires agents { AreAgentsOf (S.opened (S.opening store)) agents.now }
    requires alone { HasNoScripts agents.now }
    ensures opening { IfOk result (λ served. S.opening served.store ≡ S.opening store) }
    ensures served { IfOk result (λ served. IsServed (words S.opening S.opened S.entries S.keeps S.goes_on S.tells P.tells P.said P.faults) agents.now port.old port.new served.store served.whole served.state) }
    ensures all { IfOk result (λ served. served.state ≡ State.On → P.tells → P.rest port.new ≡ []) }
    ensures failed { IfOk result (λ served. served.state ≡ State.Failed → Rose (P.faults port.old) (P.faults port.new)) }
    ensures later { P.faults port.old ≤ P.faults port.new }
    ensures err { IfErr result (λ back. back ≡ store) }
    ensures none { IfErr result (λ back. port.new ≡ port.old) }
{
    let alloc = rt.alloc();
    let Ok(mut hands) = hands_of(alloc, agents) else {
        return Err(store);
    };
    let Ok(mut seats) = Vec::<Seat<S>>::with_capacity(alloc, agents.len()) else {
        return Err(store);
    };
    let Started {
        court,
        owner,
        agents: mut players,
    } = match begin_agents(rt, store, agents) {
        Ok(started) => started,
        Err(back) => {
            seats.destroy_empty();
            return Err(back);
        }
    };
    seat_all(alloc, &mut players, &mut hands, &mut seats);
    let watch = Watch::begin(rt, &court, owner);
    let mut table = Table {
        seats,
        progress: Progress {
            count: 0,
            state: State::On,
            whole: true,
        },
    };
    let greeted = greet(rt, &court, watch, &mut table, port);
    let spoken = converse(rt, &court, greeted, &mut table, port);
    Ok(finish(rt, court, spoken, table, port))
}
