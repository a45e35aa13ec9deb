//! The hall, and the turn that a pass takes in it.
ghost use Rattle.std.specs.Prelude.{◌≡◌, ◌≢◌, ℕ, ◌+◌, ◌≤◌, [], ◌∷◌, false, true, All, Some, None, IfOk, IfErr, vec_capacity};
ghost use Rattle.opfs_hall.specs.History.{GrowsByOthers, Adds, IsPrefix, HasEnded, Onward};
ghost use Rattle.opfs_hall.specs.Seen.{AreNew, new_pass, in_turn, at_rest, joined, HasAll};
ghost use Rattle.opfs_hall.specs.Turns.{HasGiven, HasTaken, pass_of, IsFresh, IsPlaced, IsPlaceOf, MayGive};

use crate::board::{Board, Key, Place, TICKET, VALUE};
use crate::chronicle::Chronicle;
use crate::pass::Pass;
use crate::plays::{Apart, Follow, Shadow, Together};
use crate::steps::{draw, hand_on, number, take_out, wait};
use crate::told::Told;
use crate::watch::Watch;
use atomic_table::{Refused, Table};
use std::alloc::Global;
use std::array;
use std::marker::Model;
use std::sync::Wait;
use std::sync::atomic::{AtomicU64, Ordering};

/// A lock that holds a value, and hands it on in ticket order. Clauses see it as which hall it is (`id`), the opening
/// of its value, and its number of agents.
pub struct Hall<V: Chronicle> {
    pub(crate) board: Board<V>,
    // How often each door was opened, modulo 2^64. A pass waits at the door of its ticket, so that the turn, when it
    // is handed on, wakes nobody but the next in line.
    pub(crate) doors: [AtomicU64; 64],
    // How often its bell was rung, modulo 2^64.
    pub(crate) rung: AtomicU64,
}

impl<V: Chronicle> Model for Hall<V> {
    ghost use Rattle.opfs_hall.specs.Seen.{HallSeen};
    ghost use Rattle.opfs_hall.specs.Turns.{IsSized};

    ghost Value = { HallSeen V.Opening };

    ghost view = { λ h. record {
      id = h.board.shared.table_id;
      opening = V.opening h.board.shared.key.value.value;
      agents = h.board.shared.key.agents;
    } };

    ghost invariant = { λ h. IsSized h.board.shared.table_id };
}

/// A turn that a pass has taken, with the value. `entered` is the pass as it took the turn, `came` the value as it was then.
/// It has to be spent, by `leave`: it cannot be dropped or taken apart, so let no `?` come while it is held.
pub struct Turn<V: Chronicle> {
    pub value: V,
    came: Told<V>,
    entered: Told<Pass<V>>,
    seat: Place<V>,
    ghost busy: { entered.value.busy ≡ true },
    ghost placed: { IsPlaceOf seat entered.value },
    ghost last: { seat.me.0.last ≡ Some came.value },
}

impl<V: Chronicle> Turn<V> {
    // The value, and the seat that has the turn.
    pub(crate) fn apart(self) -> (V, Place<V>)
        ensures value { result.0 ≡ self.value }
        ensures seat { IsPlaceOf result.1 self.entered.value }
        ensures busy { self.entered.value.busy ≡ true }
        ensures last { result.1.me.0.last ≡ Some self.came.value }
    {
        let Turn {
            value,
            came: _,
            entered: _,
            seat,
        } = self;
        (value, seat)
    }
}

/// The hall, and its first seat. It gives the value back where memory is short.
fn lay<V: Chronicle>(alloc: Global, value: V, agents: u32) -> Result<(Hall<V>, Place<V>), V>
    requires few { agents ≤ 64 }
    requires empty { V.entries value ≡ [] }
    ensures hall { IfOk result (λ r. (r.0.opening ≡ V.opening value) × (r.0.agents ≡ agents)) }
    ensures seat { IfOk result (λ r. IsFresh r.1 r.0 0) }
    ensures err { IfErr result (λ v. v ≡ value) }
{
    let about = Key {
        value: Told::of(&value),
        agents,
    };
    let Ok(mut slots) = Vec::with_capacity(alloc, 1) else {
        return Err(value);
    };
    slots.push_reserved(Some(value));
    match Table::new(alloc, &[0, 0, 0], slots, &about) {
        Ok((board, seat)) => {
            let doors = array::from_fn(|_| AtomicU64::new(0));
            let rung = AtomicU64::new(0);
            Ok((Hall { board, doors, rung }, seat))
        }
        Err(Refused { slots }) => Err(only(slots)),
    }
}

/// The value of the only slot.
fn only<V>(mut slots: Vec<Option<V>>) -> V
    requires one { (x : V) × (slots.items ≡ Some x ∷ []) }
    ensures { slots.items ≡ Some result ∷ [] }
{
    let slot = slots.pop().unwrap();
    slots.destroy_empty();
    slot.unwrap()
}

/// Makes a pass of a seat that is none yet, and the seat of the next one.
fn number_one<V: Chronicle>(hall: &Hall<V>, seat: Place<V>, next: u32) -> (Pass<V>, Place<V>)
    requires seat { IsFresh seat hall.now next }
    requires few { next ≤ hall.now.agents }
    ensures pass { result.0 ≡ new_pass hall.now next [] }
    ensures seat { IsFresh result.1 hall.now (next + 1) }
{
    let top = &hall.board.shared;
    let mut place = seat;
    number(top, &mut place, next);
    let rest = top.split_seat::<Apart>(&mut place);
    let lent = Told::of(&place);
    let pass = Pass {
        seat: Some(place),
        agent: next,
        hall: Told::of(hall),
        lent,
    };
    (pass, rest)
}

/// Makes the passes, in order. There is room for them.
fn number_all<V: Chronicle>(hall: &Hall<V>, first: Place<V>, count: u32, passes: &mut Vec<Pass<V>>)
    requires seat { IsFresh first hall.now 0 }
    requires all { count ≤ hall.now.agents + 1 }
    requires none { passes.old.items ≡ [] }
    requires room { count ≤ vec_capacity passes.old }
    ensures { AreNew hall.now count passes.new.items }
{
    let mut seat = first;
    for next in 0..count {
        let (pass, rest) = number_one(hall, seat, next);
        passes.push_reserved(pass);
        seat = rest;
    }
}

impl<V: Chronicle> Hall<V> {
    /// Where the pass with this ticket waits.
    fn door(&self, ticket: u64) -> &AtomicU64 {
        &self.doors[(ticket % 64) as usize]
    }

    /// A hall of a value whose list is empty, and its passes 0 to `agents`, in order. Pass 0 is the owner's.
    /// It gives the value back where memory is short, and refuses for nothing else.
    pub fn make<R: AllocGlobal>(rt: &R, value: V, agents: u32) -> Result<(Hall<V>, Vec<Pass<V>>), V>
        requires few { agents ≤ 64 }
        requires empty { V.entries value ≡ [] }
        ensures hall { IfOk result (λ r. (r.0.opening ≡ V.opening value) × (r.0.agents ≡ agents)) }
        ensures passes { IfOk result (λ r. AreNew r.0 (agents + 1) r.1.items) }
        ensures err { IfErr result (λ v. v ≡ value) }
    {
        let alloc = rt.alloc();
        let count = agents + 1;
        let Ok(mut passes) = Vec::with_capacity(alloc, count as usize) else {
            return Err(value);
        };
        let (hall, seat) = lay(alloc, value, agents)?;
        number_all(&hall, seat, count, &mut passes);
        Ok((hall, passes))
    }

    // Waits for the turn of a seat, and takes it.
    pub(crate) fn take<R: Wait>(&self, rt: &R, seat: &mut Place<V>) -> V
        requires placed { (k : ℕ) × IsPlaced seat.old self.now k }
        requires idle { seat.old.me.0.inside ≡ false }
        ensures { HasTaken V.opening V.entries V.owner (Onward V.entries V.goes_on) self.now seat.old seat.new result }
    {
        let top = &self.board.shared;
        let mine = draw(top, seat);
        wait(rt, top, seat, mine, self.door(mine));
        take_out(top, seat)
    }

    // Waits for the turn of an agent's pass with its seat, and takes it.
    pub(crate) fn turn_of<R: Wait>(&self, rt: &R, seat: Place<V>, agent: u32) -> Turn<V>
        requires placed { IsPlaced seat self.now agent }
        requires idle { seat.me.0.inside ≡ false }
        ensures taken { HasTaken V.opening V.entries V.owner (Onward V.entries V.goes_on) self.now seat result.seat result.value }
        ensures grows { GrowsByOthers V.owner agent seat.me.0.base (V.entries result.value) }
        ensures came { result.came.value ≡ result.value }
        ensures entered { result.entered.value ≡ pass_of None result.seat self.now agent }
    {
        let mut seat = seat;
        let value = self.take(rt, &mut seat);
        let pass = Pass {
            seat: None,
            agent,
            hall: Told::of(self),
            lent: Told::of(&seat),
        };
        Turn {
            came: Told::of(&value),
            value,
            entered: Told::of(&pass),
            seat,
        }
    }

    // Hands the turn of a seat on.
    pub(crate) fn give(&self, seat: &mut Place<V>, value: V)
        requires { MayGive V.opening V.entries V.owner V.goes_on self.now seat.old value }
        ensures { HasGiven V.opening V.entries V.owner (Onward V.entries V.goes_on) self.now seat.old seat.new value }
    {
        let top = &self.board.shared;
        let next = hand_on(top, seat, value);
        // Where nobody has drawn it yet, whoever draws it finds that it is served.
        if top.peek(TICKET) != next {
            let door = self.door(next);
            door.fetch_add(1, Ordering::SeqCst);
            door.wake_all();
        }
    }

    /// Waits for the turn of the pass, and takes it.
    pub fn enter<R: Wait>(&self, rt: &R, pass: &mut Pass<V>) -> Turn<V>
        requires own { pass.old.hall ≡ self.now }
        requires idle { pass.old.busy ≡ false }
        ensures opening { V.opening result.value ≡ self.now.opening }
        ensures grows { GrowsByOthers V.owner pass.old.agent pass.old.base (V.entries result.value) }
        ensures pass { pass.new ≡ in_turn pass.old (V.entries result.value) }
        ensures entered { result.entered.value ≡ pass.new }
        ensures came { result.came.value ≡ result.value }
    {
        let seat = pass.seat.take().unwrap();
        let turn = self.turn_of(rt, seat, pass.agent);
        pass.lent = Told::of(&turn.seat);
        turn
    }

    /// The same behind a watch: the value has gone on from the one that the watch has seen last.
    pub fn enter_behind<R: Wait>(&self, rt: &R, pass: &mut Pass<V>, watch: &mut Watch<V>) -> Turn<V>
        requires own { (pass.old.hall ≡ self.now) × (watch.old.pass.hall ≡ self.now) }
        requires idle { pass.old.busy ≡ false }
        ensures opening { V.opening result.value ≡ self.now.opening }
        ensures grows { GrowsByOthers V.owner pass.old.agent pass.old.base (V.entries result.value) }
        ensures goes { V.goes_on watch.old.last result.value }
        ensures kept { IsPrefix (V.entries watch.old.last) (V.entries result.value) }
        ensures pass { pass.new ≡ in_turn pass.old (V.entries result.value) }
        ensures entered { result.entered.value ≡ pass.new }
        ensures came { result.came.value ≡ result.value }
        ensures same { watch.new ≡ watch.old }
    {
        let top = &self.board.shared;
        let mut seat = pass.seat.take().unwrap();
        let shadow = top.split_seat::<Shadow>(&mut watch.seat);
        top.join_seat::<Follow>(&mut seat, shadow);
        let turn = self.turn_of(rt, seat, pass.agent);
        pass.lent = Told::of(&turn.seat);
        turn
    }

    /// Hands the turn on. The value's list is what the next pass finds.
    pub fn leave(&self, pass: &mut Pass<V>, turn: Turn<V>)
        requires own { pass.old.hall ≡ self.now }
        requires entered { turn.entered.value ≡ pass.old }
        requires opening { V.opening turn.value ≡ self.now.opening }
        requires adds { Adds V.owner pass.old.agent pass.old.base (V.entries turn.value) }
        requires goes { V.goes_on turn.came.value turn.value }
        ensures { pass.new ≡ at_rest pass.old (V.entries turn.value) }
    {
        let (value, mut seat) = turn.apart();
        self.give(&mut seat, value);
        pass.seat = Some(seat);
    }

    /// What the bell tells now. One that has the turn reads it there, so that it misses no ring of a later turn.
    pub fn heard(&self) -> u32 {
        (self.rung.load(Ordering::SeqCst) % (1 << 32)) as u32
    }

    /// Rings the bell: all that sleep for it wake.
    pub fn ring(&self) {
        self.rung.fetch_add(1, Ordering::SeqCst);
        self.rung.wake_all();
    }

    /// Sleeps while the bell tells what was heard. It may wake for no reason.
    pub fn sleep<R: Wait>(&self, rt: &R, heard: u32) {
        self.rung.park(rt, heard);
    }

    /// Collects a pass that has ended, with all that it has collected.
    pub fn join(&self, into: &mut Pass<V>, from: Pass<V>)
        requires own { (into.old.hall ≡ self.now) × (from.hall ≡ self.now) }
        requires idle { (into.old.busy ≡ false) × (from.busy ≡ false) }
        requires agent { from.agent ≢ 0 }
        ensures { into.new ≡ joined into.old from }
    {
        let top = &self.board.shared;
        let seat = into.seat.as_mut().unwrap();
        top.join_seat::<Together>(seat, from.into_place());
    }

    /// Ends the hall, with a pass that has collected all others, and gives the value.
    pub fn close(self, pass: Pass<V>) -> V
        requires own { pass.hall ≡ self }
        requires idle { pass.busy ≡ false }
        requires all { HasAll pass }
        ensures opening { V.opening result ≡ self.opening }
        ensures base { IsPrefix pass.base (V.entries result) }
        ensures ended { All (HasEnded V.owner (V.entries result)) pass.ended }
    {
        let Self {
            board,
            doors: _,
            rung: _,
        } = self;
        let mut closed = board.close_with(pass.into_place());
        let slot = closed.take(VALUE);
        closed.free();
        slot.unwrap()
    }
}
