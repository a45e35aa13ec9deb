//! Whether the awaits of agents are at rest.

ghost use Rattle.std.specs.Prelude.{◌≡◌, ◌≤◌, false, length};
ghost use Rattle.opfs_machine.specs.Histories.{state_after};
ghost use Rattle.opfs_serving.specs.Served.{AreAtRest, IsAtRest};
ghost use Rattle.opfs_serving.specs.Turns.{HasTurned};
ghost use Rattle.opfs_store.specs.Acts.Asking.{IsThere};

use crate::seat::Seat;
use opfs_hall::{Hall, Watch};
use opfs_store::{AwaitState, Store};
use std::sync::Wait;

// Whether the await of a seat, whose agent has this number, is to be looked after: the agent does not wait for it yet, or it is due.
fn needs_look<S: Store>(store: &S, seat: &Seat<S>, agent: u32) -> bool
    requires { IsThere (state_after (S.opened (S.opening store.now)) (S.entries store.now)) agent }
    ensures rest { result ≡ false → IsAtRest (S.opened (S.opening store.now)) (S.entries store.now) agent seat.now }
    ensures look { IsAtRest (S.opened (S.opening store.now)) (S.entries store.now) agent seat.now → result ≡ false }
{
    if seat.agent.is_none() {
        return false;
    }
    let Some(tag) = seat.awaits.as_ref() else {
        return false;
    };
    if !store.waits_for(agent, tag.as_str()) {
        return true;
    }
    store.await_state(agent, tag.as_str()) != AwaitState::Neither
}

// Whether that of any seat is.
fn any_needs_look<S: Store>(store: &S, seats: &[Seat<S>]) -> bool
    requires few { length seats.now ≤ 64 }
    requires there { length seats.now ≤ length (state_after (S.opened (S.opening store.now)) (S.entries store.now)).agents }
    ensures rest { result ≡ false → AreAtRest (S.opened (S.opening store.now)) (S.entries store.now) seats.now }
    ensures look { AreAtRest (S.opened (S.opening store.now)) (S.entries store.now) seats.now → result ≡ false }
{
    for place in 0..seats.len() {
        if needs_look(store, &seats[place], place as u32 + 1) {
            return true;
        }
    }
    false
}

/// Takes a turn with the owner's pass, and tells whether the await of any seat is to be looked after then.
pub fn look_turn<S: Store, R: Wait>(
    rt: &R,
    hall: &Hall<S>,
    watch: Watch<S>,
    seats: &[Seat<S>],
) -> (Watch<S>, bool)
    requires own { watch.pass.hall ≡ hall.now }
    requires owner { watch.pass.agent ≡ 0 }
    requires few { length seats.now ≤ 64 }
    requires all { length seats.now ≤ length (S.opened hall.now.opening).agents }
    ensures turned { HasTurned S.opening S.entries S.keeps S.goes_on hall.now watch result.0 }
    ensures quiet { result.1 ≡ false → AreAtRest (S.opened (S.opening result.0.last)) (S.entries result.0.last) seats.now }
    ensures look { AreAtRest (S.opened (S.opening result.0.last)) (S.entries result.0.last) seats.now → result.1 ≡ false }
{
    let turn = watch.enter(rt, hall);
    turn.value.know_kept();
    turn.value.know_legal();
    let look = any_needs_look(&turn.value, seats);
    (Watch::leave(hall, turn), look)
}
