//! The steps of a pass, on its seat.
ghost use Rattle.std.specs.Prelude.{◌≡◌, ℕ, ◌+◌, ◌%◌, ◌^◌, ◌≤◌, [], ◌∷◌, true, false, Option, Some, None};
ghost use Rattle.opfs_hall.specs.History.{Adds, Onward};
ghost use Rattle.opfs_hall.specs.Turns.{IsSized, IsSameSeat, IsIdle, Entered};

use crate::board::{NUMBER, Place, SERVING, TICKET, Top, VALUE};
use crate::chronicle::Chronicle;
use crate::plays::{HandOn, Look, Number, Ticket};
use std::hint::spin_loop;
use std::sync::Wait;
use std::sync::atomic::{AtomicU64, Ordering};

/// How often a pass looks again before it sleeps.
const SPINS: u32 = 64;

/// Draws a ticket, and gives it as the word has it.
pub(crate) fn draw<V: Chronicle>(top: &Top<V>, place: &mut Place<V>) -> u64
    requires table { (place.old.table_id ≡ top.now.table_id) × IsSized top.now.table_id }
    requires idle { IsIdle place.old }
    ensures seat { IsSameSeat place.old place.new }
    ensures ticket { (t : ℕ) × (t % 2 ^ 64 ≡ result)
        × (place.new.me ≡ (record place.old.me.0 { ticket = Some t }, [])) }
{
    top.fetch_add::<Ticket>(place, TICKET, 1)
}

/// Waits until the ticket `mine` is served, and takes the turn. It sleeps at its door, which is opened after the ticket
/// is served.
pub(crate) fn wait<V: Chronicle, R: Wait>(
    rt: &R,
    top: &Top<V>,
    place: &mut Place<V>,
    mine: u64,
    door: &AtomicU64,
)
    requires table { (place.old.table_id ≡ top.now.table_id) × IsSized top.now.table_id }
    requires waits { (t : ℕ) × (place.old.me.0.ticket ≡ Some t) × (t % 2 ^ 64 ≡ mine) }
    requires outside { (place.old.me.0.inside ≡ false) × (place.old.me.1 ≡ []) }
    ensures seat { IsSameSeat place.old place.new }
    ensures entered { Entered V.opening V.entries V.owner (Onward V.entries V.goes_on) place.old.me place.new.me }
{
    let mut spins = SPINS;
    for _ in rt.forever() {
        // Read before the look: a door that is opened after the look lets nobody sleep.
        let opened = door.load(Ordering::SeqCst);
        let serving = top.load::<Look>(place, SERVING);
        if serving == mine {
            return;
        }
        if spins > 0 {
            spins -= 1;
            spin_loop();
        } else {
            door.park(rt, (opened % (1 << 32)) as u32);
        }
    }
    unreachable!()
}

/// Takes the value out of the slot.
pub(crate) fn take_out<V: Chronicle>(top: &Top<V>, place: &mut Place<V>) -> V
    requires table { place.old.table_id ≡ top.now.table_id }
    requires home { (x : V) × (place.old.me.1 ≡ (0, Some x) ∷ []) }
    ensures seat { IsSameSeat place.old place.new × (place.new.me ≡ (place.old.me.0, (0, None) ∷ [])) }
    ensures value { place.old.me.1 ≡ (0, Some result) ∷ [] }
{
    let found = top.exchange(place, VALUE, None);
    let Some(value) = found else { unreachable!() };
    value
}

/// Puts the value back into the slot, and hands the turn on. It gives the next ticket, as the word has it.
pub(crate) fn hand_on<V: Chronicle>(top: &Top<V>, place: &mut Place<V>, value: V) -> u64
    requires table { (place.old.table_id ≡ top.now.table_id) × IsSized top.now.table_id }
    requires inside { (place.old.me.0.inside ≡ true) × (place.old.me.1 ≡ (0, None) ∷ []) }
    requires opening { place.old.me.0.opening ≡ Some (V.opening value) }
    requires adds { (k : ℕ) × (place.old.me.0.number ≡ Some k)
        × Adds V.owner k place.old.me.0.base (V.entries value) }
    requires onward { (x : V) × (place.old.me.0.last ≡ Some x) × V.goes_on x value }
    ensures seat { IsSameSeat place.old place.new }
    ensures rests { place.new.me
        ≡ (record place.old.me.0 { inside = false; ticket = None; base = V.entries value; last = Some value }, []) }
{
    let before = top.exchange(place, VALUE, Some(value));
    let None = before else { unreachable!() };
    let served = top.fetch_add::<HandOn>(place, SERVING, 1);
    served.wrapping_add(1)
}

/// Draws the number of a new pass, which only this seat may draw.
pub(crate) fn number<V: Chronicle>(top: &Top<V>, place: &mut Place<V>, number: u32)
    requires table { (place.old.table_id ≡ top.now.table_id) × IsSized top.now.table_id }
    requires idle { (place.old.me.0.ticket ≡ None) × (place.old.me.1 ≡ []) }
    requires fresh { (place.old.me.0.number ≡ None) × (place.old.me.0.next ≡ Some number) }
    requires few { (o : V.Opening) × (place.old.me.0.opening ≡ Some o) × (number ≤ place.old.me.0.agents) }
    ensures seat { IsSameSeat place.old place.new }
    ensures drawn { place.new.me
        ≡ (record place.old.me.0 { number = Some number; next = Some (number + 1) }, []) }
{
    let expected = u64::from(number);
    let found = top.compare_exchange::<Number>(place, NUMBER, expected, expected + 1);
    prove!(found == expected);
}
