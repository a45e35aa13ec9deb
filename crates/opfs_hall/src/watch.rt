//! A pass that remembers the value which it saw last.
ghost use Rattle.std.specs.Prelude.{◌≡◌, ◌≢◌, false, All};
ghost use Rattle.opfs_hall.specs.History.{Adds, GrowsByOthers, HasEnded, IsPrefix};
ghost use Rattle.opfs_hall.specs.Seen.{HasAll, at_rest, in_turn, joined};

use crate::board::{Place, VALUE};
use crate::chronicle::Chronicle;
use crate::hall::{Hall, Turn};
use crate::pass::Pass;
use crate::plays::{Learn, Shadow, Together};
use crate::told::Told;
use std::marker::Model;
use std::sync::Wait;

/// The owner's pass, which is that of no agent, and the value as it stood when it had the turn last. What holds of it then and stays as a
/// value goes on holds of each value that it sees later, and of the one that the hall gives in the end.
pub struct Watch<V: Chronicle> {
    pub(crate) seat: Place<V>,
    hall: Told<Hall<V>>,
    last: Told<V>,
}

impl<V: Chronicle> Model for Watch<V> {
    ghost use Rattle.opfs_hall.specs.Seen.{WatchSeen};
    ghost use Rattle.opfs_hall.specs.Turns.{IsWatch, watch_of};

    ghost Value = { WatchSeen V.Opening V.Entry V };

    ghost view = { λ w. watch_of w.seat w.hall.value w.last.value };

    ghost invariant = { λ w. IsWatch w.seat w.hall.value w.last.value };
}

impl<V: Chronicle> Watch<V> {
    /// Takes a turn with the owner's pass, hands it on, and watches from then on. It waits for the turn.
    pub fn begin<R: Wait>(rt: &R, hall: &Hall<V>, pass: Pass<V>) -> Watch<V>
        requires own { pass.hall ≡ hall.now }
        requires idle { pass.busy ≡ false }
        requires owner { pass.agent ≡ 0 }
        ensures opening { V.opening result.last ≡ hall.now.opening }
        ensures grows { GrowsByOthers V.owner 0 pass.base (V.entries result.last) }
        ensures pass { result.pass ≡ at_rest pass (V.entries result.last) }
    {
        let mut seat = pass.into_place();
        let value = hall.take(rt, &mut seat);
        let last = Told::of(&value);
        hall.give(&mut seat, value);
        Watch {
            seat,
            hall: Told::of(hall),
            last,
        }
    }

    /// Waits for the turn, and takes it.
    pub fn enter<R: Wait>(self, rt: &R, hall: &Hall<V>) -> Turn<V>
        requires own { self.pass.hall ≡ hall.now }
        ensures opening { V.opening result.value ≡ hall.now.opening }
        ensures goes { V.goes_on self.last result.value }
        ensures kept { IsPrefix (V.entries self.last) (V.entries result.value) }
        ensures grows { GrowsByOthers V.owner 0 self.pass.base (V.entries result.value) }
        ensures entered { result.entered.value ≡ in_turn self.pass (V.entries result.value) }
        ensures came { result.came.value ≡ result.value }
    {
        let Watch {
            seat,
            hall: _,
            last: _,
        } = self;
        hall.turn_of(rt, seat, 0)
    }

    /// Hands on a turn that was taken with a watch. The value is what the next pass finds.
    pub fn leave(hall: &Hall<V>, turn: Turn<V>) -> Watch<V>
        requires own { turn.entered.value.hall ≡ hall.now }
        requires owner { turn.entered.value.agent ≡ 0 }
        requires opening { V.opening turn.value ≡ hall.now.opening }
        requires adds { Adds V.owner 0 turn.entered.value.base (V.entries turn.value) }
        requires goes { V.goes_on turn.came.value turn.value }
        ensures last { result.last ≡ turn.value }
        ensures pass { result.pass ≡ at_rest turn.entered.value (V.entries turn.value) }
    {
        let (value, mut seat) = turn.apart();
        let last = Told::of(&value);
        hall.give(&mut seat, value);
        Watch {
            seat,
            hall: Told::of(hall),
            last,
        }
    }

    /// Takes note of what a pass has seen: at its next turn it sees that, too.
    pub fn learn(&mut self, hall: &Hall<V>, pass: &mut Pass<V>)
        requires own { (self.old.pass.hall ≡ hall.now) × (pass.old.hall ≡ hall.now) }
        requires idle { pass.old.busy ≡ false }
        ensures same { pass.new ≡ pass.old }
        ensures pass { self.new.pass ≡ record self.old.pass { base = pass.old.base } }
        ensures last { self.new.last ≡ self.old.last }
    {
        let top = &hall.board.shared;
        let seat = pass.seat.as_mut().unwrap();
        let shadow = top.split_seat::<Shadow>(seat);
        top.join_seat::<Learn>(&mut self.seat, shadow);
    }

    /// Collects a pass that has ended, with all that it has collected.
    pub fn join(&mut self, hall: &Hall<V>, from: Pass<V>)
        requires own { (self.old.pass.hall ≡ hall.now) × (from.hall ≡ hall.now) }
        requires idle { from.busy ≡ false }
        requires agent { from.agent ≢ 0 }
        ensures pass { self.new.pass ≡ joined self.old.pass from }
        ensures last { self.new.last ≡ self.old.last }
    {
        let top = &hall.board.shared;
        top.join_seat::<Together>(&mut self.seat, from.into_place());
    }

    /// Ends the hall, where all other passes were collected, and gives the value.
    pub fn close(self, hall: Hall<V>) -> V
        requires own { self.pass.hall ≡ hall }
        requires all { HasAll self.pass }
        ensures opening { V.opening result ≡ hall.opening }
        ensures base { IsPrefix self.pass.base (V.entries result) }
        ensures ended { All (HasEnded V.owner (V.entries result)) self.pass.ended }
        ensures goes { V.goes_on self.last result }
        ensures kept { IsPrefix (V.entries self.last) (V.entries result) }
    {
        let Watch {
            seat,
            hall: _,
            last: _,
        } = self;
        let Hall {
            board,
            doors: _,
            rung: _,
        } = hall;
        let mut closed = board.close_with(seat);
        let slot = closed.take(VALUE);
        closed.free();
        slot.unwrap()
    }
}
