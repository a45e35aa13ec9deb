//! What an agent enters the hall with.
ghost use Rattle.std.specs.Prelude.{◌≡◌, false};
ghost use Rattle.opfs_hall.specs.Turns.{IsPlaceOf};

use crate::board::Place;
use crate::chronicle::Chronicle;
use crate::hall::Hall;
use crate::told::Told;
use std::marker::Model;

/// A pass of a hall. Clauses see it as its hall, its agent's number, the list that it has seen (`base`), the number
/// and base of each pass that was joined into it (`ended`), and whether it has the turn (`busy`).
/// A hall can be closed only with a pass that has collected all others, so a pass that is dropped keeps it open.
pub struct Pass<V: Chronicle> {
    // Its seat; while it has the turn, the turn has that.
    pub(crate) seat: Option<Place<V>>,
    pub(crate) agent: u32,
    pub(crate) hall: Told<Hall<V>>,
    // The seat as it was handed over to the turn.
    pub(crate) lent: Told<Place<V>>,
}

impl<V: Chronicle> Model for Pass<V> {
    ghost use Rattle.opfs_hall.specs.Seen.{PassSeen};
    ghost use Rattle.opfs_hall.specs.Turns.{IsSeated, pass_of};

    ghost Value = { PassSeen V.Opening V.Entry };

    ghost view = { λ p. pass_of p.seat p.lent.value p.hall.value p.agent };

    ghost invariant = { λ p. IsSeated p.seat p.lent.value p.hall.value p.agent };
}

impl<V: Chronicle> Pass<V> {
    /// The number of its agent.
    pub fn agent(&self) -> u32
        ensures { result ≡ self.now.agent }
    {
        self.agent
    }

    pub(crate) fn into_place(self) -> Place<V>
        requires idle { self.busy ≡ false }
        ensures { IsPlaceOf result self }
    {
        let Self {
            seat,
            agent: _,
            hall: _,
            lent: _,
        } = self;
        seat.unwrap()
    }
}

impl<V: Chronicle> Drop for Pass<V> {
    fn drop(self) {
        let Self {
            seat: _,
            agent: _,
            hall: _,
            lent: _,
        } = self;
    }
}
