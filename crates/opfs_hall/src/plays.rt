//! What each kind of step on the table tells, and how seats are split and joined.
ghost use Rattle.opfs_hall.specs.History.{Onward};
ghost use Rattle.opfs_hall.specs.Turns.{ticketed, looked, handed_on, numbered, split_left, split_right, shadow, learned, followed, joined_view, spent_view};

use crate::board::View;
use crate::chronicle::Chronicle;
use atomic_table::{Join, Play, Split};

/// A pass draws its ticket.
pub(crate) struct Ticket;

impl<V: Chronicle> Play<Option<V>, View<V::Opening, V::Entry, V>> for Ticket {
    ghost then = { ticketed };
}

/// A pass looks which ticket is served, and takes the turn where it is its own.
pub(crate) struct Look;

impl<V: Chronicle> Play<Option<V>, View<V::Opening, V::Entry, V>> for Look {
    ghost then = { looked V.opening V.entries V.owner (Onward V.entries V.goes_on) };
}

/// The pass that has the turn hands it on.
pub(crate) struct HandOn;

impl<V: Chronicle> Play<Option<V>, View<V::Opening, V::Entry, V>> for HandOn {
    ghost then = { handed_on V.entries };
}

/// A seat draws the number of its pass.
pub(crate) struct Number;

impl<V: Chronicle> Play<Option<V>, View<V::Opening, V::Entry, V>> for Number {
    ghost then = { numbered };
}

/// A new seat comes beside a pass, and the right to draw the next number goes to it.
pub(crate) struct Apart;

impl<O, E, V> Split<View<O, E, V>> for Apart {
    ghost left = { split_left };

    ghost right = { split_right };
}

/// A pass collects another one, with all that it has collected.
pub(crate) struct Together;

impl<O, E, V> Join<View<O, E, V>> for Together {
    ghost both = { joined_view };

    ghost spent = { spent_view };
}

/// A seat that is no pass comes beside one, and knows what that has seen.
pub(crate) struct Shadow;

impl<O, E, V> Split<View<O, E, V>> for Shadow {
    ghost left = { λ v. v };

    ghost right = { shadow };
}

/// A pass takes note of what a seat that is no pass knows.
pub(crate) struct Learn;

impl<O, E, V> Join<View<O, E, V>> for Learn {
    ghost both = { learned };

    ghost spent = { spent_view };
}

/// A pass goes on from the value that a seat which is no pass has seen.
pub(crate) struct Follow;

impl<O, E, V> Join<View<O, E, V>> for Follow {
    ghost both = { followed };

    ghost spent = { spent_view };
}
