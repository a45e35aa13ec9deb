//! The table that all passes share.
//! Its words are the ticket that is served, the next ticket and the next number of a pass, in this order.
//! Its slot holds the value, or nothing while the value is out with the pass that has the turn.
use crate::chronicle::Chronicle;
use crate::told::Told;
use atomic_table::{Seat, Shared, Table, TableRule};
use std::alloc::Global;
use std::collections::LinkedList;

pub const SERVING: usize = 0;

pub const TICKET: usize = 1;

pub const NUMBER: usize = 2;

/// The only slot.
pub const VALUE: usize = 0;

/// What a seat at the table knows. No value of it is made.
pub struct View<O, E, V> {
    pub agents: u32,
    /// None once the seat is spent.
    pub opening: Option<O>,
    /// The number of the seat's pass.
    pub number: Option<u32>,
    /// The list that the pass has seen.
    pub base: LinkedList<E>,
    /// The value that the pass has seen last.
    pub last: Option<V>,
    /// The number and the base of each pass that was joined into this one.
    pub ended: LinkedList<(u32, LinkedList<E>)>,
    /// The ticket that the pass holds, counted without end: the words count modulo 2^64.
    pub ticket: Option<u64>,
    /// Whether the pass has the turn.
    pub inside: bool,
    /// The number that this seat alone may draw.
    pub next: Option<u32>,
}

/// What the table is told when it is made.
pub struct Key<V> {
    pub value: Told<V>,
    pub agents: u32,
}

impl<V> Drop for Key<V> {
    fn drop(self) {
        let Self {
            value: _,
            agents: _,
        } = self;
    }
}

/// The turn's rule.
pub struct InTurn;

impl<V: Chronicle> TableRule<Option<V>, View<V::Opening, V::Entry, V>, Key<V>> for InTurn {
    ghost use Rattle.opfs_hall.specs.History.{Onward};
    ghost use Rattle.opfs_hall.specs.Turns.{Kept, first_view};

    ghost holds = { λ key. Kept V.opening V.entries V.owner (Onward V.entries V.goes_on) key.agents (V.opening key.value.value) };

    ghost first = { λ key. first_view key.agents (V.opening key.value.value) (V.entries key.value.value) };
}

pub type Board<V> = Table<
    Option<V>,
    View<<V as Chronicle>::Opening, <V as Chronicle>::Entry, V>,
    Key<V>,
    InTurn,
    Global,
>;

/// The part of the table that steps go through.
pub type Top<V> = Shared<
    Option<V>,
    View<<V as Chronicle>::Opening, <V as Chronicle>::Entry, V>,
    Key<V>,
    InTurn,
>;

pub type Place<V> = Seat<Option<V>, View<<V as Chronicle>::Opening, <V as Chronicle>::Entry, V>>;
