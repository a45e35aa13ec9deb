//! A store that tells its history to a sink.

ghost use Rattle.std.specs.Prelude.{◌≡◌, ◌≤◌, []};
ghost use Rattle.opfs_outside.specs.Turns.{of_sink};
ghost use Rattle.opfs_telling.specs.Telling.{HasPut, IsTold};

use crate::telling::{FULL, Progress, State, end_telling, tell, waiting_behind};
use opfs_base::Name;
use opfs_hall::Told;
use opfs_hist::{Given, Op, Pending, Room};
use opfs_outside::Sink;
use opfs_store::{Acted, AwaitState, Store};
use opfs_work::Work;
use std::alloc::{AllocError, Global};
use std::marker::Model;

/// A store, and the sink, which is lent to it, to which the lines of its history go. It remembers how the sink was at the beginning.
pub struct Teller<'a, S: Store, K: Sink> {
    store: S,
    sink: &'a mut K,
    progress: Progress,
    begun: Told<K>,
    alloc: Global,
}

impl<'a, S: Store, K: Sink> Model for Teller<'a, S, K> {
    ghost use Rattle.opfs_telling.specs.Seen.{TellerSeen};
    ghost use Rattle.opfs_telling.specs.Telling.{IsTold};

    ghost Value = { TellerSeen S K };

    ghost view = { λ t. record { store = t.store; name = t.sink.ghost_name; begun = t.begun.value; sink = t.sink.now; progress = t.progress } };

    ghost invariant = { λ t. IsTold K.Sink t.begun.value t.sink.now t.progress (S.entries t.store) };
}

/// What a store that told its history leaves: the store, the sink, and how far it was told.
pub struct Parts<'a, S, K> {
    pub store: S,
    pub sink: &'a mut K,
    pub progress: Progress,
}

/// What a store leaves whose history was told to its end: the store, the sink, and how it was told.
pub struct Ended<'a, S, K> {
    pub store: S,
    pub sink: &'a mut K,
    pub state: State,
}

impl<'a, S: Store, K: Sink> Teller<'a, S, K> {
    /// A store without entries, which tells its history to a sink from now on. Takes no memory.
    pub fn make(alloc: Global, store: S, sink: &'a mut K) -> Teller<'a, S, K>
        requires empty { S.entries store ≡ [] }
        ensures store { result.store ≡ store }
        ensures same { result.name ≡ sink.entry.ghost_name }
        ensures begun { result.begun ≡ sink.old }
        ensures sink { result.sink ≡ sink.old }
    {
        let begun = Told::of(&*sink);
        Teller {
            store,
            sink,
            progress: Progress::make(alloc),
            begun,
            alloc,
        }
    }

    /// What its type keeps at each moment: what the sink took is of the lines of the history up to now, in their order; and what the store keeps.
    pub fn know_told(&self)
        ensures told { IsTold K.Sink self.now.begun self.now.sink self.now.progress (S.entries self.now.store) }
        ensures keeps { S.keeps self.now.store }
    {
        self.store.know_kept();
    }

    /// Takes it apart.
    pub fn into_parts(self) -> Parts<'a, S, K>
        ensures store { result.store ≡ self.entry.store }
        ensures same { result.sink.ghost_name ≡ self.entry.name }
        ensures sink { result.sink.now ≡ self.entry.sink }
        ensures told { IsTold K.Sink self.entry.begun result.sink.now result.progress (S.entries result.store) }
    {
        let Teller {
            store,
            sink,
            progress,
            begun: _,
            alloc: _,
        } = self;
        Parts {
            store,
            sink,
            progress,
        }
    }

    /// Puts out the lines that wait, and takes it apart.
    pub fn end(self) -> Ended<'a, S, K>
        ensures store { result.store ≡ self.entry.store }
        ensures same { result.sink.ghost_name ≡ self.entry.name }
        ensures put { HasPut (of_sink K.Sink self.entry.begun result.sink.now) (S.entries self.entry.store) result.state }
        ensures later { K.faults self.entry.begun ≤ K.faults result.sink.now }
    {
        let Parts {
            store,
            sink,
            progress,
        } = self.into_parts();
        let state = end_telling(sink, progress);
        Ended { store, sink, state }
    }
}

impl<'a, S: Store, K: Sink> Store for Teller<'a, S, K> {
    ghost tells = { S.tells };

    ghost opened = { λ o. S.opened o.of };

    ghost faults = { λ t. S.faults t.store };

    ghost faults_before = { λ o. S.faults_before o.of };

    ghost keeps = { λ t. S.keeps t.store };

    fn act(
        &mut self,
        agent: u32,
        number: u32,
        pending: &mut Pending,
        room: Room,
        op: Op,
        work: &mut Work,
        past: &[Name],
    ) -> Result<Acted, AllocError> {
        let most = waiting_behind(&op);
        let acted = self.store.act(agent, number, pending, room, op, work, past);
        let given = self.store.give_out();
        tell(self.alloc, self.sink, &mut self.progress, given, most);
        acted
    }

    fn take_in(&mut self, agent: u32, pending: &mut Pending) {
        self.store.take_in(agent, pending);
        let taken = self.store.give_out();
        tell(self.alloc, self.sink, &mut self.progress, taken, FULL);
    }

    fn await_state(&self, agent: u32, tag: &str) -> AwaitState {
        self.store.await_state(agent, tag)
    }

    fn waits_for(&self, agent: u32, tag: &str) -> bool {
        self.store.waits_for(agent, tag)
    }

    fn give_out(&mut self) -> Given {
        self.store.give_out()
    }

    fn know_legal(&self) {
        self.store.know_legal();
    }

    fn know_counts(&self) {
        self.store.know_counts();
    }

    fn know_kept(&self) {
        self.store.know_kept();
    }

    ghost owned = { S.owned };
}
