//! What calls change, refused or not; what pending calls leave; and what clearing a unit leaves.

ghost use Rattle.std.specs.Prelude.{◌≡◌, ◌+◌, ◌-◌, ◌<◌, ◌≤◌, ◌++◌, ◌^◌, [], None, IsSome, IsTrue, OnOk, OnErr, is_ok, true, false, length, vec_capacity};
ghost use Rattle.opfs_state_rows.specs.Changes.Allowed.{MayApply, IsSized};
ghost use Rattle.opfs_state_rows.specs.Changes.Asking.{IsAccepted, ends};
ghost use Rattle.opfs_state_rows.specs.Changes.Changed.{freed_by, tree_after};
ghost use Rattle.opfs_laws.specs.Lengths.Kept.{Kept};
ghost use Rattle.opfs_machine.specs.Agents.{agent_of, counted};
ghost use Rattle.opfs_machine.specs.Contents.{in_lengths};
ghost use Rattle.opfs_machine.specs.Effects.{effect, refused};
ghost use Rattle.opfs_machine.specs.Rows.{row_at};
ghost use Rattle.opfs_machine.specs.Steps.{evicted};
ghost use Rattle.opfs_tree.specs.Ready.Ready.{ready_within};
ghost use Rattle.opfs_register.specs.Slots.{most_rows};
ghost use Rattle.opfs_state_rows.specs.Standing.Noted.{with_sum};
ghost use Rattle.opfs_state.specs.Applied.{IsPrepared};
ghost use Rattle.opfs_tree.specs.Rows.{extents_within, without};
ghost use Rattle.opfs_state.specs.Verdicts.Callers.{IsAgent};

use crate::performing::perform_any;
use crate::preparing::ready_for;
use crate::state::{Ready, State};
use opfs_base::{Extent, Extents, Key};
use opfs_hist::{Op, PendingSum};
use opfs_machine::Sizes;
use opfs_state_rows::changes::Caller;
use opfs_state_rows::changes::agents::refuse;
use std::alloc::{AllocError, Global};

impl State {
    /// A call that is not refused, for which all stands ready, and for which units were cleared. A file that is stored gets
    /// other extents where some are told, and those that a call lets go are appended to those freed. Takes no memory.
    pub fn apply(
        &mut self,
        agent: u32,
        op: &Op,
        sizes: Sizes,
        extents: Option<Extents>,
        freed: &mut Vec<Extent>,
    )
        requires agent { IsAgent self.old.store.machine agent }
        requires kept { Kept self.old.store.machine }
        requires may { MayApply self.old.store.machine sizes agent op.now }
        requires sized { IsSized self.old.store.machine sizes agent op.now }
        requires prepared { IsPrepared self.old agent op.now }
        requires few { length (agent_of self.old.store.machine agent).own < most_rows }
        requires entries { self.old.store.machine.entries + 1 < 2 ^ 64 }
        requires room { length (freed.old.items ++ freed_by self.old.store agent op.now extents) ≤ vec_capacity freed.old }
        ensures machine { self.new.store.machine ≡ counted (effect in_lengths self.old.store.machine sizes agent op.now) agent }
        ensures tree { self.new.store.tree ≡ tree_after self.old.store agent op.now sizes extents }
        ensures place { self.new.store.prepared.place ≡ None }
        ensures freed { freed.new.items ≡ freed.old.items ++ freed_by self.old.store agent op.now extents }
        ensures capacity { vec_capacity freed.old ≤ vec_capacity freed.new }
    {
        let ready = self.ready.take().unwrap_or(Ready::none());
        let caller = Caller { agent, sizes };
        perform_any(
            self.alloc,
            &mut self.store,
            caller,
            op,
            ready,
            extents,
            freed,
        );
    }

    /// A call that is refused, that answers Stuck, or that answers a disk fault: only that the answer Stuck ends the
    /// agent's waiting. Nothing stands ready for it any more; units, room and tag that were made ready stay. Takes no memory.
    pub fn refuse(&mut self, agent: u32, op: &Op)
        requires agent { IsAgent self.old.store.machine agent }
        requires entries { self.old.store.machine.entries + 1 < 2 ^ 64 }
        ensures machine { self.new.store.machine ≡ counted (refused self.old.store.machine agent op.now) agent }
        ensures tree { self.new.store.tree ≡ self.old.store.tree }
        ensures place { self.new.store.prepared.place ≡ None }
        ensures prepared { self.new.store.prepared ≡ record self.old.store.prepared { place = None } }
        ensures target { self.new.target ≡ None }
        ensures growth { self.new.growth ≡ 0 }
    {
        self.ready = None;
        self.store.cancel();
        refuse(&mut self.store, agent, op);
    }

    /// No place stands ready any more, and nothing else beside the store; units, room and tag that were made ready stay, as
    /// all the rest does. Takes no memory.
    pub fn cancel(&mut self)
        ensures store { self.new.store ≡ record self.old.store { prepared = record self.old.store.prepared { place = None } } }
        ensures target { self.new.target ≡ None }
        ensures growth { self.new.growth ≡ 0 }
    {
        self.ready = None;
        self.store.cancel();
    }

    /// Takes in the sum of an agent's local calls. Takes no memory.
    pub fn note(&mut self, agent: u32, sum: PendingSum)
        requires agent { IsAgent self.old.store.machine agent }
        requires few { length (agent_of self.old.store.machine agent).own + sum.rows ≤ most_rows }
        requires entries { self.old.store.machine.entries + sum.entries < 2 ^ 64 }
        ensures { self.new ≡ record self.old { store = record self.old.store { machine = with_sum self.old.store.machine (agent - 1) sum } } }
    {
        self.store.note(agent as usize - 1, sum);
    }

    /// Clears a unit that has a root and of which no place stands ready: takes out all its rows, appends their extents to
    /// those freed, and counts an entry that is no use. Takes no memory.
    pub fn clear(&mut self, key: &Key, freed: &mut Vec<Extent>)
        requires root { IsSome (row_at self.old.store.machine (key.now, [])) }
        requires ready { ready_within (key.now, []) self.old.store.prepared.place ≡ false }
        requires entries { self.old.store.machine.entries + 1 < 2 ^ 64 }
        requires room { length (freed.old.items ++ extents_within (key.now, []) self.old.store.tree) ≤ vec_capacity freed.old }
        ensures machine { self.new.store.machine ≡ evicted self.old.store.machine key.now }
        ensures tree { self.new.store.tree ≡ without (key.now, []) self.old.store.tree }
        ensures prepared { self.new.store.prepared ≡ self.old.store.prepared }
        ensures target { self.new.target ≡ self.old.target }
        ensures growth { self.new.growth ≡ self.old.growth }
        ensures freed { freed.new.items ≡ freed.old.items ++ extents_within (key.now, []) self.old.store.tree }
        ensures capacity { vec_capacity freed.old ≤ vec_capacity freed.new }
    {
        self.store.know_rows_match_tree();
        self.store.clear(self.alloc, key, freed);
    }
}

impl State {
    /// Makes ready all that an accepted call asks for, so that it takes no memory: where it makes a row, that place stands
    /// ready. For calls that end what is open, or the agent, it takes none itself.
    pub fn prepare(&mut self, alloc: Global, agent: u32, op: &Op) -> Result<(), AllocError>
        requires agent { IsAgent self.old.store.machine agent }
        requires judged { IsAccepted self.old.store.machine agent op.now }
        ensures machine { self.new.store.machine ≡ self.old.store.machine }
        ensures tree { self.new.store.tree ≡ self.old.store.tree }
        ensures ready { OnOk result (IsPrepared self.new agent op.now) }
        ensures err { OnErr result (self.new.store.prepared.place ≡ None) }
        ensures ends { ends op.now ≡ true → IsTrue (is_ok result) }
    {
        self.ready = None;
        self.store.cancel();
        match ready_for(alloc, &mut self.store, agent, op) {
            Ok(ready) => {
                self.ready = Some(ready);
                Ok(())
            }
            Err(error) => Err(error),
        }
    }
}
