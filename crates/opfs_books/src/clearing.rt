//! Units that are cleared for a call, and pending calls.

ghost use Rattle.std.specs.Prelude.{◌≡◌, ◌++◌, ◌∷◌, ◌≤◌, ◌+◌, List, [], None, Some, length, vec_capacity, OnOk, OnErr, IfOk};
ghost use Rattle.opfs_base.specs.Texts.{Text};
ghost use Rattle.opfs_books.specs.Calls.{MayEvictIn, HasEvicted, HasFailedIn};
ghost use Rattle.opfs_books.specs.Laws.Books.{Fixed, AreBooks, AreBooksAt, calls_of};
ghost use Rattle.opfs_books.specs.Laws.Laws.{LeavesPages, ShowsTold, told, failed};
ghost use Rattle.opfs_books.specs.Sharing.Noting.{noted, IsSumOf};
ghost use Rattle.opfs_books.specs.Seen.{book_of, MayTakeIn, IsVictim};
ghost use Rattle.opfs_codec.specs.Fields.{plain, Fits};
ghost use Rattle.opfs_codec.specs.Spelling.{IsChange};
ghost use Rattle.opfs_codec.specs.declared.change.Change.TheVariants.{Evict};
ghost use Rattle.opfs_codec.specs.declared.change.Format.TheVariants.{New};
ghost use Rattle.opfs_hist.specs.declared.history.PendingSum.{PendingSum};
ghost use Rattle.opfs_laws.specs.Histories.Unread.{ArePendingFor};
ghost use Rattle.opfs_machine.specs.declared.own.Own.{Own};
ghost use Rattle.opfs_machine.specs.declared.state.State.{State};
ghost use Rattle.opfs_machine.specs.Changes.{evict};
ghost use Rattle.opfs_machine.specs.Histories.{state_after};
ghost use Rattle.opfs_machine.specs.Runs.{eviction};
ghost use Rattle.opfs_machine.specs.Steps.{evicted};
ghost use Rattle.opfs_records.specs.Replay.Built.{Built};

use crate::books::Books;
use crate::committing::commit_own;
use crate::entering::{EntryWithRoom, enter, with_fault};
use crate::laws::{commits_keep_the_books, telling_keeps_the_books, the_state_is_kept};
use crate::sharing::Shared;
use crate::stored::{calls_are_spelled, calls_may_fail};
use opfs_base::{Extent, Key};
use opfs_codec::ChangeRef;
use opfs_hist::Pending;
use opfs_journal::{DiskFault, Journal};
use opfs_laws::lengths::bridge::{lengths_follow_each_call, local_calls_are_known_by_their_word};
use opfs_outside::Disk;
use std::alloc::Global;

// The change that clears a unit.
#[tactic(auto, using(opfs_codec::proofs::WritingLemmas::change_fits), unfolding(opfs_codec::specs::Fields::plain))]
fn clearing_of(unit: &Key) -> ChangeRef<'_>
    requires { IsChange New (Evict unit.now) }
    ensures plain { plain result ≡ Evict unit.now }
    ensures fits { Fits (plain result) }
{
    ChangeRef::Evict(unit)
}

impl<S: Shared> Books<S> {
    /// Clears a unit for a call: commits its eviction with what is kept back, and enters it. Gives the call's own entry back,
    /// which is still to come. Where the disk failed, the call is entered so, and the eviction may be in doubt.
    pub fn evict<D: Disk>(
        &mut self,
        alloc: Global,
        journal: &mut Journal<D>,
        unit: &Key,
        gone: EntryWithRoom,
        last: EntryWithRoom,
        freed: &mut Vec<Extent>,
    ) -> Result<EntryWithRoom, DiskFault>
        requires { MayEvictIn S.Shared D.Disk self.old journal.old unit.now gone.entry last.entry freed.old }
        ensures last { IfOk result (λ back. back.entry ≡ last.entry) }
        ensures evicted { OnOk result (HasEvicted S.Shared D.Disk unit.now self.old self.new journal.old journal.new freed.old.items freed.new.items) }
        ensures failed { OnErr result (HasFailedIn S.Shared D.Disk last.entry self.old self.new journal.old journal.new freed.old freed.new) }
        ensures failed_books { OnErr result ((f : Fixed D) (recorded : Built) (base : State Text Own) (others : List Text) → AreBooksAt D.Disk f recorded base others (book_of S.Shared self.old) journal.old
            → IsVictim base others last.entry unit.now → AreBooks D.Disk f recorded (book_of S.Shared self.new) journal.new) }
        ensures shown { (f : Fixed D) (recorded : Built) (base : State Text Own) (others : List Text) → AreBooksAt D.Disk f recorded base others (book_of S.Shared self.old) journal.old
            → ShowsTold D.Disk f (book_of S.Shared self.old) (told f (book_of S.Shared self.old) ++ evict unit.now ∷ []) journal.old journal.new }
        ensures leaves { LeavesPages D.Disk journal.old journal.new }
        ensures capacity { vec_capacity freed.old ≤ vec_capacity freed.new }
    {
        commits_keep_the_books::<D>();
        calls_are_spelled();
        calls_may_fail::<D>();
        lengths_follow_each_call();
        the_state_is_kept::<D>();
        let place = self.history.len() as u64;
        let tree = self.state.rows();
        tree.know_order();
        let own = clearing_of(unit);
        match commit_own(&mut self.commits, journal, tree, self.state.shed(), &own) {
            Ok(()) => {
                self.place = None;
                self.state.clear(unit, freed);
                enter(alloc, &mut self.history, gone);
                Ok(last)
            }
            Err(fault) => {
                self.place = Some(place);
                self.state.refuse(last.entry.agent, &last.entry.op);
                enter(alloc, &mut self.history, with_fault(last));
                Err(fault)
            }
        }
    }

    /// Takes in an agent's pending calls, where no unit was cleared since the last call. Takes no memory.
    pub fn take_in<D: Disk>(&mut self, journal: &Journal<D>, agent: u32, pending: &mut Pending)
        requires pending { MayTakeIn D.Disk (book_of S.Shared self.old) journal.now agent pending.old }
        requires first { 1 ≤ agent }
        requires last { agent ≤ 64 }
        requires few { calls_of agent self.old.history + length pending.old ≤ 60000002 }
        requires may { (sum : PendingSum) → IsSumOf sum pending.old → S.may_note self.old.state agent sum }
        ensures entries { self.new.history ≡ self.old.history ++ pending.old }
        ensures taken { pending.new ≡ [] }
        ensures machine { S.machine self.new.state ≡ noted (S.machine self.old.state) agent pending.old }
        ensures standby { S.standby self.new.state ≡ S.standby self.old.state }
        ensures tree { S.tree self.new.state ≡ S.tree self.old.state }
        ensures commits { self.new.commits ≡ self.old.commits }
        ensures place { self.new.place ≡ self.old.place }
        ensures books { (f : Fixed D) (recorded : Built) → AreBooks D.Disk f recorded (book_of S.Shared self.old) journal.now → ArePendingFor D.tells (state_after f.opening self.old.history) agent pending.old
            → AreBooks D.Disk f recorded (book_of S.Shared self.new) journal.now }
    {
        telling_keeps_the_books::<D>();
        lengths_follow_each_call();
        local_calls_are_known_by_their_word();
        the_state_is_kept::<D>();
        let sum = pending.sum();
        self.state.note(agent, sum);
        self.history.take_in(pending);
    }
}
