//! Calls that store something.

ghost use Rattle.std.specs.Prelude.{◌≡◌, ◌++◌, ◌∷◌, ◌≤◌, ◌<◌, List, [], None, Some, fold, vec_capacity, OnOk, OnErr};
ghost use Rattle.opfs_base.specs.Texts.{Text};
ghost use Rattle.opfs_books.specs.Calls.{MayStoreIn, HasStored, HasFailedIn};
ghost use Rattle.opfs_books.specs.Laws.Books.{Fixed, IsNext, AreBooks, AreBooksAt};
ghost use Rattle.opfs_books.specs.Laws.Laws.{LeavesPages, ShowsTold, told, failed};
ghost use Rattle.opfs_books.specs.Seen.{book_of, MayStore, BytesStand, stored_change};
ghost use Rattle.opfs_codec.specs.Fields.{plain};
ghost use Rattle.opfs_machine.specs.declared.own.Own.{Own};
ghost use Rattle.opfs_machine.specs.declared.state.State.{State};
ghost use Rattle.opfs_machine.specs.Replies.{sizes_of};
ghost use Rattle.opfs_machine.specs.Steps.{evicted};
ghost use Rattle.opfs_records.specs.Replay.Built.{Built};

use crate::books::Books;
use crate::committing::commit_own;
use crate::entering::{Entering, enter, with_fault};
use crate::laws::{commits_keep_the_books, state_laws, the_state_is_kept};
use crate::sharing::Shared;
use crate::stored::{calls_are_spelled, calls_may_fail};
use opfs_base::Extent;
use opfs_codec::ChangeRef;
use opfs_journal::{DiskFault, Journal};
use opfs_laws::lengths::bridge::lengths_follow_each_call;
use opfs_outside::Disk;
use std::alloc::Global;

impl<S: Shared> Books<S> {
    /// Commits what a call stores, with what is kept back, and enters the call. Where the disk failed, the call is entered
    /// so, and what it would have stored may be in doubt.
    pub fn store<D: Disk>(
        &mut self,
        alloc: Global,
        journal: &mut Journal<D>,
        own: &ChangeRef<'_>,
        entering: Entering,
        freed: &mut Vec<Extent>,
    ) -> Result<(), DiskFault>
        requires { MayStoreIn S.Shared D.Disk self.old journal.old entering.last.entry entering.sizes entering.extents (plain own.now) freed.old }
        ensures stored { OnOk result (HasStored S.Shared D.Disk entering.last.entry entering.sizes entering.extents (plain own.now) self.old self.new journal.old journal.new freed.old.items freed.new.items) }
        ensures failed { OnErr result (HasFailedIn S.Shared D.Disk entering.last.entry self.old self.new journal.old journal.new freed.old freed.new) }
        ensures failed_books { OnErr result ((f : Fixed D) (recorded : Built) (base : State Text Own) (gone : List Text) → AreBooksAt D.Disk f recorded base gone (book_of S.Shared self.old) journal.old
            → IsNext D.tells base gone entering.last.entry → entering.sizes ≡ sizes_of (fold evicted base gone) entering.last.entry.agent entering.last.entry.op
            → MayStore f (book_of S.Shared self.old) (plain own.now) → BytesStand D.Disk f base gone journal.old entering.last.entry (plain own.now)
            → AreBooks D.Disk f recorded (book_of S.Shared self.new) journal.new) }
        ensures shown { (f : Fixed D) (recorded : Built) (base : State Text Own) (gone : List Text) → AreBooksAt D.Disk f recorded base gone (book_of S.Shared self.old) journal.old
            → IsNext D.tells base gone entering.last.entry → entering.sizes ≡ sizes_of (fold evicted base gone) entering.last.entry.agent entering.last.entry.op
            → MayStore f (book_of S.Shared self.old) (plain own.now) → BytesStand D.Disk f base gone journal.old entering.last.entry (plain own.now)
            → ShowsTold D.Disk f (book_of S.Shared self.old) (told f (book_of S.Shared self.old) ++ stored_change base gone entering.last.entry (plain own.now) ∷ []) journal.old journal.new }
        ensures leaves { LeavesPages D.Disk journal.old journal.new }
        ensures capacity { vec_capacity freed.old ≤ vec_capacity freed.new }
    {
        commits_keep_the_books::<D>();
        calls_are_spelled();
        calls_may_fail::<D>();
        lengths_follow_each_call();
        state_laws();
        the_state_is_kept::<D>();
        let place = self.history.len() as u64;
        let tree = self.state.rows();
        tree.know_order();
        match commit_own(&mut self.commits, journal, tree, self.state.shed(), own) {
            Ok(()) => {
                self.place = None;
                let Entering {
                    last,
                    sizes,
                    extents,
                } = entering;
                self.state
                    .apply(last.entry.agent, &last.entry.op, sizes, extents, freed);
                enter(alloc, &mut self.history, last);
                Ok(())
            }
            Err(fault) => {
                self.place = Some(place);
                let Entering { last, .. } = entering;
                self.state.refuse(last.entry.agent, &last.entry.op);
                enter(alloc, &mut self.history, with_fault(last));
                Err(fault)
            }
        }
    }
}
