//! The end of a doubt, and commits of what is kept back alone.

ghost use Rattle.std.specs.Prelude.{◌≡◌, ◌++◌, ◌==◌, true, false, not, is_ok, IsTrue, List, None, OnOk, OnErr, IfOk};
ghost use Rattle.opfs_base.specs.Texts.{Text};
ghost use Rattle.opfs_books.specs.Laws.Books.{Fixed, AreBooksAt};
ghost use Rattle.opfs_books.specs.Laws.Laws.{LeavesPages, ShowsTold, StandsWhole, told, doubt};
ghost use Rattle.opfs_books.specs.Seen.{book_of, AreKnown, IsFinished};
ghost use Rattle.opfs_journal.specs.Calls.{IsSettled, IsUnsettled};
ghost use Rattle.opfs_machine.specs.declared.own.Own.{Own};
ghost use Rattle.opfs_machine.specs.declared.state.State.{State};
ghost use Rattle.opfs_outside.specs.Faults.{Rose};
ghost use Rattle.opfs_records.specs.Replay.Built.{Built};

use crate::books::Books;
use crate::committing::commit_alone;
use crate::laws::{
    commits_alone_keep_the_books, settling_keeps_the_books, the_books_show_their_images,
    the_books_stand_at_rest,
};
use crate::sharing::Shared;
use crate::stored::calls_are_spelled;
use opfs_journal::{DiskFault, Journal};
use opfs_laws::lengths::bridge::lengths_follow_each_call;
use opfs_outside::Disk;

impl<S: Shared> Books<S> {
    /// Ends the doubt, if there is one. Without doubt it calls no disk.
    pub fn settle<D: Disk>(&mut self, journal: &mut Journal<D>) -> Result<(), DiskFault>
        ensures history { self.new.history ≡ self.old.history }
        ensures state { self.new.state ≡ self.old.state }
        ensures commits { self.new.commits ≡ self.old.commits }
        ensures none { OnOk result (self.new.place ≡ None) }
        ensures stays { OnErr result (self.new.place ≡ self.old.place) }
        ensures sure { OnOk result (journal.new.in_doubt ≡ false) }
        ensures settled { OnOk result (IsSettled D.Disk journal.old journal.new) }
        ensures unsettled { OnErr result (IsUnsettled D.Disk journal.old journal.new) }
        ensures leaves { LeavesPages D.Disk journal.old journal.new }
        ensures books { (f : Fixed D) (recorded : Built) (base : State Text Own) (gone : List Text) → AreBooksAt D.Disk f recorded base gone (book_of S.Shared self.old) journal.old → AreBooksAt D.Disk f recorded base gone (book_of S.Shared self.new) journal.new }
        ensures shown { (f : Fixed D) (recorded : Built) (base : State Text Own) (gone : List Text) → AreBooksAt D.Disk f recorded base gone (book_of S.Shared self.old) journal.old
            → ShowsTold D.Disk f (book_of S.Shared self.old) (told f (book_of S.Shared self.old) ++ doubt f (book_of S.Shared self.old) journal.old) journal.old journal.new }
        ensures cause { OnErr result (Rose (D.faults journal.old.disk) (D.faults journal.new.disk)) }
    {
        settling_keeps_the_books::<D>();
        match journal.settle() {
            Ok(()) => {
                self.place = None;
                Ok(())
            }
            Err(fault) => Err(fault),
        }
    }

    /// Commits what is kept back; answers whether there was something. Where there was nothing it calls no disk.
    pub fn commit_kept<D: Disk>(&mut self, journal: &mut Journal<D>) -> Result<bool, DiskFault>
        requires known { AreKnown D.Disk (book_of S.Shared self.old) journal.old }
        requires settled { journal.old.in_doubt ≡ false }
        ensures history { self.new.history ≡ self.old.history }
        ensures state { self.new.state ≡ self.old.state }
        ensures none { OnOk result (self.new.commits.count ≡ 0) }
        ensures sure { OnOk result (journal.new.in_doubt ≡ false) }
        ensures failed_commits { OnErr result (self.new.commits ≡ self.old.commits) }
        ensures written { IfOk result (λ written. written ≡ not (self.old.commits.count == 0)) }
        ensures kept_back { OnErr result (self.old.commits.count == 0 ≡ false) }
        ensures untouched { IfOk result (λ written. written ≡ false → (self.new ≡ self.old) × (journal.new ≡ journal.old)) }
        ensures leaves { LeavesPages D.Disk journal.old journal.new }
        ensures committed { IfOk result (λ written. written ≡ true → (f : Fixed D) (recorded : Built) (base : State Text Own) (gone : List Text) → AreBooksAt D.Disk f recorded base gone (book_of S.Shared self.old) journal.old
            → AreBooksAt D.Disk f (book_of S.Shared self.old).rows base gone (book_of S.Shared self.new) journal.new) }
        ensures failed { OnErr result ((f : Fixed D) (recorded : Built) (base : State Text Own) (gone : List Text) → AreBooksAt D.Disk f recorded base gone (book_of S.Shared self.old) journal.old
            → AreBooksAt D.Disk f recorded base gone (book_of S.Shared self.new) journal.new) }
        ensures shown { (f : Fixed D) (recorded : Built) (base : State Text Own) (gone : List Text) → AreBooksAt D.Disk f recorded base gone (book_of S.Shared self.old) journal.old
            → ShowsTold D.Disk f (book_of S.Shared self.old) (told f (book_of S.Shared self.old)) journal.old journal.new }
        ensures cause { OnErr result (Rose (D.faults journal.old.disk) (D.faults journal.new.disk)) }
    {
        commits_alone_keep_the_books::<D>();
        the_books_show_their_images::<D>();
        calls_are_spelled();
        lengths_follow_each_call();
        let nothing = self.commits.count() == 0;
        if nothing {
            return Ok(false);
        }
        self.place = None;
        match commit_alone(
            &mut self.commits,
            journal,
            self.state.rows(),
            self.state.shed(),
        ) {
            Ok(()) => Ok(true),
            Err(fault) => Err(fault),
        }
    }

    /// Ends the doubt and commits what is kept back; answers whether there was something. After it nothing is kept back and no
    /// gate is in doubt, so each image that a crash may leave stands for all that was told. Where nothing was kept back and no
    /// gate in doubt it calls no disk.
    pub fn finish<D: Disk>(&mut self, journal: &mut Journal<D>) -> Result<bool, DiskFault>
        requires known { AreKnown D.Disk (book_of S.Shared self.old) journal.old }
        ensures history { self.new.history ≡ self.old.history }
        ensures state { self.new.state ≡ self.old.state }
        ensures none { OnOk result (self.new.commits.count ≡ 0) }
        ensures sure { OnOk result (journal.new.in_doubt ≡ false) }
        ensures written { IfOk result (λ written. written ≡ not (self.old.commits.count == 0)) }
        ensures idle { self.old.commits.count ≡ 0 → journal.old.in_doubt ≡ false → IsTrue (is_ok result) × (journal.new ≡ journal.old) }
        ensures leaves { LeavesPages D.Disk journal.old journal.new }
        ensures whole { OnOk result ((f : Fixed D) (recorded : Built) (base : State Text Own) (gone : List Text) → AreBooksAt D.Disk f recorded base gone (book_of S.Shared self.old) journal.old
            → StandsWhole D.Disk f (book_of S.Shared self.new) journal.new) }
        ensures books { (f : Fixed D) (recorded : Built) (base : State Text Own) (gone : List Text) → AreBooksAt D.Disk f recorded base gone (book_of S.Shared self.old) journal.old
            → IsFinished D.Disk f base gone (book_of S.Shared self.old) (book_of S.Shared self.new) journal.old journal.new }
        ensures cause { OnErr result (Rose (D.faults journal.old.disk) (D.faults journal.new.disk)) }
    {
        the_books_stand_at_rest::<D>();
        match self.settle(journal) {
            Ok(()) => match self.commit_kept(journal) {
                Ok(written) => Ok(written),
                Err(fault) => Err(fault),
            },
            Err(fault) => Err(fault),
        }
    }
}
