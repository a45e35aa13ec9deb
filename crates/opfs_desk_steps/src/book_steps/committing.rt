//! What is kept back, committed alone.

ghost use Rattle.std.specs.Prelude.{◌≡◌, List, false, OnOk, OnErr};
ghost use Rattle.opfs_base.specs.Texts.{Text};
ghost use Rattle.opfs_books.specs.Laws.Books.{Fixed};
ghost use Rattle.opfs_books.specs.Laws.Laws.{LeavesPages, ShowsTold, told};
ghost use Rattle.opfs_desk_steps.specs.Parts.Held.{AreHeldAt};
ghost use Rattle.opfs_desk_steps.specs.Parts.Seen.{book_in};
ghost use Rattle.opfs_desk_steps.specs.declared.parts.parts.OpenPages.{OpenPages};
ghost use Rattle.opfs_desk_steps.specs.BookSteps.Committing.{MayCommitKept, AreRecorded};
ghost use Rattle.opfs_machine.specs.declared.own.Own.{Own};
ghost use Rattle.opfs_machine.specs.declared.state.State.{State};
ghost use Rattle.opfs_outside.specs.Faults.{Rose};
ghost use Rattle.opfs_records.specs.Replay.Built.{Built};

use crate::parts::Ledger;
use opfs_journal::DiskFault;
use opfs_outside::Disk;
use opfs_pages::{blocks_go_on, what_is_laid_goes_on};

/// Commits what is kept back, if anything is: after it the records build the rows as they are stored.
pub fn commit_kept<D: Disk>(ledger: &mut Ledger<D>) -> Result<(), DiskFault>
    requires may { MayCommitKept D.Disk ledger.old }
    ensures entries { ledger.new.books.history ≡ ledger.old.books.history }
    ensures state { ledger.new.books.state ≡ ledger.old.books.state }
    ensures none { OnOk result (ledger.new.books.commits.count ≡ 0) }
    ensures sure { OnOk result (ledger.new.journal.in_doubt ≡ false) }
    ensures recorded { OnOk result ((f : Fixed D) (recorded : Built) (base : State Text Own) (gone : List Text) (p : OpenPages) → AreHeldAt D.Disk f recorded base gone ledger.old p → AreRecorded D.Disk f base gone ledger.new p) }
    ensures failed { OnErr result ((f : Fixed D) (recorded : Built) (base : State Text Own) (gone : List Text) (p : OpenPages) → AreHeldAt D.Disk f recorded base gone ledger.old p → AreHeldAt D.Disk f recorded base gone ledger.new p) }
    ensures leaves { LeavesPages D.Disk ledger.old.journal ledger.new.journal }
    ensures shown { (f : Fixed D) (recorded : Built) (base : State Text Own) (gone : List Text) (p : OpenPages) → AreHeldAt D.Disk f recorded base gone ledger.old p
        → ShowsTold D.Disk f (book_in ledger.old) (told f (book_in ledger.old)) ledger.old.journal ledger.new.journal }
    ensures cause { OnErr result (Rose (D.faults ledger.old.journal.disk) (D.faults ledger.new.journal.disk)) }
{
    what_is_laid_goes_on::<D>();
    blocks_go_on();
    match ledger.books.commit_kept(&mut ledger.journal) {
        Ok(true) => Ok(()),
        Ok(false) => Ok(()),
        Err(fault) => Err(fault),
    }
}
