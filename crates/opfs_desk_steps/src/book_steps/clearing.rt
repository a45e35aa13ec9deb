//! The way of a call to its own change: the doubt is ended, and the units that it needs are cleared.

ghost use Rattle.std.specs.Prelude.{◌≡◌, [], false, IfOk, OnOk, OnErr};
ghost use Rattle.opfs_books.specs.Laws.Books.{Fixed};
ghost use Rattle.opfs_books.specs.Laws.Laws.{LeavesPages, failed};
ghost use Rattle.opfs_desk_steps.specs.Parts.Acted.{HasFailed, IsWayNow};
ghost use Rattle.opfs_desk_steps.specs.Parts.Held.{AreHeldWhole};
ghost use Rattle.opfs_desk_steps.specs.declared.parts.parts.OpenPages.{OpenPages};
ghost use Rattle.opfs_desk_steps.specs.BookSteps.Clearing.{MayEndDoubt};
ghost use Rattle.opfs_machine.specs.Histories.{IsCall, state_after};
ghost use Rattle.opfs_records.specs.Replay.Built.{Built};

use crate::book_steps::refusing::fail_call;
use crate::parts::Ledger;
use opfs_books::{EntryWithRoom, a_fault_is_counted};
use opfs_journal::DiskFault;
use opfs_outside::Disk;
use opfs_pages::what_is_laid_goes_on;

/// Ends the doubt before a call that writes or changes something, and gives the call's entry back. Where the disk fails, the call
/// is entered so. Without doubt it calls no disk.
pub fn settle_doubt<D: Disk>(
    ledger: &mut Ledger<D>,
    last: EntryWithRoom,
) -> Result<EntryWithRoom, DiskFault>
    requires may { MayEndDoubt D.Disk ledger.old last.entry }
    ensures last { IfOk result (λ back. back.entry ≡ last.entry) }
    ensures entries { OnOk result (ledger.new.books.history ≡ ledger.old.books.history) }
    ensures state { OnOk result (ledger.new.books.state ≡ ledger.old.books.state) }
    ensures sure { OnOk result (ledger.new.journal.in_doubt ≡ false) }
    ensures leaves { OnOk result (LeavesPages D.Disk ledger.old.journal ledger.new.journal) }
    ensures held { OnOk result ((f : Fixed D) (recorded : Built) (p : OpenPages) → AreHeldWhole D.Disk f recorded ledger.old p → AreHeldWhole D.Disk f recorded ledger.new p × IsWayNow D.Disk f ledger.old ledger.new) }
    ensures failed { OnErr result ((f : Fixed D) (recorded : Built) (p : OpenPages) → AreHeldWhole D.Disk f recorded ledger.old p → IsCall (state_after f.opening ledger.old.books.history) [] (failed last.entry)
        → HasFailed D.Disk f last.entry ledger.old ledger.new p) }
{
    what_is_laid_goes_on::<D>();
    a_fault_is_counted::<D>();
    match ledger.books.settle(&mut ledger.journal) {
        Ok(()) => Ok(last),
        Err(fault) => {
            fail_call(ledger, last);
            Err(fault)
        }
    }
}
