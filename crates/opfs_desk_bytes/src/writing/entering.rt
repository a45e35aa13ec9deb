//! A call that puts bytes into a row, entered once these are on the disk.

ghost use Rattle.std.specs.Prelude.{◌≡◌, true, false, [], List, OnOk, OnErr};
ghost use Rattle.opfs_base.specs.Texts.{Text};
ghost use Rattle.opfs_books.specs.Laws.Books.{Fixed, AreBooksAt};
ghost use Rattle.opfs_books.specs.Laws.Laws.{failed};
ghost use Rattle.opfs_desk_steps.specs.Parts.Answered.{IsAnswered};
ghost use Rattle.opfs_desk_steps.specs.Parts.Seen.{book_in};
ghost use Rattle.opfs_desk_bytes.specs.Writing.Putting.{IsToPut, AreGottenIn};
ghost use Rattle.opfs_desk_bytes.specs.Writing.Steps.{MayTell, HasTold, MayEnter, HasEntered, HasNotEntered};
ghost use Rattle.opfs_desk_steps.specs.RowLaws.Puts.{puts_row};
ghost use Rattle.opfs_machine.specs.declared.own.Own.{Own};
ghost use Rattle.opfs_machine.specs.declared.state.State.{State};
ghost use Rattle.opfs_machine.specs.Histories.{IsCall};
ghost use Rattle.opfs_machine.specs.Steps.{is_refusal};
ghost use Rattle.opfs_records.specs.Replay.Built.{Built};

use crate::writing::putting::put_pages;
use opfs_books::{Entering, EntryWithRoom, a_fault_is_counted, the_state_is_kept};
use opfs_desk_steps::{DeskParts, Ledger, fail_call};
use opfs_journal::DiskFault;
use opfs_machine::Sizes;
use opfs_outside::Disk;
use opfs_pages::Put;

// Enters the call. The pages are the caller's.
fn tell_put<D: Disk>(ledger: &mut Ledger<D>, last: EntryWithRoom, sizes: Sizes)
    requires may { MayTell D.Disk ledger.old last.entry sizes }
    requires word { puts_row last.entry.op ≡ true }
    requires answered { is_refusal last.entry.reply ≡ false }
    ensures told { (f : Fixed D) (recorded : Built) (base : State Text Own) (gone : List Text) → AreBooksAt D.Disk f recorded base gone (book_in ledger.old) ledger.old.journal → IsAnswered D.Disk base gone ledger.old last.entry sizes
        → HasTold D.Disk f recorded ledger.old ledger.new last.entry sizes }
{
    the_state_is_kept::<D>();
    ledger.books.state.know_order();
    ledger.freed.clear();
    let extents = None;
    ledger.books.tell(
        ledger.alloc,
        &ledger.journal,
        Entering {
            last,
            sizes,
            extents,
        },
        &mut ledger.freed,
    );
    ledger.books.state.know_order();
}

/// Puts the pages of a call, and enters it; where the disk fails, it is entered so, and each page reads as before. Takes no memory.
pub(crate) fn enter_put<D: Disk>(
    parts: &mut DeskParts<D>,
    put: &mut Put,
    given: &[u8],
    row: u32,
    last: EntryWithRoom,
    sizes: Sizes,
) -> Result<(), DiskFault>
    requires may { MayEnter D.Disk parts.old row put.old given.now last.entry sizes }
    requires word { puts_row last.entry.op ≡ true }
    requires answered { is_refusal last.entry.reply ≡ false }
    ensures put { OnOk result ((f : Fixed D) (recorded : Built) (base : State Text Own) (gone : List Text) → IsToPut D.Disk f recorded base gone parts.old last.entry.agent row put.old given.now → AreGottenIn D.Disk recorded parts.old last.entry.agent row put.old given.now
        → IsAnswered D.Disk base gone parts.old.ledger last.entry sizes → HasEntered D.Disk f base gone parts.old parts.new row put.old given.now last.entry sizes) }
    ensures failed { OnErr result ((f : Fixed D) (recorded : Built) (base : State Text Own) (gone : List Text) → IsToPut D.Disk f recorded base gone parts.old last.entry.agent row put.old given.now → AreGottenIn D.Disk recorded parts.old last.entry.agent row put.old given.now
        → IsCall base gone (failed last.entry) → HasNotEntered D.Disk f parts.old parts.new last.entry) }
{
    a_fault_is_counted::<D>();
    let agent = last.entry.agent;
    match put_pages(parts, put, given, agent, row) {
        Ok(()) => {
            tell_put(&mut parts.ledger, last, sizes);
            Ok(())
        }
        Err(fault) => {
            fail_call(&mut parts.ledger, last);
            Err(fault)
        }
    }
}
