//! Calls that store a content, or one more change than may be kept back.

ghost use Rattle.std.specs.Prelude.{◌++◌, ◌∷◌, [], List, OnOk, OnErr};
ghost use Rattle.opfs_base.specs.Texts.{Text};
ghost use Rattle.opfs_books.specs.Laws.Books.{Fixed};
ghost use Rattle.opfs_books.specs.Laws.Laws.{LeavesPages, ShowsTold, told};
ghost use Rattle.opfs_books.specs.Seen.{stored_change};
ghost use Rattle.opfs_codec.specs.Fields.{plain};
ghost use Rattle.opfs_desk_steps.specs.Parts.Held.{AreTied};
ghost use Rattle.opfs_desk_steps.specs.Parts.Seen.{book_in};
ghost use Rattle.opfs_desk_steps.specs.declared.parts.parts.OpenPages.{OpenPages};
ghost use Rattle.opfs_desk_steps.specs.BookSteps.Entering.{MayCommit, IsCommittedOver, HasCommitted, HasNotCommitted};
ghost use Rattle.opfs_machine.specs.declared.own.Own.{Own};
ghost use Rattle.opfs_machine.specs.declared.state.State.{State};
ghost use Rattle.opfs_records.specs.Replay.Built.{Built};

use crate::parts::Ledger;
use opfs_books::{Entering, the_state_is_kept};
use opfs_codec::ChangeRef;
use opfs_journal::DiskFault;
use opfs_laws::steady::settling::only_its_own_calls_settle_a_row;
use opfs_outside::Disk;
use opfs_pages::{blocks_go_on, what_is_laid_goes_on};

/// Commits what a call stores, with what is kept back, and enters the call. Where the disk fails, the call is entered so, and what
/// it would have stored may be in doubt. The pages are the caller's where the call is answered.
pub fn store_call<D: Disk>(
    ledger: &mut Ledger<D>,
    own: &ChangeRef<'_>,
    entering: Entering,
) -> Result<(), DiskFault>
    requires { MayCommit D.Disk ledger.old entering.last.entry entering.sizes entering.extents (plain own.now) }
    ensures committed { OnOk result (HasCommitted D.Disk ledger.old ledger.new entering.last.entry entering.sizes entering.extents (plain own.now)) }
    ensures failed { OnErr result (HasNotCommitted D.Disk ledger.old ledger.new entering.last.entry entering.sizes (plain own.now)) }
    ensures leaves { LeavesPages D.Disk ledger.old.journal ledger.new.journal }
    ensures shown { (f : Fixed D) (recorded : Built) (base : State Text Own) (gone : List Text) (p : OpenPages) → IsCommittedOver D.Disk f recorded base gone ledger.old p entering.last.entry entering.sizes (plain own.now)
        → ShowsTold D.Disk f (book_in ledger.old) (told f (book_in ledger.old) ++ stored_change base gone entering.last.entry (plain own.now) ∷ []) ledger.old.journal ledger.new.journal }
    ensures tied { (f : Fixed D) (p : OpenPages) → AreTied D.Disk f ledger.old p → AreTied D.Disk f ledger.new p }
{
    what_is_laid_goes_on::<D>();
    blocks_go_on();
    only_its_own_calls_settle_a_row();
    the_state_is_kept::<D>();
    ledger.freed.clear();
    match ledger.books.store(
        ledger.alloc,
        &mut ledger.journal,
        own,
        entering,
        &mut ledger.freed,
    ) {
        Ok(()) => Ok(()),
        Err(fault) => Err(fault),
    }
}
