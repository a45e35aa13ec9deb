//! One unit that is cleared for a call.

ghost use Rattle.std.specs.Prelude.{◌≡◌, ◌≤◌, ◌++◌, ◌∷◌, [], List, None, false, IfOk, OnOk, OnErr};
ghost use Rattle.opfs_base.specs.Texts.{Text};
ghost use Rattle.opfs_books.specs.Laws.Books.{Fixed};
ghost use Rattle.opfs_books.specs.Laws.Laws.{LeavesPages, ShowsTold, told, failed};
ghost use Rattle.opfs_desk_steps.specs.Parts.Held.{AreHeldAt, AreHeldWhole};
ghost use Rattle.opfs_desk_steps.specs.Parts.Seen.{machine_in, tree_in, book_in};
ghost use Rattle.opfs_desk_steps.specs.declared.parts.parts.OpenPages.{OpenPages};
ghost use Rattle.opfs_desk_steps.specs.BookSteps.Clearing.{IsTurn, IsStillReady, MayEvict, IsEnteredFailed};
ghost use Rattle.opfs_machine.specs.declared.own.Own.{Own};
ghost use Rattle.opfs_machine.specs.declared.state.State.{State};
ghost use Rattle.opfs_machine.specs.Changes.{evict};
ghost use Rattle.opfs_machine.specs.Runs.{eviction};
ghost use Rattle.opfs_machine.specs.Steps.{evicted};
ghost use Rattle.opfs_outside.specs.Faults.{Rose};
ghost use Rattle.opfs_records.specs.Replay.Built.{Built};
ghost use Rattle.opfs_tree.specs.Rows.{without};

use crate::parts::{Eviction, Ledger};
use opfs_books::{EntryWithRoom, the_state_is_kept};
use opfs_journal::DiskFault;
use opfs_laws::steady::settling::only_its_own_calls_settle_a_row;
use opfs_outside::Disk;
use opfs_pages::{blocks_go_on, what_is_laid_goes_on};
use opfs_state::laws::readied::{what_is_ready_is_apart, what_is_ready_stays_as_units_are_cleared};

/// Clears a unit for a call, and gives the call's own entry back, which is still to come. Where the disk failed, the call is
/// entered so.
pub(crate) fn evict_one<D: Disk>(
    ledger: &mut Ledger<D>,
    clearing: Eviction,
    last: EntryWithRoom,
) -> Result<EntryWithRoom, DiskFault>
    requires may { MayEvict D.Disk ledger.old last.entry clearing }
    ensures last { IfOk result (λ back. back.entry ≡ last.entry) }
    ensures entries { OnOk result (ledger.new.books.history ≡ ledger.old.books.history ++ eviction clearing.unit ∷ []) }
    ensures machine { OnOk result (machine_in ledger.new ≡ evicted (machine_in ledger.old) clearing.unit) }
    ensures tree { OnOk result (tree_in ledger.new ≡ without (clearing.unit, []) (tree_in ledger.old)) }
    ensures ready { OnOk result (IsStillReady ledger.new last.entry) }
    ensures sure { OnOk result (ledger.new.journal.in_doubt ≡ false) }
    ensures held { OnOk result ((f : Fixed D) (recorded : Built) (base : State Text Own) (gone : List Text) (p : OpenPages) → AreHeldAt D.Disk f recorded base gone ledger.old p
        → AreHeldAt D.Disk f (book_in ledger.new).rows base (gone ++ clearing.unit ∷ []) ledger.new p) }
    ensures failed { OnErr result ((f : Fixed D) (recorded : Built) (base : State Text Own) (gone : List Text) (p : OpenPages) → AreHeldAt D.Disk f recorded base gone ledger.old p
        → IsTurn base gone ledger.old last.entry clearing.unit → IsEnteredFailed D.Disk f recorded last.entry ledger.old ledger.new p) }
    ensures idle { OnErr result (ledger.new.books.state.store.prepared.place ≡ None) }
    ensures leaves { LeavesPages D.Disk ledger.old.journal ledger.new.journal }
    ensures shown { (f : Fixed D) (recorded : Built) (base : State Text Own) (gone : List Text) (p : OpenPages) → AreHeldAt D.Disk f recorded base gone ledger.old p
        → ShowsTold D.Disk f (book_in ledger.old) (told f (book_in ledger.old) ++ evict clearing.unit ∷ []) ledger.old.journal ledger.new.journal }
    ensures cause { OnErr result (Rose (D.faults ledger.old.journal.disk) (D.faults ledger.new.journal.disk)) }
{
    what_is_laid_goes_on::<D>();
    blocks_go_on();
    only_its_own_calls_settle_a_row();
    what_is_ready_is_apart();
    what_is_ready_stays_as_units_are_cleared();
    the_state_is_kept::<D>();
    ledger.books.state.know_order();
    ledger.books.state.know_rows_match_tree();
    ledger.freed.clear();
    let Eviction { unit, gone } = clearing;
    match ledger.books.evict(
        ledger.alloc,
        &mut ledger.journal,
        &unit,
        gone,
        last,
        &mut ledger.freed,
    ) {
        Ok(back) => Ok(back),
        Err(fault) => Err(fault),
    }
}
