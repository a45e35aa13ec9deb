//! All units that a call needs, cleared one after another.

ghost use Rattle.std.specs.Prelude.{◌≡◌, ◌++◌, List, map, fold, false, IfOk, OnOk, OnErr};
ghost use Rattle.opfs_books.specs.Laws.Books.{Fixed};
ghost use Rattle.opfs_books.specs.Laws.Laws.{LeavesPages};
ghost use Rattle.opfs_desk_steps.specs.Parts.Acted.{AreCleared, HasFailed};
ghost use Rattle.opfs_desk_steps.specs.Parts.Held.{AreHeldWhole};
ghost use Rattle.opfs_desk_steps.specs.Parts.Seen.{machine_in, tree_in, units_in};
ghost use Rattle.opfs_desk_steps.specs.declared.parts.parts.OpenPages.{OpenPages};
ghost use Rattle.opfs_desk_steps.specs.BookSteps.Clearing.{IsJudged, MayMakeWay, MayClearAll, cleared_from};
ghost use Rattle.opfs_machine.specs.Histories.{state_after};
ghost use Rattle.opfs_machine.specs.Runs.{eviction};
ghost use Rattle.opfs_machine.specs.Steps.{evicted};
ghost use Rattle.opfs_records.specs.Replay.Built.{Built};
ghost use Rattle.opfs_state.specs.Applied.{IsPrepared};

use crate::book_steps::clearing::settle_doubt;
use crate::book_steps::evicting::evict_one;
use crate::parts::{Eviction, Ledger};
use opfs_books::{EntryWithRoom, calls_may_fail, state_laws, the_books_show_their_images};
use opfs_journal::DiskFault;
use opfs_laws::histories::unread::reads_leave_the_state;
use opfs_laws::lengths::bridge::{lengths_decide_each_ruling, lengths_follow_each_call};
use opfs_outside::Disk;
use opfs_state::laws::room::{calls_are_about_own_units, evictions_make_room};

// Clears all units of a call, while no gate is in doubt.
fn clear_units<D: Disk>(
    ledger: &mut Ledger<D>,
    clearing: Vec<Eviction>,
    call: EntryWithRoom,
) -> Result<EntryWithRoom, DiskFault>
    requires may { MayClearAll D.Disk ledger.old call.entry clearing.items }
    ensures last { IfOk result (λ back. back.entry ≡ call.entry) }
    ensures entries { OnOk result (ledger.new.books.history ≡ ledger.old.books.history ++ map eviction (units_in clearing.items)) }
    ensures machine { OnOk result (machine_in ledger.new ≡ fold evicted (machine_in ledger.old) (units_in clearing.items)) }
    ensures tree { OnOk result (tree_in ledger.new ≡ fold cleared_from (tree_in ledger.old) (units_in clearing.items)) }
    ensures prepared { OnOk result (IsPrepared ledger.new.books.state call.entry.agent call.entry.op) }
    ensures sure { OnOk result (ledger.new.journal.in_doubt ≡ false) }
    ensures leaves { OnOk result (LeavesPages D.Disk ledger.old.journal ledger.new.journal) }
    ensures cleared { OnOk result ((f : Fixed D) (recorded : Built) (p : OpenPages) → AreHeldWhole D.Disk f recorded ledger.old p → AreCleared D.Disk f (units_in clearing.items) ledger.old ledger.new p) }
    ensures failed { OnErr result ((f : Fixed D) (recorded : Built) (p : OpenPages) → AreHeldWhole D.Disk f recorded ledger.old p
        → IsJudged (state_after f.opening ledger.old.books.history) call.entry (units_in clearing.items) → HasFailed D.Disk f call.entry ledger.old ledger.new p) }
{
    state_laws();
    reads_leave_the_state();
    lengths_follow_each_call();
    lengths_decide_each_ruling();
    evictions_make_room();
    calls_are_about_own_units();
    calls_may_fail::<D>();
    the_books_show_their_images::<D>();
    let mut last = call;
    for next in clearing {
        match evict_one(ledger, next, last) {
            Ok(back) => last = back,
            Err(fault) => return Err(fault),
        }
    }
    Ok(last)
}

/// Ends the doubt, and clears all units of a call; gives the call's entry back. Where the disk fails, the call is entered so, after
/// the evictions that were committed.
pub fn evict_all<D: Disk>(
    ledger: &mut Ledger<D>,
    clearing: Vec<Eviction>,
    last: EntryWithRoom,
) -> Result<EntryWithRoom, DiskFault>
    requires may { MayMakeWay D.Disk ledger.old last.entry clearing.items }
    ensures last { IfOk result (λ back. back.entry ≡ last.entry) }
    ensures entries { OnOk result (ledger.new.books.history ≡ ledger.old.books.history ++ map eviction (units_in clearing.items)) }
    ensures machine { OnOk result (machine_in ledger.new ≡ fold evicted (machine_in ledger.old) (units_in clearing.items)) }
    ensures tree { OnOk result (tree_in ledger.new ≡ fold cleared_from (tree_in ledger.old) (units_in clearing.items)) }
    ensures prepared { OnOk result (IsPrepared ledger.new.books.state last.entry.agent last.entry.op) }
    ensures sure { OnOk result (ledger.new.journal.in_doubt ≡ false) }
    ensures leaves { OnOk result (LeavesPages D.Disk ledger.old.journal ledger.new.journal) }
    ensures cleared { OnOk result ((f : Fixed D) (recorded : Built) (p : OpenPages) → AreHeldWhole D.Disk f recorded ledger.old p → AreCleared D.Disk f (units_in clearing.items) ledger.old ledger.new p) }
    ensures failed { OnErr result ((f : Fixed D) (recorded : Built) (p : OpenPages) → AreHeldWhole D.Disk f recorded ledger.old p
        → IsJudged (state_after f.opening ledger.old.books.history) last.entry (units_in clearing.items) → HasFailed D.Disk f last.entry ledger.old ledger.new p) }
{
    match settle_doubt(ledger, last) {
        Ok(last) => match clear_units(ledger, clearing, last) {
            Ok(back) => Ok(back),
            Err(fault) => Err(fault),
        },
        Err(fault) => Err(fault),
    }
}
