//! The way of a call: the doubt is ended, and its units are cleared.

ghost use Rattle.std.specs.Prelude.{◌≡◌, ◌++◌, false, map, fold, IfOk, OnOk, OnErr};
ghost use Rattle.opfs_store.specs.Acts.Acting.{told_entry};
ghost use Rattle.opfs_books.specs.Laws.Books.{Fixed};
ghost use Rattle.opfs_books.specs.Laws.Laws.{LeavesPages};
ghost use Rattle.opfs_desk_steps.specs.Parts.Acted.{AreCleared, HasFailed};
ghost use Rattle.opfs_desk_steps.specs.Parts.Held.{AreHeldWhole};
ghost use Rattle.opfs_desk_steps.specs.Parts.Seen.{tree_in, call_in, units_in};
ghost use Rattle.opfs_desk_steps.specs.declared.parts.parts.OpenPages.{OpenPages};
ghost use Rattle.opfs_desk_steps.specs.BookSteps.Clearing.{IsJudged, MayMakeWay, cleared_from};
ghost use Rattle.opfs_machine.specs.Histories.{state_after};
ghost use Rattle.opfs_machine.specs.Runs.{eviction};
ghost use Rattle.opfs_records.specs.Replay.Built.{Built};
ghost use Rattle.opfs_state.specs.Applied.{IsPrepared};

use crate::apart::{CallParts, call_parts};
use crate::book_steps::evict_all;
use crate::parts::{Ledger, ReadyCall};
use opfs_books::{EntryWithRoom, the_books_show_their_images};
use opfs_hist::Reply;
use opfs_journal::DiskFault;
use opfs_machine::Sizes;
use opfs_outside::Disk;

/// Ends the doubt and clears the units of a call that changes something; gives the entry with its reply, for which it takes the call
/// apart, and its sizes. Where the disk fails, the call is entered so, after the evictions that were committed.
pub fn evict_for<D: Disk>(
    ledger: &mut Ledger<D>,
    call: ReadyCall,
    reply: Reply,
) -> Result<(EntryWithRoom, Sizes), DiskFault>
    requires may { MayMakeWay D.Disk ledger.old (told_entry (call_in call) reply) call.clearing.items }
    ensures entry { IfOk result (λ ready. ready.0.entry ≡ told_entry (call_in call) reply) }
    ensures sizes { IfOk result (λ ready. ready.1 ≡ call.sizes) }
    ensures entries { OnOk result (ledger.new.books.history ≡ ledger.old.books.history ++ map eviction (units_in call.clearing.items)) }
    ensures tree { OnOk result (tree_in ledger.new ≡ fold cleared_from (tree_in ledger.old) (units_in call.clearing.items)) }
    ensures prepared { OnOk result (IsPrepared ledger.new.books.state call.agent call.op) }
    ensures sure { OnOk result (ledger.new.journal.in_doubt ≡ false) }
    ensures leaves { OnOk result (LeavesPages D.Disk ledger.old.journal ledger.new.journal) }
    ensures cleared { OnOk result ((f : Fixed D) (recorded : Built) (p : OpenPages) → AreHeldWhole D.Disk f recorded ledger.old p → AreCleared D.Disk f (units_in call.clearing.items) ledger.old ledger.new p) }
    ensures failed { OnErr result ((f : Fixed D) (recorded : Built) (p : OpenPages) → AreHeldWhole D.Disk f recorded ledger.old p
        → IsJudged (state_after f.opening ledger.old.books.history) (told_entry (call_in call) reply) (units_in call.clearing.items) → HasFailed D.Disk f (told_entry (call_in call) reply) ledger.old ledger.new p) }
{
    let CallParts {
        last,
        sizes,
        clearing,
    } = call_parts(call, reply);
    match evict_all(ledger, clearing, last) {
        Ok(back) => Ok((back, sizes)),
        Err(fault) => Err(fault),
    }
}

/// Clears the units of a call that stores nothing itself, and gives the entry with its reply, for which it takes the call apart, and
/// its sizes. Without units it calls no disk, and a doubt stays. Where the disk fails, the call is entered so, after the evictions
/// that were committed.
pub fn clear_call<D: Disk>(
    ledger: &mut Ledger<D>,
    call: ReadyCall,
    reply: Reply,
) -> Result<(EntryWithRoom, Sizes), DiskFault>
    requires may { MayMakeWay D.Disk ledger.old (told_entry (call_in call) reply) call.clearing.items }
    ensures entry { IfOk result (λ ready. ready.0.entry ≡ told_entry (call_in call) reply) }
    ensures sizes { IfOk result (λ ready. ready.1 ≡ call.sizes) }
    ensures entries { OnOk result (ledger.new.books.history ≡ ledger.old.books.history ++ map eviction (units_in call.clearing.items)) }
    ensures tree { OnOk result (tree_in ledger.new ≡ fold cleared_from (tree_in ledger.old) (units_in call.clearing.items)) }
    ensures prepared { OnOk result (IsPrepared ledger.new.books.state call.agent call.op) }
    ensures cleared { OnOk result ((f : Fixed D) (recorded : Built) (p : OpenPages) → AreHeldWhole D.Disk f recorded ledger.old p → AreCleared D.Disk f (units_in call.clearing.items) ledger.old ledger.new p) }
    ensures failed { OnErr result ((f : Fixed D) (recorded : Built) (p : OpenPages) → AreHeldWhole D.Disk f recorded ledger.old p
        → IsJudged (state_after f.opening ledger.old.books.history) (told_entry (call_in call) reply) (units_in call.clearing.items) → HasFailed D.Disk f (told_entry (call_in call) reply) ledger.old ledger.new p) }
{
    the_books_show_their_images::<D>();
    if call.clearing.is_empty() {
        let CallParts { last, sizes, .. } = call_parts(call, reply);
        return Ok((last, sizes));
    }
    match evict_for(ledger, call, reply) {
        Ok(ready) => Ok(ready),
        Err(fault) => Err(fault),
    }
}
