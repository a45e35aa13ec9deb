//! The flush and the close of an access handle of whose file nothing waits for a flush: the file's own content is stored again.

ghost use Rattle.std.specs.Prelude.{◌≡◌, ◌≤◌, [], true, false, None, IfOk, OnOk, OnErr};
ghost use Rattle.opfs_store.specs.Acts.Acting.{IsSameCopy};
ghost use Rattle.opfs_books.specs.Stored.Laws.{CallsAreSpelled, CallsMayFail};
ghost use Rattle.opfs_books.specs.Laws.Books.{Fixed};
ghost use Rattle.opfs_books.specs.Laws.Commits.{StateLaws};
ghost use Rattle.opfs_data.specs.Rows.{row_of, kept_count, OthersStay};
ghost use Rattle.opfs_desk_contents.specs.Unchanged.More.{HasMoreThanReserve};
ghost use Rattle.opfs_desk_contents.specs.Storing.{HasEnteredContent, HasFailedContent, MayStoreContent};
ghost use Rattle.opfs_desk_contents.specs.Words.{is_storing, stores_row};
ghost use Rattle.opfs_pages.specs.HistoryLaws.Handles.{AreHandlesWhole};
ghost use Rattle.opfs_desk_steps.specs.Parts.Acted.{HasActed, IsUnacted};
ghost use Rattle.opfs_desk_steps.specs.Parts.Asked.{IsAsked, MayGo};
ghost use Rattle.opfs_desk_steps.specs.Parts.Held.{AreHeldWhole};
ghost use Rattle.opfs_desk_steps.specs.Parts.Seen.{machine_in, tree_in, call_in};
ghost use Rattle.opfs_desk_bytes.specs.Reading.Reading.{HaveWholeHandles};
ghost use Rattle.opfs_desk_steps.specs.RowLaws.Inside.{PartsLieInside};
ghost use Rattle.opfs_desk_steps.specs.RowLaws.Stored.{FilesAreStored, HistoriesAreCleared};
ghost use Rattle.opfs_hist.specs.declared.reply.Reply.TheVariants as reply;
ghost use Rattle.opfs_records.specs.Replay.Built.{Built};
ghost use Rattle.opfs_laws.specs.Reserves.Reserves.{ReservesFitOrNothingIsUnflushed};
ghost use Rattle.opfs_tree.specs.Rows.{IsInOrder};

use crate::enter_content;
use crate::unchanged::laws::{calling_laws, saving_laws};
use crate::unchanged::planning::{Again, plan_again};
use crate::unchanged::words::{is_last, row_of};
use opfs_books::{EntryWithRoom, calls_are_spelled, calls_may_fail, state_laws};
use opfs_data::Swap;
use opfs_desk_steps::{
    DeskParts, Ledger, ReadyCall, evict_for, files_are_stored, parts_lie_inside, take_in,
};
use opfs_hist::{Pending, Refusal, Reply};
use opfs_journal::DiskFault;
use opfs_laws::reserves::fitting::reserves_fit_or_nothing_is_unflushed;
use opfs_machine::Sizes;
use opfs_outside::Disk;
use opfs_store::{Acted, Gift};
use opfs_work::Work;
use std::alloc::AllocError;

// What is known of a file's content that is stored again.
fn content_laws<D: Disk>()
    ensures states { StateLaws }
    ensures spelled { CallsAreSpelled }
    ensures fails { CallsMayFail D.tells }
    ensures fits { ReservesFitOrNothingIsUnflushed }
    ensures inside { PartsLieInside D.Disk }
    ensures files { FilesAreStored D.Disk }
    ensures between { HistoriesAreCleared D.Disk }
{
    state_laws();
    calls_are_spelled();
    calls_may_fail::<D>();
    reserves_fit_or_nothing_is_unflushed();
    parts_lie_inside::<D>();
    files_are_stored::<D>();
}

// Lets the pages of a row go, if it ends.
fn leave_row(swap: &mut Swap, agent: u32, row: u32, last: bool)
    ensures stays { last ≡ false → swap.new ≡ swap.old }
    ensures others { OthersStay agent row swap.old swap.new }
    ensures gone { last ≡ true → row_of agent row swap.new ≡ None }
    ensures kept { kept_count swap.new ≤ kept_count swap.old }
{
    if last {
        swap.drop_row(agent, row);
    }
}

// Commits the content that a file has, and enters the call. Where the disk fails, the call is entered so.
fn enter_again<D: Disk>(
    ledger: &mut Ledger<D>,
    last: EntryWithRoom,
    sizes: Sizes,
    again: &Again,
) -> Result<(), DiskFault>
    requires may { MayStoreContent D.Disk ledger.old last.entry sizes again.now.place again.now.size again.now.runs None }
    requires word { is_storing last.entry.op ≡ true }
    requires done { last.entry.reply ≡ reply.Done }
    requires settled { ledger.old.journal.in_doubt ≡ false }
    ensures order { IsInOrder (tree_in ledger.old) }
    ensures stored { OnOk result (HasEnteredContent D.Disk ledger.old ledger.new last.entry sizes again.now.place again.now.size again.now.runs None) }
    ensures failed { OnErr result (HasFailedContent D.Disk ledger.old ledger.new last.entry sizes again.now.place again.now.size again.now.runs) }
{
    let extents = None;
    match enter_content(
        ledger,
        last,
        sizes,
        &again.place,
        again.size,
        &again.runs,
        extents,
    ) {
        Ok(()) => Ok(()),
        Err(fault) => Err(fault),
    }
}

/// Acts the flush or the close of an access handle that may write and keeps fewer blocks than its file takes. Nothing of the file waits
/// for a flush then: the content that it has is stored once more, in its own blocks. Where the disk fails, the entry tells so, and
/// the row stays open.
pub fn act_store_same_blocks<D: Disk>(
    parts: &mut DeskParts<D>,
    call: ReadyCall,
    pending: &mut Pending,
    work: &mut Work,
) -> Result<Acted, AllocError>
    requires go { MayGo D.Disk parts.old call pending.old work.old [] }
    requires whole { HaveWholeHandles D.Disk parts.old }
    requires word { stores_row (machine_in parts.old.ledger) call.agent call.op ≡ true }
    requires more { HasMoreThanReserve (machine_in parts.old.ledger) call.agent call.op }
    ensures acted { IfOk result (λ acted. (f : Fixed D) (recorded : Built) → AreHeldWhole D.Disk f recorded parts.old.ledger parts.old.pages → AreHandlesWhole f.opening parts.old.ledger.books.history
        → IsAsked D.tells f.opening parts.old.ledger.books.history pending.old parts.old.ledger.books.state call work.old []
        → HasActed D.Disk f parts.old parts.new pending.old (call_in call) work.old work.new acted) }
    ensures taken { OnOk result (pending.new ≡ []) }
    ensures unacted { OnErr result ((pending.new ≡ pending.old) × IsSameCopy work.old work.new) }
    ensures idle { OnErr result ((f : Fixed D) (recorded : Built) → AreHeldWhole D.Disk f recorded parts.old.ledger parts.old.pages → IsUnacted D.Disk f parts.old parts.new) }
{
    calling_laws::<D>();
    content_laws::<D>();
    saving_laws::<D>();
    let _pages = work.pages();
    let agent = call.agent;
    let row = row_of(&call.op);
    let ends = is_last(&call.op);
    let Ok(again) = plan_again(&parts.ledger, agent, row) else {
        drop(call);
        return Err(AllocError);
    };
    take_in(&mut parts.ledger, agent, pending);
    let rows = parts.ledger.books.state.rows(agent) as u32;
    match evict_for(&mut parts.ledger, call, Reply::Done) {
        Ok((last, sizes)) => {
            parts.ledger.books.state.know_rows_match_tree();
            match enter_again(&mut parts.ledger, last, sizes, &again) {
                Ok(()) => {
                    leave_row(&mut parts.pages.swap, agent, row, ends);
                    Ok(Acted {
                        reply: Reply::Done,
                        gift: Gift::Nothing,
                        rows,
                    })
                }
                Err(_) => Ok(Acted {
                    reply: Reply::No(Refusal::DiskFault),
                    gift: Gift::Nothing,
                    rows,
                }),
            }
        }
        Err(_) => Ok(Acted {
            reply: Reply::No(Refusal::DiskFault),
            gift: Gift::Nothing,
            rows,
        }),
    }
}
