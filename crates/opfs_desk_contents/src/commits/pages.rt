//! A call that stores a row's content from its pages.

ghost use Rattle.std.specs.Prelude.{◌≡◌, ◌+◌, [], true, length, IfOk, OnOk, OnErr};
ghost use Rattle.opfs_store.specs.Acts.Acting.{IsSameCopy};
ghost use Rattle.opfs_books.specs.Stored.Laws.{CallsAreSpelled, CallsMayFail};
ghost use Rattle.opfs_books.specs.Laws.Books.{Fixed};
ghost use Rattle.opfs_books.specs.Laws.Commits.{StateLaws};
ghost use Rattle.opfs_books.specs.Laws.Laws.{BooksKeepTheState, BooksShowTheirImages, ReadsKeepTheBooks};
ghost use Rattle.opfs_desk_contents.specs.Blocks.{ContentsKeepBlocks};
ghost use Rattle.opfs_desk_contents.specs.Words.{stores_row};
ghost use Rattle.opfs_pages.specs.HistoryLaws.Laws.{CallsLeaveOtherRows, TreesKeepBlocks};
ghost use Rattle.opfs_pages.specs.HistoryLaws.RowsAfter.{CallsChangeTheirRow};
ghost use Rattle.opfs_desk_steps.specs.Parts.Acted.{HasActed, IsUnacted};
ghost use Rattle.opfs_desk_steps.specs.Parts.Asked.{IsAsked, MayGo};
ghost use Rattle.opfs_desk_steps.specs.Parts.Held.{AreHeldWhole};
ghost use Rattle.opfs_desk_steps.specs.Parts.Seen.{machine_in, call_in};
ghost use Rattle.opfs_desk_steps.specs.RowLaws.InHand.{RowsInHandAreLaid};
ghost use Rattle.opfs_desk_steps.specs.RowLaws.Inside.{PartsLieInside};
ghost use Rattle.opfs_desk_steps.specs.RowLaws.Stored.{FilesAreStored, HistoriesAreCleared};
ghost use Rattle.opfs_desk_steps.specs.Acting.{CallsAreActed};
ghost use Rattle.opfs_desk_steps.specs.Answering.{ReadyCallsAreAnswered};
ghost use Rattle.opfs_desk_steps.specs.Ready.{AskedCallsAreReady};
ghost use Rattle.opfs_desk_contents.specs.Commits.Fits.{FitsReserve};
ghost use Rattle.opfs_desk_contents.specs.Commits.Steps.{IsContentFor, IsContentPlanned};
ghost use Rattle.opfs_laws.specs.Leaving.{ACallMovesItsAgent};
ghost use Rattle.opfs_laws.specs.Lengths.Bridge.{LengthsDecideEachRuling, LengthsFollowEachCall, LocalCallsAreKnownByTheirWord};
ghost use Rattle.opfs_machine.specs.Replies.{row_named};
ghost use Rattle.opfs_records.specs.Replay.Built.{Built};

use crate::commits::leaving::{Leaving, is_alone, leave_row};
use crate::{Plan, is_last, plan_content, row_of, store_pages, stored_contents_keep_blocks_right};
use opfs_books::{
    calls_are_spelled, calls_may_fail, reads_leave_the_books, state_laws,
    the_books_show_their_images, the_state_is_kept,
};
use opfs_data::DataRefusal;
use opfs_desk_bytes::fail_reading;
use opfs_desk_steps::{
    CallParts, DeskParts, ReadyCall, asked_calls_are_ready, call_parts, calls_are_acted,
    copies_are_stored, files_are_stored, parts_lie_inside, ready_calls_are_answered,
    rows_in_hand_are_laid, take_in,
};
use opfs_hist::{Pending, Refusal, Reply};
use opfs_laws::lengths::bridge::{
    lengths_decide_each_ruling, lengths_follow_each_call, local_calls_are_known_by_their_word,
};
use opfs_laws::owned::a_call_moves_its_agent;
use opfs_outside::Disk;
use opfs_pages::{
    calls_change_their_row, calls_leave_other_rows, trees_keep_their_blocks, what_is_laid_goes_on,
};
use opfs_store::{Acted, Gift};
use opfs_work::Work;
use std::alloc::AllocError;

// What is known of the steps of such a call.
fn calling_laws<D: Disk>()
    ensures asks { AskedCallsAreReady D.Disk }
    ensures answers { ReadyCallsAreAnswered D.Disk }
    ensures acts { CallsAreActed D.Disk }
    ensures decide { LengthsDecideEachRuling }
    ensures follow { LengthsFollowEachCall }
    ensures local { LocalCallsAreKnownByTheirWord }
    ensures states { StateLaws }
    ensures kept { BooksKeepTheState D.Disk }
    ensures files { FilesAreStored D.Disk }
    ensures between { HistoriesAreCleared D.Disk }
    ensures inside { PartsLieInside D.Disk }
{
    asked_calls_are_ready::<D>();
    ready_calls_are_answered::<D>();
    calls_are_acted::<D>();
    lengths_decide_each_ruling();
    lengths_follow_each_call();
    local_calls_are_known_by_their_word();
    state_laws();
    the_state_is_kept::<D>();
    files_are_stored::<D>();
    parts_lie_inside::<D>();
}

// What is known of what it stores, and of the row that it leaves.
fn storing_laws<D: Disk>()
    ensures spelled { CallsAreSpelled }
    ensures fails { CallsMayFail D.tells }
    ensures rows { RowsInHandAreLaid D.Disk }
    ensures contents { ContentsKeepBlocks }
    ensures trees { TreesKeepBlocks }
    ensures others { CallsLeaveOtherRows }
    ensures changes { CallsChangeTheirRow }
    ensures moves { ACallMovesItsAgent }
{
    calls_are_spelled();
    calls_may_fail::<D>();
    rows_in_hand_are_laid::<D>();
    stored_contents_keep_blocks_right();
    trees_keep_their_blocks();
    calls_leave_other_rows();
    calls_change_their_row();
    a_call_moves_its_agent();
}

// What is known of the parts once a disk was read.
fn reading_laws<D: Disk>()
    ensures reads { ReadsKeepTheBooks D.Disk }
    ensures shown { BooksShowTheirImages D.Disk }
{
    reads_leave_the_books::<D>();
    the_books_show_their_images::<D>();
}

// Acts a call whose row's content is planned: its agent's pending calls are taken in, the pages are put, and the content is committed
// with the call. Where the disk fails it is entered so. Takes no memory.
fn enter_pages<D: Disk>(
    parts: &mut DeskParts<D>,
    call: ReadyCall,
    plan: Plan,
    row: u32,
    pending: &mut Pending,
    work: &mut Work,
) -> Acted
    requires go { MayGo D.Disk parts.old call pending.old work.old [] }
    requires word { stores_row (machine_in parts.old.ledger) call.agent call.op ≡ true }
    requires fits { FitsReserve work.old }
    requires row { row ≡ row_named call.op }
    requires plan { IsContentPlanned D.Disk parts.old call.agent (row_named call.op) work.old.length plan }
    requires content { IsContentFor D.Disk parts.old pending.old call work.old plan.put.writes }
    ensures taken { pending.new ≡ [] }
    ensures acted { (f : Fixed D) (recorded : Built) → AreHeldWhole D.Disk f recorded parts.old.ledger parts.old.pages
        → IsAsked D.tells f.opening parts.old.ledger.books.history pending.old parts.old.ledger.books.state call work.old []
        → HasActed D.Disk f parts.old parts.new pending.old (call_in call) work.old work.new result }
{
    calling_laws::<D>();
    storing_laws::<D>();
    let agent = call.agent;
    let ends = is_last(&call.op);
    take_in(&mut parts.ledger, agent, pending);
    let rows = parts.ledger.books.state.rows(agent) as u32;
    parts.ledger.books.state.know_rows_match_tree();
    let alone = is_alone(&parts.ledger.books.state, &plan.place);
    let leaving = Leaving {
        agent,
        row,
        ends,
        alone,
    };
    let CallParts { last, sizes, .. } = call_parts(call, Reply::Done);
    match store_pages(parts, last, sizes, plan, agent, row, work) {
        Ok(runs) => {
            let gone = parts.ledger.freed.as_slice();
            leave_row(&mut parts.pages, gone, runs.as_slice(), leaving, work);
            Acted {
                reply: Reply::Done,
                gift: Gift::Nothing,
                rows,
            }
        }
        Err(_) => Acted {
            reply: Reply::No(Refusal::DiskFault),
            gift: Gift::Nothing,
            rows,
        },
    }
}

/// Acts a call that stores a row's content, where the blocks of all its pages are kept for it. Where the disk fails the call is
/// entered so, and the row stays open with its bytes; where there is no memory nothing is entered.
pub(crate) fn act_pages<D: Disk>(
    parts: &mut DeskParts<D>,
    call: ReadyCall,
    pending: &mut Pending,
    work: &mut Work,
) -> Result<Acted, AllocError>
    requires go { MayGo D.Disk parts.old call pending.old work.old [] }
    requires word { stores_row (machine_in parts.old.ledger) call.agent call.op ≡ true }
    requires fits { FitsReserve work.old }
    ensures acted { IfOk result (λ acted. (f : Fixed D) (recorded : Built) → AreHeldWhole D.Disk f recorded parts.old.ledger parts.old.pages
        → IsAsked D.tells f.opening parts.old.ledger.books.history pending.old parts.old.ledger.books.state call work.old []
        → HasActed D.Disk f parts.old parts.new pending.old (call_in call) work.old work.new acted) }
    ensures taken { OnOk result (pending.new ≡ []) }
    ensures unacted { OnErr result ((pending.new ≡ pending.old) × IsSameCopy work.old work.new) }
    ensures idle { OnErr result ((f : Fixed D) (recorded : Built) → AreHeldWhole D.Disk f recorded parts.old.ledger parts.old.pages → IsUnacted D.Disk f parts.old parts.new) }
{
    calling_laws::<D>();
    reading_laws::<D>();
    copies_are_stored::<D>();
    what_is_laid_goes_on::<D>();
    let _pages = work.pages();
    let row = row_of(&call.op);
    match plan_content(parts, call.agent, row, work) {
        Ok(plan) => Ok(enter_pages(parts, call, plan, row, pending, work)),
        Err(DataRefusal::DiskFault) => Ok(fail_reading(parts, call, pending)),
        Err(DataRefusal::NoMemory) => {
            drop(call);
            Err(AllocError)
        }
    }
}
