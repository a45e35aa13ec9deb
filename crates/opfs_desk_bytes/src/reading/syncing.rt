//! A read of an access handle for which pages are elsewhere.

ghost use Rattle.std.specs.Prelude.{◌≡◌, ◌/◌, ◌%◌, ◌≤◌, ℕ, true, [], length, slice_index, IfOk, OnOk, OnErr};
ghost use Rattle.opfs_store.specs.Acts.Acting.{IsSameCopy};
ghost use Rattle.opfs_books.specs.Laws.Books.{Fixed};
ghost use Rattle.opfs_books.specs.Laws.Laws.{BooksShowTheirImages, BooksKeepTheState, ReadsKeepTheBooks};
ghost use Rattle.opfs_pages.specs.HistoryLaws.Handles.{AreHandlesWhole, HandlesStayWhole};
ghost use Rattle.opfs_pages.specs.HistoryLaws.Laws.{BlocksGoOn, CallsLeaveOtherRows};
ghost use Rattle.opfs_desk_steps.specs.Parts.Acted.{HasActed, IsUnacted};
ghost use Rattle.opfs_desk_steps.specs.Parts.Asked.{IsAsked, MayGo};
ghost use Rattle.opfs_desk_steps.specs.Parts.Held.{AreHeldWhole};
ghost use Rattle.opfs_desk_steps.specs.Parts.Seen.{call_in};
ghost use Rattle.opfs_desk_bytes.specs.Reading.Reading.{IsReadFor};
ghost use Rattle.opfs_desk_bytes.specs.Reading.Words.{reads_row, read_start, read_len};
ghost use Rattle.opfs_desk_steps.specs.RowLaws.InHand.{RowsInHandAreLaid};
ghost use Rattle.opfs_desk_steps.specs.Acting.{CallsAreActed};
ghost use Rattle.opfs_desk_steps.specs.Answering.{ReadyCallsAreAnswered};
ghost use Rattle.opfs_desk_steps.specs.Ready.{AskedCallsAreReady};
ghost use Rattle.opfs_laws.specs.GoingOn.{LegalHistoriesGoOn};
ghost use Rattle.opfs_machine.specs.Replies.{row_named};
ghost use Rattle.opfs_records.specs.Replay.Built.{Built};

use crate::reading::bytes::{RowRead, leave_cursor, read_open_row};
use crate::reading::failing::fail_reading;
use opfs_books::{reads_leave_the_books, the_books_show_their_images, the_state_is_kept};
use opfs_data::DataRefusal;
use opfs_desk_steps::{
    DeskParts, ReadyCall, asked_calls_are_ready, calls_are_acted, clear_call, copies_are_stored,
    parts_lie_inside, ready_calls_are_answered, rows_in_hand_are_laid, take_in, tell_last,
};
use opfs_hist::{Op, Pending, Refusal, Reply};
use opfs_laws::going_on::legal_histories_go_on;
use opfs_machine::Sizes;
use opfs_outside::Disk;
use opfs_pages::{
    RowSource, blocks_go_on, calls_leave_other_rows, copies_stand_for_their_row, handles_stay_whole,
};
use opfs_store::{Acted, Gift};
use opfs_work::Work;
use std::alloc::AllocError;

/// Which bytes of a row are asked for.
#[derive(Clone, Copy)]
struct Span {
    row: u32,
    start: u64,
    len: u64,
}

// Those that a call reads.
fn span_of(op: &Op, sizes: &Sizes) -> Span
    requires word { reads_row op.now ≡ true }
    ensures row { result.row ≡ row_named op.now }
    ensures start { result.start ≡ read_start sizes.now op.now }
    ensures len { result.len ≡ read_len op.now }
{
    match op {
        Op::SyncRead { row, len, at } => Span {
            row: *row,
            start: at.unwrap_or(sizes.position),
            len: *len,
        },
        _ => unreachable!(),
    }
}

// What is known of the steps of such a call.
fn reading_laws<D: Disk>()
    ensures asks { AskedCallsAreReady D.Disk }
    ensures answers { ReadyCallsAreAnswered D.Disk }
    ensures acts { CallsAreActed D.Disk }
    ensures laid { RowsInHandAreLaid D.Disk }
    ensures shown { BooksShowTheirImages D.Disk }
    ensures known { BooksKeepTheState D.Disk }
    ensures reads { ReadsKeepTheBooks D.Disk }
    ensures handles { HandlesStayWhole }
    ensures others { CallsLeaveOtherRows }
    ensures spaces { BlocksGoOn }
    ensures goes_on { LegalHistoriesGoOn }
{
    asked_calls_are_ready::<D>();
    ready_calls_are_answered::<D>();
    calls_are_acted::<D>();
    rows_in_hand_are_laid::<D>();
    the_books_show_their_images::<D>();
    the_state_is_kept::<D>();
    reads_leave_the_books::<D>();
    handles_stay_whole();
    calls_leave_other_rows();
    blocks_go_on();
    legal_histories_go_on();
}

// Enters a read of an access handle, once its bytes are there.
fn enter_sync_read<D: Disk>(
    parts: &mut DeskParts<D>,
    call: ReadyCall,
    read: RowRead,
    pending: &mut Pending,
    work: &mut Work,
) -> Acted
    requires go { MayGo D.Disk parts.old call pending.old work.old [] }
    requires word { reads_row call.op ≡ true }
    requires whole { length read.page.items ≡ 4096 }
    requires tail { (i : ℕ) → work.old.length ≤ i → i / 4096 ≡ read.beside → slice_index read.page.items (i % 4096) ≡ 0 }
    requires read { IsReadFor D.Disk parts.old pending.old call work.old read.bytes read.copy read.cursor read.beside read.page.items }
    ensures taken { pending.new ≡ [] }
    ensures acted { (f : Fixed D) (recorded : Built) → AreHeldWhole D.Disk f recorded parts.old.ledger parts.old.pages → AreHandlesWhole f.opening parts.old.ledger.books.history
        → IsAsked D.tells f.opening parts.old.ledger.books.history pending.old parts.old.ledger.books.state call work.old []
        → HasActed D.Disk f parts.old parts.new pending.old (call_in call) work.old work.new result }
{
    reading_laws::<D>();
    copies_stand_for_their_row::<D>();
    let agent = call.agent;
    take_in(&mut parts.ledger, agent, pending);
    let rows = parts.ledger.books.state.rows(agent) as u32;
    let RowRead {
        bytes,
        copy,
        cursor,
        beside,
        page,
    } = read;
    match clear_call(&mut parts.ledger, call, Reply::Read(copy)) {
        Ok((last, sizes)) => {
            tell_last(&mut parts.ledger, last, sizes);
            leave_cursor(work, cursor, beside, page.as_slice());
            Acted {
                reply: Reply::Read(bytes),
                gift: Gift::Nothing,
                rows,
            }
        }
        Err(_) => Acted {
            reply: Reply::No(Refusal::DiskFault),
            gift: Gift::Nothing,
            rows,
        },
    }
}

/// Acts a syncRead: bytes whose pages are elsewhere are read from the store, and their last page comes into memory, or that of the
/// cursor. Where the disk fails the call is entered so; where there is no memory nothing is entered.
pub fn act_sync_read<D: Disk>(
    parts: &mut DeskParts<D>,
    call: ReadyCall,
    pending: &mut Pending,
    work: &mut Work,
) -> Result<Acted, AllocError>
    requires go { MayGo D.Disk parts.old call pending.old work.old [] }
    requires word { reads_row call.op ≡ true }
    ensures acted { IfOk result (λ acted. (f : Fixed D) (recorded : Built) → AreHeldWhole D.Disk f recorded parts.old.ledger parts.old.pages → AreHandlesWhole f.opening parts.old.ledger.books.history
        → IsAsked D.tells f.opening parts.old.ledger.books.history pending.old parts.old.ledger.books.state call work.old []
        → HasActed D.Disk f parts.old parts.new pending.old (call_in call) work.old work.new acted) }
    ensures taken { OnOk result (pending.new ≡ []) }
    ensures unacted { OnErr result ((pending.new ≡ pending.old) × IsSameCopy work.old work.new) }
    ensures idle { OnErr result ((f : Fixed D) (recorded : Built) → AreHeldWhole D.Disk f recorded parts.old.ledger parts.old.pages → IsUnacted D.Disk f parts.old parts.new) }
{
    reading_laws::<D>();
    copies_are_stored::<D>();
    parts_lie_inside::<D>();
    let span = span_of(&call.op, &call.sizes);
    let source = RowSource {
        agent: call.agent,
        row: span.row,
        work,
        swap: &parts.pages.swap,
        base: parts.pages.base,
    };
    match read_open_row(
        parts.ledger.alloc,
        &source,
        &mut parts.ledger.journal,
        span.start,
        span.len,
    ) {
        Ok(read) => Ok(enter_sync_read(parts, call, read, pending, work)),
        Err(DataRefusal::DiskFault) => Ok(fail_reading(parts, call, pending)),
        Err(DataRefusal::NoMemory) => {
            drop(call);
            Err(AllocError)
        }
    }
}
