//! getFile: the present bytes of a file.

ghost use Rattle.std.specs.Prelude.{◌≡◌, ℕ, true, [], List, Some, IfOk, OnOk, OnErr, IsErrOf};
ghost use Rattle.opfs_store.specs.Acts.Acting.{IsSameCopy};
ghost use Rattle.opfs_books.specs.Laws.Books.{Fixed};
ghost use Rattle.opfs_books.specs.Laws.Commits.{StateLaws};
ghost use Rattle.opfs_books.specs.Laws.Laws.{BooksShowTheirImages};
ghost use Rattle.opfs_data.specs.Calls.{Reads};
ghost use Rattle.opfs_data.specs.Pages.{IsDataPart, LiesIn};
ghost use Rattle.opfs_data.specs.Rows.{page_at};
ghost use Rattle.opfs_pages.specs.HistoryLaws.Handles.{AreHandlesWhole, HandlesStayWhole};
ghost use Rattle.opfs_pages.specs.HistoryLaws.Laws.{BlocksGoOn, CallsLeaveOtherRows};
ghost use Rattle.opfs_desk_steps.specs.Parts.Acted.{HasActed, IsUnacted};
ghost use Rattle.opfs_desk_steps.specs.Parts.Asked.{IsAsked, MayGo};
ghost use Rattle.opfs_desk_steps.specs.Parts.Held.{AreHeldWhole};
ghost use Rattle.opfs_desk_steps.specs.Parts.Seen.{call_in};
ghost use Rattle.opfs_desk_bytes.specs.Reading.Files.{AreOfAgents, IsReadOfFile, MayReadFile};
ghost use Rattle.opfs_desk_bytes.specs.Reading.Reading.{HaveWholeHandles, IsReadFrom};
ghost use Rattle.opfs_desk_bytes.specs.Reading.Words.{file_read, gets_file};
ghost use Rattle.opfs_desk_steps.specs.RowLaws.InHand.{RowsInHandAreLaid};
ghost use Rattle.opfs_desk_steps.specs.RowLaws.Stored.{FilesAreStored, HistoriesAreCleared};
ghost use Rattle.opfs_desk_steps.specs.Acting.{CallsAreActed};
ghost use Rattle.opfs_desk_steps.specs.Answering.{ReadyCallsAreAnswered};
ghost use Rattle.opfs_desk_steps.specs.Ready.{AskedCallsAreReady};
ghost use Rattle.opfs_laws.specs.Lengths.Bridge.{LengthsFollowEachCall, LocalCallsAreKnownByTheirWord};
ghost use Rattle.opfs_outside.specs.Faults.{Rose};
ghost use Rattle.opfs_records.specs.Replay.Built.{Built};
ghost use Rattle.opfs_tree.specs.Rows.{file_at as file_in_tree};
ghost use Rattle.opfs_tree.specs.declared.row.FileRow.{FileRow};

use crate::reading::failing::fail_reading;
use crate::reading::files::read_file;
use opfs_base::Bytes;
use opfs_books::{reads_leave_the_books, state_laws, the_books_show_their_images};
use opfs_data::{DataRefusal, Swap};
use opfs_desk_steps::{
    DeskParts, ReadyCall, asked_calls_are_ready, calls_are_acted, clear_call, files_are_stored,
    parts_lie_inside, ready_calls_are_answered, rows_in_hand_are_laid, take_in, tell_last,
};
use opfs_hist::{Op, Pending, Refusal, Reply};
use opfs_journal::Journal;
use opfs_laws::lengths::bridge::{lengths_follow_each_call, local_calls_are_known_by_their_word};
use opfs_outside::Disk;
use opfs_pages::{blocks_go_on, calls_leave_other_rows, handles_stay_whole};
use opfs_state::State;
use opfs_store::{Acted, Gift};
use opfs_work::Work;
use std::alloc::{AllocError, Global};

/// The bytes of a file that were read, with its size and its time stamp.
#[derive(Drop)]
struct FileRead {
    bytes: Bytes,
    size: u64,
    stamp: u64,
}

// What is known of the steps of such a call.
fn getting_laws<D: Disk>()
    ensures asks { AskedCallsAreReady D.Disk }
    ensures answers { ReadyCallsAreAnswered D.Disk }
    ensures acts { CallsAreActed D.Disk }
    ensures laid { RowsInHandAreLaid D.Disk }
    ensures shown { BooksShowTheirImages D.Disk }
    ensures others { CallsLeaveOtherRows }
    ensures spaces { BlocksGoOn }
    ensures states { StateLaws }
    ensures files { FilesAreStored D.Disk }
    ensures between { HistoriesAreCleared D.Disk }
    ensures handles { HandlesStayWhole }
    ensures follow { LengthsFollowEachCall }
    ensures local { LocalCallsAreKnownByTheirWord }
{
    asked_calls_are_ready::<D>();
    ready_calls_are_answered::<D>();
    calls_are_acted::<D>();
    rows_in_hand_are_laid::<D>();
    the_books_show_their_images::<D>();
    calls_leave_other_rows();
    blocks_go_on();
    state_laws();
    files_are_stored::<D>();
    handles_stay_whole();
    lengths_follow_each_call();
    local_calls_are_known_by_their_word();
}

// Enters a getFile, once the bytes are there.
fn enter_get_file<D: Disk>(
    parts: &mut DeskParts<D>,
    call: ReadyCall,
    read: FileRead,
    pending: &mut Pending,
    work: &Work,
) -> Acted
    requires go { MayGo D.Disk parts.old call pending.old work.now [] }
    requires word { gets_file call.op ≡ true }
    requires read { IsReadFrom D.Disk parts.old.ledger parts.old.pages (file_read call.op) read.bytes read.size read.stamp }
    ensures taken { pending.new ≡ [] }
    ensures acted { (f : Fixed D) (recorded : Built) → AreHeldWhole D.Disk f recorded parts.old.ledger parts.old.pages → AreHandlesWhole f.opening parts.old.ledger.books.history
        → IsAsked D.tells f.opening parts.old.ledger.books.history pending.old parts.old.ledger.books.state call work.now []
        → HasActed D.Disk f parts.old parts.new pending.old (call_in call) work.now work.now result }
{
    getting_laws::<D>();
    let agent = call.agent;
    take_in(&mut parts.ledger, agent, pending);
    parts.ledger.books.state.know_rows_match_tree();
    let rows = parts.ledger.books.state.rows(agent) as u32;
    let FileRead { bytes, size, stamp } = read;
    match clear_call(&mut parts.ledger, call, Reply::FileInfo(size, stamp)) {
        Ok((last, sizes)) => {
            tell_last(&mut parts.ledger, last, sizes);
            Acted {
                reply: Reply::FileInfo(size, stamp),
                gift: Gift::Bytes(bytes),
                rows: rows + 1,
            }
        }
        Err(_) => Acted {
            reply: Reply::No(Refusal::DiskFault),
            gift: Gift::Nothing,
            rows,
        },
    }
}

// Reads the file of a call, if it is there.
fn read_named<D: Disk>(
    alloc: Global,
    state: &State,
    swap: &Swap,
    journal: &mut Journal<D>,
    base: u64,
    op: &Op,
) -> Result<FileRead, DataRefusal>
    requires word { gets_file op.now ≡ true }
    requires agents { AreOfAgents state.now.store.machine swap.now }
    requires may { (found : FileRow) → file_in_tree (file_read op.now) state.now.store.tree ≡ Some found → MayReadFile state.now.store.machine (file_read op.now) found swap.now base (D.size journal.old.disk) }
    requires lies { (k n i : ℕ) → LiesIn base (D.size journal.old.disk) (page_at k n i swap.now).block }
    requires part { IsDataPart journal.old.areas base }
    ensures reads { Reads D.Disk journal.old journal.new }
    ensures read { IfOk result (λ read. (found : FileRow) → file_in_tree (file_read op.now) state.now.store.tree ≡ Some found
        → IsReadOfFile D.tells state.now.store.machine (file_read op.now) found swap.now (D.content journal.old.disk) base read.bytes read.size read.stamp) }
    ensures cause { IsErrOf result DataRefusal.DiskFault → Rose (D.faults journal.old.disk) (D.faults journal.new.disk) }
{
    match op {
        Op::GetFile { file } => match state.file(&file.key, &file.path) {
            Some(found) => {
                let bytes = read_file(alloc, state, swap, journal, base, file, found)?;
                Ok(FileRead {
                    bytes,
                    size: found.present,
                    stamp: found.present_stamp,
                })
            }
            None => Ok(FileRead {
                bytes: Bytes::from_vec(Vec::new(alloc)),
                size: 0,
                stamp: 0,
            }),
        },
        _ => unreachable!(),
    }
}

/// Acts a getFile: the present bytes of the file are read, from the pages of the access handle that may write it, or else from the
/// file's blocks. Where the disk fails the call is entered so; where there is no memory nothing is entered.
pub fn act_get_file<D: Disk>(
    parts: &mut DeskParts<D>,
    call: ReadyCall,
    pending: &mut Pending,
    work: &mut Work,
) -> Result<Acted, AllocError>
    requires go { MayGo D.Disk parts.old call pending.old work.old [] }
    requires word { gets_file call.op ≡ true }
    requires whole { HaveWholeHandles D.Disk parts.old }
    ensures acted { IfOk result (λ acted. (f : Fixed D) (recorded : Built) → AreHeldWhole D.Disk f recorded parts.old.ledger parts.old.pages → AreHandlesWhole f.opening parts.old.ledger.books.history
        → IsAsked D.tells f.opening parts.old.ledger.books.history pending.old parts.old.ledger.books.state call work.old []
        → HasActed D.Disk f parts.old parts.new pending.old (call_in call) work.old work.new acted) }
    ensures taken { OnOk result (pending.new ≡ []) }
    ensures unacted { OnErr result ((pending.new ≡ pending.old) × IsSameCopy work.old work.new) }
    ensures idle { OnErr result ((f : Fixed D) (recorded : Built) → AreHeldWhole D.Disk f recorded parts.old.ledger parts.old.pages → IsUnacted D.Disk f parts.old parts.new) }
{
    getting_laws::<D>();
    parts_lie_inside::<D>();
    reads_leave_the_books::<D>();
    parts.ledger.books.state.know_rows_match_tree();
    match read_named(
        parts.ledger.alloc,
        &parts.ledger.books.state,
        &parts.pages.swap,
        &mut parts.ledger.journal,
        parts.pages.base,
        &call.op,
    ) {
        Ok(read) => Ok(enter_get_file(parts, call, read, pending, work)),
        Err(DataRefusal::DiskFault) => Ok(fail_reading(parts, call, pending)),
        Err(DataRefusal::NoMemory) => {
            drop(call);
            Err(AllocError)
        }
    }
}
