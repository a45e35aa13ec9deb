//! A call that opens a row.

ghost use Rattle.std.specs.Prelude.{◌≡◌, true, List, [], IfOk, OnOk, OnErr};
ghost use Rattle.opfs_store.specs.Acts.Acting.{IsSameCopy};
ghost use Rattle.opfs_books.specs.Laws.Books.{Fixed};
ghost use Rattle.opfs_books.specs.Laws.Commits.{StateLaws};
ghost use Rattle.opfs_books.specs.Laws.Laws.{BooksShowTheirImages};
ghost use Rattle.opfs_pages.specs.HistoryLaws.Laws.{TreesKeepBlocks};
ghost use Rattle.opfs_pages.specs.HistoryLaws.RowsAfter.{CallsChangeTheirRow};
ghost use Rattle.opfs_desk_steps.specs.Parts.Acted.{HasActed, IsUnacted};
ghost use Rattle.opfs_desk_steps.specs.Parts.Asked.{IsAsked, MayGo};
ghost use Rattle.opfs_base.specs.Texts.{Text};
ghost use Rattle.opfs_desk_steps.specs.Parts.Answered.{IsAnswered, MayAnswer};
ghost use Rattle.opfs_desk_steps.specs.Parts.Held.{AreHeldAt, AreHeldWhole};
ghost use Rattle.opfs_desk_steps.specs.declared.parts.parts.OpenPages.{OpenPages};
ghost use Rattle.opfs_hist.specs.declared.reply.Reply.TheVariants as reply;
ghost use Rattle.opfs_machine.specs.declared.own.Own.{Own};
ghost use Rattle.opfs_machine.specs.declared.state.State.{State};
ghost use Rattle.opfs_desk_steps.specs.Parts.Seen.{tree_in, call_in};
ghost use Rattle.opfs_desk_steps.specs.RowLaws.OpenCopies.{OpenedCopiesStand};
ghost use Rattle.opfs_desk_steps.specs.RowLaws.Opening.{OpenedRowsAreLaid};
ghost use Rattle.opfs_desk_steps.specs.RowLaws.Opens.{CallsOpenRows, opens_row};
ghost use Rattle.opfs_desk_steps.specs.RowLaws.Stored.{FilesAreStored};
ghost use Rattle.opfs_desk_steps.specs.Acting.{CallsAreActed};
ghost use Rattle.opfs_desk_steps.specs.Answering.{ReadyCallsAreAnswered};
ghost use Rattle.opfs_desk_steps.specs.Going.{HasTold, IsTidy};
ghost use Rattle.opfs_desk_steps.specs.Ready.{AskedCallsAreReady};
ghost use Rattle.opfs_records.specs.Replay.Built.{Built};
ghost use Rattle.opfs_tree.specs.Rows.{IsInOrder};

use crate::opening::pages::{next_row, open_pages};
use opfs_books::{EntryWithRoom, state_laws, the_books_show_their_images};
use opfs_desk_steps::{
    DeskParts, Ledger, ReadyCall, asked_calls_are_ready, calls_are_acted, calls_open_rows,
    clear_call, files_are_stored, opened_rows_are_laid, ready_calls_are_answered, take_in,
    tell_last,
};
use opfs_hist::{Pending, Refusal, Reply};
use opfs_machine::Sizes;
use opfs_outside::Disk;
use opfs_pages::{
    blocks_go_on, calls_change_their_row, trees_keep_their_blocks, what_is_laid_goes_on,
};
use opfs_store::{Acted, Gift};
use opfs_work::Work;
use std::alloc::AllocError;

// Enters a call that opens a row.
fn enter_open<D: Disk>(ledger: &mut Ledger<D>, last: EntryWithRoom, sizes: Sizes)
    requires may { MayAnswer D.Disk ledger.old last.entry sizes }
    requires word { opens_row last.entry.op ≡ true }
    requires done { last.entry.reply ≡ reply.Done }
    ensures tidy { IsTidy ledger.old }
    ensures order { IsInOrder (tree_in ledger.new) }
    ensures told { (f : Fixed D) (recorded : Built) (base : State Text Own) (gone : List Text) (p : OpenPages) → AreHeldAt D.Disk f recorded base gone ledger.old p → IsAnswered D.Disk base gone ledger.old last.entry sizes
        → HasTold D.Disk f recorded ledger.old ledger.new p last.entry sizes }
{
    ledger.books.state.know_rows_match_tree();
    ledger.books.state.know_order();
    tell_last(ledger, last, sizes);
    ledger.books.state.know_order();
}

// What is known of the steps of such a call.
fn opening_laws<D: Disk>()
    ensures asks { AskedCallsAreReady D.Disk }
    ensures answers { ReadyCallsAreAnswered D.Disk }
    ensures acts { CallsAreActed D.Disk }
    ensures opens { CallsOpenRows D.Disk }
    ensures copies { OpenedCopiesStand D.Disk }
    ensures laid { OpenedRowsAreLaid D.Disk }
    ensures stored { FilesAreStored D.Disk }
    ensures shown { BooksShowTheirImages D.Disk }
    ensures states { StateLaws }
    ensures changes { CallsChangeTheirRow }
    ensures trees { TreesKeepBlocks }
{
    state_laws();
    calls_change_their_row();
    trees_keep_their_blocks();
    asked_calls_are_ready::<D>();
    ready_calls_are_answered::<D>();
    calls_are_acted::<D>();
    calls_open_rows::<D>();
    opened_rows_are_laid::<D>();
    files_are_stored::<D>();
    the_books_show_their_images::<D>();
}

/// Acts a createWritable or a createSyncAccessHandle: the row is opened over the blocks of its file, which are read when its bytes
/// are asked for. A writable that keeps the file's bytes keeps as many blocks, and may clear units for them. Where there is no
/// memory nothing is entered.
pub fn act_open<D: Disk>(
    parts: &mut DeskParts<D>,
    call: ReadyCall,
    pending: &mut Pending,
    work: &mut Work,
) -> Result<Acted, AllocError>
    requires go { MayGo D.Disk parts.old call pending.old work.old [] }
    requires word { opens_row call.op ≡ true }
    ensures acted { IfOk result (λ acted. (f : Fixed D) (recorded : Built) → AreHeldWhole D.Disk f recorded parts.old.ledger parts.old.pages
        → IsAsked D.tells f.opening parts.old.ledger.books.history pending.old parts.old.ledger.books.state call work.old []
        → HasActed D.Disk f parts.old parts.new pending.old (call_in call) work.old work.new acted) }
    ensures taken { OnOk result (pending.new ≡ []) }
    ensures unacted { OnErr result ((pending.new ≡ pending.old) × IsSameCopy work.old work.new) }
    ensures idle { OnErr result ((f : Fixed D) (recorded : Built) → AreHeldWhole D.Disk f recorded parts.old.ledger parts.old.pages → IsUnacted D.Disk f parts.old parts.new) }
{
    opening_laws::<D>();
    blocks_go_on();
    what_is_laid_goes_on::<D>();
    let row = next_row(&parts.ledger, call.agent, pending);
    let Ok(opened) = open_pages(
        parts.ledger.alloc,
        &parts.ledger.books.state,
        &mut parts.pages.swap,
        call.agent,
        row,
        &call.op,
    ) else {
        drop(call);
        return Err(AllocError);
    };
    let agent = call.agent;
    take_in(&mut parts.ledger, agent, pending);
    match clear_call(&mut parts.ledger, call, Reply::Done) {
        Ok((last, sizes)) => {
            enter_open(&mut parts.ledger, last, sizes);
            *work = opened;
            Ok(Acted {
                reply: Reply::Done,
                gift: Gift::Nothing,
                rows: row,
            })
        }
        Err(_) => {
            parts.pages.swap.drop_row(agent, row);
            Ok(Acted {
                reply: Reply::No(Refusal::DiskFault),
                gift: Gift::Nothing,
                rows: row - 1,
            })
        }
    }
}
