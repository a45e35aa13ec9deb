//! A call that ends a row.

ghost use Rattle.std.specs.Prelude.{◌≡◌, [], List, false, true};
ghost use Rattle.opfs_store.specs.Acts.Acting.{told_entry};
ghost use Rattle.opfs_base.specs.Texts.{Text};
ghost use Rattle.opfs_books.specs.Laws.Books.{Fixed};
ghost use Rattle.opfs_books.specs.Laws.Laws.{BooksShowTheirImages};
ghost use Rattle.opfs_desk_entries.specs.Releases.Leaving.{IsInOrderThrough, is_leaving, leaves_row};
ghost use Rattle.opfs_pages.specs.HistoryLaws.Laws.{BlocksGoOn, CallsLeaveOtherRows, TreesKeepBlocks};
ghost use Rattle.opfs_pages.specs.HistoryLaws.RowsAfter.{CallsChangeTheirRow};
ghost use Rattle.opfs_desk_steps.specs.Parts.Acted.{HasActed};
ghost use Rattle.opfs_desk_steps.specs.Parts.Answered.{IsAnswered, MayAnswer};
ghost use Rattle.opfs_desk_steps.specs.Parts.Asked.{IsAsked, MayGo};
ghost use Rattle.opfs_desk_steps.specs.Parts.Held.{AreHeldAt, AreHeldWhole};
ghost use Rattle.opfs_desk_steps.specs.Parts.Seen.{machine_in, call_in};
ghost use Rattle.opfs_desk_steps.specs.declared.parts.parts.OpenPages.{OpenPages};
ghost use Rattle.opfs_desk_steps.specs.RowLaws.InHand.{RowsInHandAreLaid};
ghost use Rattle.opfs_desk_steps.specs.Acting.{CallsAreActed};
ghost use Rattle.opfs_desk_steps.specs.Answering.{ReadyCallsAreAnswered};
ghost use Rattle.opfs_desk_steps.specs.Going.{HasTold};
ghost use Rattle.opfs_desk_steps.specs.Ready.{AskedCallsAreReady};
ghost use Rattle.opfs_hist.specs.declared.reply.Reply.TheVariants as reply;
ghost use Rattle.opfs_laws.specs.Leaving.{ACallMovesItsAgent};
ghost use Rattle.opfs_laws.specs.Lengths.Bridge.{LengthsDecideEachRuling, LengthsFollowEachCall, LocalCallsAreKnownByTheirWord};
ghost use Rattle.opfs_machine.specs.declared.own.Own.{Own};
ghost use Rattle.opfs_machine.specs.declared.state.State.{State};
ghost use Rattle.opfs_machine.specs.Replies.{row_named};
ghost use Rattle.opfs_records.specs.Replay.Built.{Built};

use opfs_books::the_books_show_their_images;
use opfs_desk_steps::{
    DeskParts, Ledger, ReadyCall, asked_calls_are_ready, calls_are_acted, ready_calls_are_answered,
    rows_in_hand_are_laid, take_in, tell_ready,
};
use opfs_hist::{Op, Pending, Reply};
use opfs_laws::lengths::bridge::{
    lengths_decide_each_ruling, lengths_follow_each_call, local_calls_are_known_by_their_word,
};
use opfs_laws::owned::a_call_moves_its_agent;
use opfs_outside::Disk;
use opfs_pages::{
    blocks_go_on, calls_change_their_row, calls_leave_other_rows, trees_keep_their_blocks,
};
use opfs_store::{Acted, Gift};
use opfs_work::Work;

// The row that such a call names.
fn row_of(op: &Op) -> u32
    requires { is_leaving op.now ≡ true }
    ensures { result ≡ row_named op.now }
{
    match op {
        Op::Abort { row } | Op::Discard { row } | Op::SyncClose { row } => *row,
        _ => unreachable!(),
    }
}

// What is known of the steps of such a call.
fn leaving_laws<D: Disk>()
    ensures asks { AskedCallsAreReady D.Disk }
    ensures answers { ReadyCallsAreAnswered D.Disk }
    ensures acts { CallsAreActed D.Disk }
    ensures rows { RowsInHandAreLaid D.Disk }
    ensures shown { BooksShowTheirImages D.Disk }
    ensures decide { LengthsDecideEachRuling }
    ensures follow { LengthsFollowEachCall }
    ensures local { LocalCallsAreKnownByTheirWord }
{
    asked_calls_are_ready::<D>();
    ready_calls_are_answered::<D>();
    calls_are_acted::<D>();
    rows_in_hand_are_laid::<D>();
    the_books_show_their_images::<D>();
    lengths_decide_each_ruling();
    lengths_follow_each_call();
    local_calls_are_known_by_their_word();
}

// What is known of the row that it ends.
fn ending_laws()
    ensures go_on { BlocksGoOn }
    ensures trees { TreesKeepBlocks }
    ensures others { CallsLeaveOtherRows }
    ensures changes { CallsChangeTheirRow }
    ensures moves { ACallMovesItsAgent }
{
    blocks_go_on();
    trees_keep_their_blocks();
    calls_leave_other_rows();
    calls_change_their_row();
    a_call_moves_its_agent();
}

// Enters a call that ends a row, once its agent's pending calls are taken in.
fn enter_leave<D: Disk>(ledger: &mut Ledger<D>, call: ReadyCall)
    requires may { MayAnswer D.Disk ledger.old (told_entry (call_in call) reply.Done) call.sizes }
    requires word { leaves_row (machine_in ledger.old) call.agent call.op ≡ true }
    ensures order { IsInOrderThrough ledger.old call.agent call.op call.sizes }
    ensures told { (f : Fixed D) (recorded : Built) (base : State Text Own) (gone : List Text) (p : OpenPages) → AreHeldAt D.Disk f recorded base gone ledger.old p
        → IsAnswered D.Disk base gone ledger.old (told_entry (call_in call) reply.Done) call.sizes → HasTold D.Disk f recorded ledger.old ledger.new p (told_entry (call_in call) reply.Done) call.sizes }
{
    ledger.books.state.know_order();
    let reply = Reply::Done;
    tell_ready(ledger, call, reply);
    ledger.books.state.know_order();
}

/// Acts an abort of a stream, a discard of an access handle, or the close of a read-only one: its lock opens, and its pages go with
/// their blocks. Takes no memory, and calls no disk.
pub fn act_close_without_store<D: Disk>(
    parts: &mut DeskParts<D>,
    call: ReadyCall,
    pending: &mut Pending,
    work: &mut Work,
) -> Acted
    requires go { MayGo D.Disk parts.old call pending.old work.old [] }
    requires word { leaves_row (machine_in parts.old.ledger) call.agent call.op ≡ true }
    ensures acted { (f : Fixed D) (recorded : Built) → AreHeldWhole D.Disk f recorded parts.old.ledger parts.old.pages
        → IsAsked D.tells f.opening parts.old.ledger.books.history pending.old parts.old.ledger.books.state call work.old []
        → HasActed D.Disk f parts.old parts.new pending.old (call_in call) work.old work.new result }
    ensures taken { pending.new ≡ [] }
{
    leaving_laws::<D>();
    ending_laws();
    let agent = call.agent;
    let row = row_of(&call.op);
    take_in(&mut parts.ledger, agent, pending);
    let rows = parts.ledger.books.state.rows(agent) as u32;
    enter_leave(&mut parts.ledger, call);
    parts.pages.swap.drop_row(agent, row);
    Acted {
        reply: Reply::Done,
        gift: Gift::Nothing,
        rows,
    }
}
