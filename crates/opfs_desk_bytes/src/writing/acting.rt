//! A call that puts bytes into a row, once its pages are planned.

ghost use Rattle.std.specs.Prelude.{◌≡◌, true, [], List, if◌then◌else◌};
ghost use Rattle.opfs_books.specs.Stored.Laws.{CallsAreSpelled};
ghost use Rattle.opfs_books.specs.Laws.Books.{Fixed};
ghost use Rattle.opfs_pages.specs.HistoryLaws.Laws.{BlocksGoOn, CallsLeaveOtherRows, TreesKeepBlocks};
ghost use Rattle.opfs_pages.specs.HistoryLaws.RowsAfter.{CallsChangeTheirRow};
ghost use Rattle.opfs_desk_steps.specs.Parts.Acted.{HasActed};
ghost use Rattle.opfs_desk_steps.specs.Parts.Asked.{IsAsked, MayGo};
ghost use Rattle.opfs_desk_steps.specs.Parts.Held.{AreHeldWhole};
ghost use Rattle.opfs_desk_steps.specs.Parts.Seen.{call_in};
ghost use Rattle.opfs_desk_bytes.specs.Writing.Plans.{IsPlan};
ghost use Rattle.opfs_desk_bytes.specs.Writing.Steps.{IsPlannedFor};
ghost use Rattle.opfs_desk_bytes.specs.Writing.Words.{bytes_put};
ghost use Rattle.opfs_desk_steps.specs.RowLaws.InHand.{RowsInHandAreLaid};
ghost use Rattle.opfs_desk_steps.specs.RowLaws.Inside.{PartsLieInside};
ghost use Rattle.opfs_desk_steps.specs.RowLaws.Puts.{PutsHaveRoom, puts_row};
ghost use Rattle.opfs_desk_steps.specs.Acting.{CallsAreActed, failed_act};
ghost use Rattle.opfs_desk_steps.specs.Answering.{ReadyCallsAreAnswered};
ghost use Rattle.opfs_desk_steps.specs.Ready.{AskedCallsAreReady};
ghost use Rattle.opfs_hist.specs.declared.reply.Reply.TheVariants as reply;
ghost use Rattle.opfs_records.specs.Replay.Built.{Built};

use crate::writing::entering::enter_put;
use crate::writing::leaving::leave_put;
use crate::writing::target::Target;
use opfs_books::calls_are_spelled;
use opfs_desk_steps::{
    DeskParts, ReadyCall, asked_calls_are_ready, calls_are_acted, evict_for, parts_lie_inside,
    puts_have_room, ready_calls_are_answered, rows_in_hand_are_laid, take_in,
};
use opfs_hist::{Pending, Refusal, Reply};
use opfs_outside::Disk;
use opfs_pages::{
    Planned, blocks_go_on, calls_change_their_row, calls_leave_other_rows, trees_keep_their_blocks,
};
use opfs_store::{Acted, Gift};
use opfs_work::Work;

// Done, or how many bytes there were.
fn reply_of(counts: bool, len: u64) -> Reply
    ensures { result ≡ (if counts then reply.Length len else reply.Done) }
{
    if counts {
        return Reply::Length(len);
    }
    Reply::Done
}

// The call after the disk failed in it.
fn faulted(rows: u32) -> Acted
    ensures { result ≡ failed_act rows }
{
    Acted {
        reply: Reply::No(Refusal::DiskFault),
        gift: Gift::Nothing,
        rows,
    }
}

// What is known of the steps of such a call.
fn putting_laws<D: Disk>()
    ensures asks { AskedCallsAreReady D.Disk }
    ensures answers { ReadyCallsAreAnswered D.Disk }
    ensures acts { CallsAreActed D.Disk }
    ensures laid { RowsInHandAreLaid D.Disk }
    ensures inside { PartsLieInside D.Disk }
    ensures spelled { CallsAreSpelled }
    ensures changes { CallsChangeTheirRow }
    ensures others { CallsLeaveOtherRows }
    ensures spaces { BlocksGoOn }
    ensures trees { TreesKeepBlocks }
    ensures room { PutsHaveRoom }
{
    asked_calls_are_ready::<D>();
    ready_calls_are_answered::<D>();
    calls_are_acted::<D>();
    rows_in_hand_are_laid::<D>();
    parts_lie_inside::<D>();
    calls_are_spelled();
    calls_change_their_row();
    calls_leave_other_rows();
    blocks_go_on();
    trees_keep_their_blocks();
    puts_have_room();
}

/// Acts a call whose pages are planned: its agent's pending calls are taken in, its units are cleared, its pages are put, and it is
/// entered. Where the disk fails it is entered so. Takes no memory.
pub(crate) fn enter_call<D: Disk>(
    parts: &mut DeskParts<D>,
    call: ReadyCall,
    target: Target,
    planned: Planned,
    given: &[u8],
    pending: &mut Pending,
    work: &mut Work,
) -> Acted
    requires go { MayGo D.Disk parts.old call pending.old work.old [] }
    requires word { puts_row call.op ≡ true }
    requires given { given.now ≡ bytes_put call.op }
    requires plan { IsPlan D.Disk parts.old call work.old target planned.put planned.page.items }
    requires planned { IsPlannedFor D.Disk parts.old pending.old call work.old planned.put planned.page.items }
    ensures taken { pending.new ≡ [] }
    ensures acted { (f : Fixed D) (recorded : Built) → AreHeldWhole D.Disk f recorded parts.old.ledger parts.old.pages
        → IsAsked D.tells f.opening parts.old.ledger.books.history pending.old parts.old.ledger.books.state call work.old []
        → HasActed D.Disk f parts.old parts.new pending.old (call_in call) work.old work.new result }
{
    putting_laws::<D>();
    let agent = call.agent;
    take_in(&mut parts.ledger, agent, pending);
    let rows = parts.ledger.books.state.rows(agent) as u32;
    let Planned { mut put, page } = planned;
    let len = given.len() as u64;
    let Ok((last, sizes)) = evict_for(&mut parts.ledger, call, reply_of(target.counts, len)) else {
        return faulted(rows);
    };
    parts.ledger.books.state.know_rows_match_tree();
    match enter_put(parts, &mut put, given, target.row, last, sizes) {
        Ok(()) => {
            leave_put(work, target, len, page.as_slice());
            Acted {
                reply: reply_of(target.counts, len),
                gift: Gift::Nothing,
                rows,
            }
        }
        Err(_) => faulted(rows),
    }
}
