//! The entering of calls that only tell: they store nothing, make no row and no mode, and use no pages of a row.

ghost use Rattle.std.specs.Prelude.{◌≡◌, ◌++◌, [], List};
ghost use Rattle.opfs_store.specs.Acts.Acting.{IsGift};
ghost use Rattle.opfs_store.specs.declared.acts.acted.Gift.{Gift};
ghost use Rattle.opfs_base.specs.Texts.{Text};
ghost use Rattle.opfs_books.specs.Laws.Books.{Fixed};
ghost use Rattle.opfs_books.specs.Laws.Laws.{BooksShowTheirImages};
ghost use Rattle.opfs_pages.specs.HistoryLaws.Laws.{BlocksGoOn};
ghost use Rattle.opfs_desk_steps.specs.Parts.Acted.{HasActed};
ghost use Rattle.opfs_desk_steps.specs.Parts.Held.{AreHeldWhole};
ghost use Rattle.opfs_desk_steps.specs.Parts.Seen.{call_in};
ghost use Rattle.opfs_desk_entries.specs.Answers.Silent.{told_act};
ghost use Rattle.opfs_desk_entries.specs.Answers.Telling.{IsTelling, MayTell};
ghost use Rattle.opfs_desk_steps.specs.RowLaws.InHand.{RowsInHandAreLaid};
ghost use Rattle.opfs_desk_steps.specs.Acting.{CallsAreActed};
ghost use Rattle.opfs_desk_steps.specs.Answering.{ReadyCallsAreAnswered};
ghost use Rattle.opfs_desk_steps.specs.Ready.{AskedCallsAreReady};
ghost use Rattle.opfs_laws.specs.Lengths.Bridge.{LengthsDecideEachRuling, LengthsFollowEachCall, LocalCallsAreKnownByTheirWord};
ghost use Rattle.opfs_machine.specs.Histories.{state_after};
ghost use Rattle.opfs_records.specs.Replay.Built.{Built};
ghost use Rattle.opfs_state.specs.Laws.Readied.{StaysReadyAsNoted};
ghost use Rattle.opfs_work.specs.Works.{WorkingCopy};

use opfs_books::the_books_show_their_images;
use opfs_desk_steps::{
    DeskParts, ReadyCall, asked_calls_are_ready, calls_are_acted, ready_calls_are_answered,
    rows_in_hand_are_laid, take_in, tell_ready,
};
use opfs_hist::{Pending, Reply};
use opfs_laws::lengths::bridge::{
    lengths_decide_each_ruling, lengths_follow_each_call, local_calls_are_known_by_their_word,
};
use opfs_outside::Disk;
use opfs_pages::blocks_go_on;
use opfs_state::laws::readied::what_is_ready_stays_as_calls_are_noted;

/// What is known of the steps of such a call.
pub fn telling_laws<D: Disk>()
    ensures asks { AskedCallsAreReady D.Disk }
    ensures answers { ReadyCallsAreAnswered D.Disk }
    ensures acts { CallsAreActed D.Disk }
    ensures rows { RowsInHandAreLaid D.Disk }
    ensures blocks { BlocksGoOn }
    ensures shown { BooksShowTheirImages D.Disk }
    ensures decide { LengthsDecideEachRuling }
    ensures follow { LengthsFollowEachCall }
    ensures local { LocalCallsAreKnownByTheirWord }
    ensures noted { StaysReadyAsNoted }
{
    asked_calls_are_ready::<D>();
    ready_calls_are_answered::<D>();
    calls_are_acted::<D>();
    rows_in_hand_are_laid::<D>();
    blocks_go_on();
    the_books_show_their_images::<D>();
    lengths_decide_each_ruling();
    lengths_follow_each_call();
    local_calls_are_known_by_their_word();
    what_is_ready_stays_as_calls_are_noted();
}

/// Takes in an agent's pending calls, and enters its call, which only tells, with this reply; gives how many rows the agent has
/// made. Takes no memory, and calls no disk.
pub fn tell<D: Disk>(
    parts: &mut DeskParts<D>,
    call: ReadyCall,
    pending: &mut Pending,
    reply: Reply,
) -> u32
    requires may { MayTell D.Disk parts.old call pending.old reply }
    ensures taken { pending.new ≡ [] }
    ensures acted { (f : Fixed D) (recorded : Built) (work : WorkingCopy) (past : List Text) (gift : Gift) → AreHeldWhole D.Disk f recorded parts.old.ledger parts.old.pages
        → IsTelling D.tells f.opening parts.old.ledger.books.history pending.old parts.old.ledger.books.state call work past reply
        → IsGift D.tells (state_after f.opening (parts.old.ledger.books.history ++ pending.old)) call.op reply gift
        → HasActed D.Disk f parts.old parts.new pending.old (call_in call) work work (told_act reply gift result) }
{
    telling_laws::<D>();
    let agent = call.agent;
    take_in(&mut parts.ledger, agent, pending);
    let rows = parts.ledger.books.state.rows(agent) as u32;
    tell_ready(&mut parts.ledger, call, reply);
    rows
}
