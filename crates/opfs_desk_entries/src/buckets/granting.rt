//! A persist that makes its agent's bucket persistent.

ghost use Rattle.std.specs.Prelude.{◌≡◌, true, [], IfOk, OnOk, OnErr};
ghost use Rattle.opfs_store.specs.Acts.Acting.{IsSameCopy};
ghost use Rattle.opfs_books.specs.Stored.Laws.{CallsAreSpelled, CallsMayFail};
ghost use Rattle.opfs_books.specs.Laws.Books.{Fixed};
ghost use Rattle.opfs_books.specs.Laws.Laws.{BooksKeepTheState, BooksShowTheirImages};
ghost use Rattle.opfs_desk_entries.specs.Buckets.Granting.{gives_mode};
ghost use Rattle.opfs_pages.specs.HistoryLaws.Laws.{BlocksGoOn};
ghost use Rattle.opfs_desk_steps.specs.Parts.Acted.{HasActed, IsUnacted};
ghost use Rattle.opfs_desk_steps.specs.Parts.Asked.{IsAsked, MayGo};
ghost use Rattle.opfs_desk_steps.specs.Parts.Held.{AreHeldWhole};
ghost use Rattle.opfs_desk_steps.specs.Parts.Seen.{machine_in, call_in};
ghost use Rattle.opfs_desk_steps.specs.Acting.{CallsAreActed};
ghost use Rattle.opfs_desk_steps.specs.Answering.{ReadyCallsAreAnswered};
ghost use Rattle.opfs_desk_steps.specs.Ready.{AskedCallsAreReady};
ghost use Rattle.opfs_laws.specs.Histories.Unread.{ReadsLeaveTheState};
ghost use Rattle.opfs_laws.specs.Counting.{AStateCountsItsHistory};
ghost use Rattle.opfs_laws.specs.Lengths.Bridge.{LengthsFollowEachCall, LocalCallsAreKnownByTheirWord};
ghost use Rattle.opfs_records.specs.Replay.Built.{Built};

use crate::buckets::entering::{enter_mode, unit_in};
use opfs_books::{
    calls_are_spelled, calls_may_fail, the_books_show_their_images, the_state_is_kept,
};
use opfs_desk_steps::{
    DeskParts, ReadyCall, asked_calls_are_ready, calls_are_acted, evict_for,
    ready_calls_are_answered, take_in,
};
use opfs_hist::{Pending, Refusal, Reply};
use opfs_laws::counted::a_state_counts_its_history;
use opfs_laws::histories::unread::reads_leave_the_state;
use opfs_laws::lengths::bridge::{lengths_follow_each_call, local_calls_are_known_by_their_word};
use opfs_outside::Disk;
use opfs_pages::{blocks_go_on, what_is_laid_goes_on};
use opfs_store::{Acted, Gift};
use opfs_work::Work;
use std::alloc::AllocError;

// What is known of the steps of such a call.
fn granting_laws<D: Disk>()
    ensures asks { AskedCallsAreReady D.Disk }
    ensures answers { ReadyCallsAreAnswered D.Disk }
    ensures acts { CallsAreActed D.Disk }
    ensures shown { BooksShowTheirImages D.Disk }
    ensures states { BooksKeepTheState D.Disk }
    ensures spelled { CallsAreSpelled }
    ensures fails { CallsMayFail D.tells }
    ensures blocks { BlocksGoOn }
    ensures follow { LengthsFollowEachCall }
    ensures local { LocalCallsAreKnownByTheirWord }
    ensures reads { ReadsLeaveTheState }
    ensures counts { AStateCountsItsHistory }
{
    asked_calls_are_ready::<D>();
    ready_calls_are_answered::<D>();
    calls_are_acted::<D>();
    the_books_show_their_images::<D>();
    the_state_is_kept::<D>();
    calls_are_spelled();
    calls_may_fail::<D>();
    blocks_go_on();
    lengths_follow_each_call();
    local_calls_are_known_by_their_word();
    reads_leave_the_state();
    a_state_counts_its_history();
}

/// Acts a persist of an agent with the grant, whose bucket is not persistent yet. Its change is kept back, and no disk is called for
/// it; the 64th is committed with those that are kept back. A doubt is ended first. Where there is no memory nothing is entered.
pub fn act_persist<D: Disk>(
    parts: &mut DeskParts<D>,
    call: ReadyCall,
    pending: &mut Pending,
    work: &mut Work,
) -> Result<Acted, AllocError>
    requires go { MayGo D.Disk parts.old call pending.old work.old [] }
    requires word { gives_mode (machine_in parts.old.ledger) call.agent call.op ≡ true }
    ensures acted { IfOk result (λ acted. (f : Fixed D) (recorded : Built) → AreHeldWhole D.Disk f recorded parts.old.ledger parts.old.pages
        → IsAsked D.tells f.opening parts.old.ledger.books.history pending.old parts.old.ledger.books.state call work.old []
        → HasActed D.Disk f parts.old parts.new pending.old (call_in call) work.old work.new acted) }
    ensures taken { OnOk result (pending.new ≡ []) }
    ensures unacted { OnErr result ((pending.new ≡ pending.old) × IsSameCopy work.old work.new) }
    ensures idle { OnErr result ((f : Fixed D) (recorded : Built) → AreHeldWhole D.Disk f recorded parts.old.ledger parts.old.pages → IsUnacted D.Disk f parts.old parts.new) }
{
    granting_laws::<D>();
    what_is_laid_goes_on::<D>();
    let agent = call.agent;
    let key = parts.ledger.books.state.key(agent);
    let Ok(unit) = unit_in(parts.ledger.alloc, key, &call.op) else {
        drop(call);
        return Err(AllocError);
    };
    take_in(&mut parts.ledger, agent, pending);
    let rows = parts.ledger.books.state.rows(agent) as u32;
    match evict_for(&mut parts.ledger, call, Reply::Flag(true)) {
        Ok((last, sizes)) => match enter_mode(&mut parts.ledger, last, sizes, &unit) {
            Ok(()) => Ok(Acted {
                reply: Reply::Flag(true),
                gift: Gift::Nothing,
                rows,
            }),
            Err(_) => Ok(Acted {
                reply: Reply::No(Refusal::DiskFault),
                gift: Gift::Nothing,
                rows,
            }),
        },
        Err(_) => Ok(Acted {
            reply: Reply::No(Refusal::DiskFault),
            gift: Gift::Nothing,
            rows,
        }),
    }
}
