//! The calls that store a row's content.

ghost use Rattle.std.specs.Prelude.{◌≡◌, [], true, IfOk, OnOk, OnErr};
ghost use Rattle.opfs_store.specs.Acts.Acting.{IsSameCopy};
ghost use Rattle.opfs_books.specs.Laws.Books.{Fixed};
ghost use Rattle.opfs_books.specs.Laws.Commits.{StateLaws};
ghost use Rattle.opfs_desk_contents.specs.Words.{stores_row};
ghost use Rattle.opfs_pages.specs.HistoryLaws.Handles.{AreHandlesWhole};
ghost use Rattle.opfs_desk_steps.specs.Parts.Acted.{HasActed, IsUnacted};
ghost use Rattle.opfs_desk_steps.specs.Parts.Asked.{IsAsked, MayGo};
ghost use Rattle.opfs_desk_steps.specs.Parts.Held.{AreHeldWhole};
ghost use Rattle.opfs_desk_steps.specs.Parts.Seen.{machine_in, call_in};
ghost use Rattle.opfs_desk_bytes.specs.Reading.Reading.{HaveWholeHandles};
ghost use Rattle.opfs_desk_steps.specs.Ready.{AskedCallsAreReady};
ghost use Rattle.opfs_laws.specs.GoingOn.{LegalHistoriesGoOn};
ghost use Rattle.opfs_laws.specs.Lengths.Bridge.{LengthsFollowEachCall, LocalCallsAreKnownByTheirWord};
ghost use Rattle.opfs_records.specs.Replay.Built.{Built};

use crate::commits::pages::act_pages;
use crate::unchanged::act_store_same_blocks;
use opfs_books::state_laws;
use opfs_desk_steps::{DeskParts, ReadyCall, asked_calls_are_ready};
use opfs_hist::Pending;
use opfs_laws::going_on::legal_histories_go_on;
use opfs_laws::lengths::bridge::{lengths_follow_each_call, local_calls_are_known_by_their_word};
use opfs_outside::Disk;
use opfs_store::Acted;
use opfs_work::Work;
use std::alloc::AllocError;

// What is known of the row that such a call names.
fn going_laws<D: Disk>()
    ensures asks { AskedCallsAreReady D.Disk }
    ensures goes_on { LegalHistoriesGoOn }
    ensures states { StateLaws }
    ensures follow { LengthsFollowEachCall }
    ensures local { LocalCallsAreKnownByTheirWord }
{
    asked_calls_are_ready::<D>();
    legal_histories_go_on();
    state_laws();
    lengths_follow_each_call();
    local_calls_are_known_by_their_word();
}

/// Acts a call that stores a row's content: the close of a stream, and the flush and the close of an access handle that may write.
/// Where the disk fails, the entry tells so, and the row stays open with its bytes.
pub fn act_content<D: Disk>(
    parts: &mut DeskParts<D>,
    call: ReadyCall,
    pending: &mut Pending,
    work: &mut Work,
) -> Result<Acted, AllocError>
    requires go { MayGo D.Disk parts.old call pending.old work.old [] }
    requires whole { HaveWholeHandles D.Disk parts.old }
    requires word { stores_row (machine_in parts.old.ledger) call.agent call.op ≡ true }
    ensures acted { IfOk result (λ acted. (f : Fixed D) (recorded : Built) → AreHeldWhole D.Disk f recorded parts.old.ledger parts.old.pages → AreHandlesWhole f.opening parts.old.ledger.books.history
        → IsAsked D.tells f.opening parts.old.ledger.books.history pending.old parts.old.ledger.books.state call work.old []
        → HasActed D.Disk f parts.old parts.new pending.old (call_in call) work.old work.new acted) }
    ensures taken { OnOk result (pending.new ≡ []) }
    ensures unacted { OnErr result ((pending.new ≡ pending.old) × IsSameCopy work.old work.new) }
    ensures idle { OnErr result ((f : Fixed D) (recorded : Built) → AreHeldWhole D.Disk f recorded parts.old.ledger parts.old.pages → IsUnacted D.Disk f parts.old parts.new) }
{
    going_laws::<D>();
    if work.pages() > work.reserve() {
        let acted = act_store_same_blocks(parts, call, pending, work)?;
        return Ok(acted);
    }
    let acted = act_pages(parts, call, pending, work)?;
    Ok(acted)
}
