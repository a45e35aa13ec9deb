//! A call for which all stands ready, acted by its kind.

ghost use Rattle.std.specs.Option.{option_copied};
ghost use Rattle.std.specs.Prelude.{◌≡◌, true, [], IfOk, OnOk, OnErr, IsTrue, is_ok};
ghost use Rattle.opfs_store.specs.Acts.Acting.{IsSameCopy, always_acts};
ghost use Rattle.opfs_books.specs.Laws.Books.{Fixed};
ghost use Rattle.opfs_pages.specs.HistoryLaws.Handles.{AreHandlesWhole};
ghost use Rattle.opfs_desk_steps.specs.Parts.Acted.{HasActed, IsUnacted};
ghost use Rattle.opfs_desk_steps.specs.Parts.Asked.{IsAsked, MayGo};
ghost use Rattle.opfs_desk_steps.specs.Parts.Held.{AreHeldWhole};
ghost use Rattle.opfs_desk_steps.specs.Parts.Seen.{call_in};
ghost use Rattle.opfs_desk_entries.specs.Answers.Next.{MayGoFrom};
ghost use Rattle.opfs_desk_bytes.specs.Reading.Reading.{HaveWholeHandles};
ghost use Rattle.opfs_desk_steps.specs.Ready.{AskedCallsAreReady};
ghost use Rattle.opfs_laws.specs.Lengths.Bridge.{LengthsFollowEachCall, LocalCallsAreKnownByTheirWord};
ghost use Rattle.opfs_records.specs.Replay.Built.{Built};

use crate::dispatch::kinds::{CallKind, kind_of};
use opfs_base::Name;
use opfs_desk_bytes::{act_get_file, act_open, act_put, act_sync_read};
use opfs_desk_contents::{act_content, act_idle_flush};
use opfs_desk_entries::{
    act_close_without_store, act_done, act_estimate, act_keep_back, act_next, act_persist,
    act_persisted,
};
use opfs_desk_steps::{DeskParts, ReadyCall, asked_calls_are_ready};
use opfs_hist::Pending;
use opfs_laws::lengths::bridge::{lengths_follow_each_call, local_calls_are_known_by_their_word};
use opfs_outside::Disk;
use opfs_store::Acted;
use opfs_work::Work;
use std::alloc::AllocError;

// What is known of a call that is asked for.
fn asking_laws<D: Disk>()
    ensures asks { AskedCallsAreReady D.Disk }
    ensures follow { LengthsFollowEachCall }
    ensures local { LocalCallsAreKnownByTheirWord }
{
    asked_calls_are_ready::<D>();
    lengths_follow_each_call();
    local_calls_are_known_by_their_word();
}

/// Acts a call that is not refused, and for which all of the shared state stands ready: takes in its agent's pending calls, clears
/// its units, and enters it. Where there is no memory nothing is entered; abort, discard and end take none.
pub fn act_by_kind<D: Disk>(
    parts: &mut DeskParts<D>,
    call: ReadyCall,
    pending: &mut Pending,
    work: &mut Work,
    past: &[Name],
    last: Option<&Name>,
) -> Result<Acted, AllocError>
    requires go { MayGo D.Disk parts.old call pending.old work.old past.now }
    requires given { MayGoFrom D.Disk parts.old call pending.old work.old past.now (option_copied last) }
    requires whole { HaveWholeHandles D.Disk parts.old }
    ensures acted { IfOk result (λ acted. (f : Fixed D) (recorded : Built) → AreHeldWhole D.Disk f recorded parts.old.ledger parts.old.pages → AreHandlesWhole f.opening parts.old.ledger.books.history
        → IsAsked D.tells f.opening parts.old.ledger.books.history pending.old parts.old.ledger.books.state call work.old past.now
        → HasActed D.Disk f parts.old parts.new pending.old (call_in call) work.old work.new acted) }
    ensures taken { OnOk result (pending.new ≡ []) }
    ensures unacted { OnErr result ((pending.new ≡ pending.old) × IsSameCopy work.old work.new) }
    ensures idle { OnErr result ((f : Fixed D) (recorded : Built) → AreHeldWhole D.Disk f recorded parts.old.ledger parts.old.pages → IsUnacted D.Disk f parts.old parts.new) }
    ensures ends { always_acts call.op ≡ true → IsTrue (is_ok result) }
{
    asking_laws::<D>();
    let kind = kind_of(&parts.ledger.books.state, call.agent, &call.op);
    match kind {
        CallKind::Told => Ok(act_done(parts, call, pending, work)),
        CallKind::Persisted => Ok(act_persisted(parts, call, pending, work)?),
        CallKind::Given => Ok(act_persist(parts, call, pending, work)?),
        CallKind::Next => Ok(act_next(parts, call, pending, work, past, last)?),
        CallKind::Estimate => Ok(act_estimate(parts, call, pending, work)),
        CallKind::Kept => Ok(act_keep_back(parts, call, pending, work)?),
        CallKind::GetFile => Ok(act_get_file(parts, call, pending, work)?),
        CallKind::Opened => Ok(act_open(parts, call, pending, work)?),
        CallKind::Put => Ok(act_put(parts, call, pending, work)?),
        CallKind::SyncRead => Ok(act_sync_read(parts, call, pending, work)?),
        CallKind::Stored => Ok(act_content(parts, call, pending, work)?),
        CallKind::Idle => Ok(act_idle_flush(parts, call, pending, work)?),
        CallKind::Left => Ok(act_close_without_store(parts, call, pending, work)),
    }
}
