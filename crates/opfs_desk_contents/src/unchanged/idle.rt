//! The flush of an access handle that may not write.

ghost use Rattle.std.specs.Prelude.{◌≡◌, [], List, true, IfOk, OnOk, OnErr};
ghost use Rattle.opfs_store.specs.Acts.Acting.{IsSameCopy, told_entry};
ghost use Rattle.opfs_base.specs.Texts.{Text};
ghost use Rattle.opfs_books.specs.Laws.Books.{Fixed};
ghost use Rattle.opfs_desk_contents.specs.Words.{flushes_nothing};
ghost use Rattle.opfs_desk_entries.specs.Releases.Leaving.{IsInOrderThrough};
ghost use Rattle.opfs_pages.specs.HistoryLaws.Handles.{AreHandlesWhole};
ghost use Rattle.opfs_desk_steps.specs.Parts.Acted.{HasActed, IsUnacted};
ghost use Rattle.opfs_desk_steps.specs.Parts.Answered.{IsAnswered, MayAnswer};
ghost use Rattle.opfs_desk_steps.specs.Parts.Asked.{IsAsked, MayGo};
ghost use Rattle.opfs_desk_steps.specs.Parts.Held.{AreHeldAt, AreHeldWhole};
ghost use Rattle.opfs_desk_steps.specs.Parts.Seen.{machine_in, call_in};
ghost use Rattle.opfs_desk_steps.specs.declared.parts.parts.OpenPages.{OpenPages};
ghost use Rattle.opfs_desk_bytes.specs.Reading.Reading.{HaveWholeHandles};
ghost use Rattle.opfs_desk_steps.specs.Going.{HasTold};
ghost use Rattle.opfs_hist.specs.declared.reply.Reply.TheVariants as reply;
ghost use Rattle.opfs_machine.specs.declared.own.Own.{Own};
ghost use Rattle.opfs_machine.specs.declared.state.State.{State};
ghost use Rattle.opfs_records.specs.Replay.Built.{Built};

use crate::unchanged::laws::{calling_laws, saving_laws};
use opfs_desk_steps::{DeskParts, Ledger, ReadyCall, take_in, tell_ready};
use opfs_hist::{Pending, Reply};
use opfs_outside::Disk;
use opfs_store::{Acted, Gift};
use opfs_work::Work;
use std::alloc::AllocError;

// Enters the call, once its agent's pending calls are taken in.
fn enter_idle<D: Disk>(ledger: &mut Ledger<D>, call: ReadyCall)
    requires may { MayAnswer D.Disk ledger.old (told_entry (call_in call) reply.Done) call.sizes }
    requires word { flushes_nothing (machine_in ledger.old) call.agent call.op ≡ true }
    ensures order { IsInOrderThrough ledger.old call.agent call.op call.sizes }
    ensures told { (f : Fixed D) (recorded : Built) (base : State Text Own) (gone : List Text) (p : OpenPages) → AreHeldAt D.Disk f recorded base gone ledger.old p
        → IsAnswered D.Disk base gone ledger.old (told_entry (call_in call) reply.Done) call.sizes → HasTold D.Disk f recorded ledger.old ledger.new p (told_entry (call_in call) reply.Done) call.sizes }
{
    ledger.books.state.know_order();
    let reply = Reply::Done;
    tell_ready(ledger, call, reply);
    ledger.books.state.know_order();
}

/// Acts the flush of a read-only access handle, which stores nothing: the row stays with its pages. Takes no memory, and calls no disk.
pub fn act_idle_flush<D: Disk>(
    parts: &mut DeskParts<D>,
    call: ReadyCall,
    pending: &mut Pending,
    work: &mut Work,
) -> Result<Acted, AllocError>
    requires go { MayGo D.Disk parts.old call pending.old work.old [] }
    requires whole { HaveWholeHandles D.Disk parts.old }
    requires word { flushes_nothing (machine_in parts.old.ledger) call.agent call.op ≡ true }
    ensures acted { IfOk result (λ acted. (f : Fixed D) (recorded : Built) → AreHeldWhole D.Disk f recorded parts.old.ledger parts.old.pages → AreHandlesWhole f.opening parts.old.ledger.books.history
        → IsAsked D.tells f.opening parts.old.ledger.books.history pending.old parts.old.ledger.books.state call work.old []
        → HasActed D.Disk f parts.old parts.new pending.old (call_in call) work.old work.new acted) }
    ensures taken { OnOk result (pending.new ≡ []) }
    ensures unacted { OnErr result ((pending.new ≡ pending.old) × IsSameCopy work.old work.new) }
    ensures idle { OnErr result ((f : Fixed D) (recorded : Built) → AreHeldWhole D.Disk f recorded parts.old.ledger parts.old.pages → IsUnacted D.Disk f parts.old parts.new) }
{
    calling_laws::<D>();
    saving_laws::<D>();
    let agent = call.agent;
    take_in(&mut parts.ledger, agent, pending);
    let rows = parts.ledger.books.state.rows(agent) as u32;
    enter_idle(&mut parts.ledger, call);
    let _pages = work.pages();
    Ok(Acted {
        reply: Reply::Done,
        gift: Gift::Nothing,
        rows,
    })
}
