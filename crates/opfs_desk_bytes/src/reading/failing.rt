//! A call for which the disk was read, and failed.

ghost use Rattle.std.specs.Prelude.{◌≡◌, [], List};
ghost use Rattle.opfs_store.specs.Acts.Acting.{IsSameCopy};
ghost use Rattle.opfs_base.specs.Texts.{Text};
ghost use Rattle.opfs_books.specs.Laws.Books.{Fixed};
ghost use Rattle.opfs_desk_steps.specs.Parts.Acted.{HasActed};
ghost use Rattle.opfs_desk_steps.specs.Parts.Seen.{call_in};
ghost use Rattle.opfs_desk_steps.specs.declared.parts.parts.Ledger.{Ledger};
ghost use Rattle.opfs_desk_steps.specs.declared.parts.parts.OpenPages.{OpenPages};
ghost use Rattle.opfs_desk_bytes.specs.Reading.Reading.{HasFailedToRead, MayFailToRead};
ghost use Rattle.opfs_records.specs.Replay.Built.{Built};
ghost use Rattle.opfs_work.specs.Works.{WorkingCopy};

use opfs_books::{a_fault_is_counted, reads_leave_the_books, the_books_show_their_images};
use opfs_desk_steps::{
    CallParts, DeskParts, ReadyCall, asked_calls_are_ready, call_parts, calls_are_acted, fail_call,
    take_in,
};
use opfs_hist::{Pending, Refusal, Reply};
use opfs_outside::Disk;
use opfs_store::{Acted, Gift};

/// Enters a call for which the disk was read and failed: nothing of it was done. Calls no disk.
pub fn fail_reading<D: Disk>(
    parts: &mut DeskParts<D>,
    call: ReadyCall,
    pending: &mut Pending,
) -> Acted
    requires may { MayFailToRead D.Disk parts.old pending.old call }
    ensures taken { pending.new ≡ [] }
    ensures acted { (f : Fixed D) (recorded : Built) (start : Ledger D) (before first : OpenPages) (work after : WorkingCopy) (past : List Text)
        → HasFailedToRead D.Disk f recorded start parts.old.ledger before parts.old.pages pending.old call work past → IsSameCopy work after
        → HasActed D.Disk f (record { ledger = start; pages = first }) parts.new pending.old (call_in call) work after result }
{
    asked_calls_are_ready::<D>();
    calls_are_acted::<D>();
    a_fault_is_counted::<D>();
    reads_leave_the_books::<D>();
    the_books_show_their_images::<D>();
    let agent = call.agent;
    take_in(&mut parts.ledger, agent, pending);
    let rows = parts.ledger.books.state.rows(agent) as u32;
    let CallParts { last, .. } = call_parts(call, Reply::Done);
    fail_call(&mut parts.ledger, last);
    Acted {
        reply: Reply::No(Refusal::DiskFault),
        gift: Gift::Nothing,
        rows,
    }
}
