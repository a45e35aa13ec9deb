//! A call from its words to its entry.

ghost use Rattle.std.specs.Option.{option_copied};
ghost use Rattle.std.specs.Prelude.{◌≡◌, true, [], IfOk, OnOk, OnErr, IsTrue, is_ok};
ghost use Rattle.opfs_store.specs.Acts.Acting.{IsSameCopy, always_acts};
ghost use Rattle.opfs_books.specs.Laws.Books.{Fixed};
ghost use Rattle.opfs_desk.specs.Dispatch.Calling.{HasNoneReady, IsCalled, IsLeftAlone, MayCall, MayCallFrom};
ghost use Rattle.opfs_desk_steps.specs.Parts.Acted.{HasActed};

use crate::dispatch::acting::act_by_kind;
use opfs_base::Name;
use opfs_desk_entries::act_refused;
use opfs_desk_steps::{DeskParts, Judged, Ledger, Readiness, ReadyCall, ask_call};
use opfs_hist::{Op, Pending, Room};
use opfs_outside::Disk;
use opfs_store::Acted;
use opfs_work::Work;
use std::alloc::AllocError;

/// Nothing stands ready any more.
pub(crate) fn cancel<D: Disk>(ledger: &mut Ledger<D>)
    ensures { HasNoneReady ledger.old ledger.new }
{
    ledger.books.state.cancel();
}

/// A shared call as it is asked: its agent, its number and its words, and the room for its entry.
pub struct AskedCall {
    pub agent: u32,
    pub number: u32,
    pub op: Op,
    pub room: Room,
}

/// Makes one shared call of an agent: judges it, takes in the agent's pending calls, clears units where it needs room, and enters it
/// with its reply. Where it is known up to which name a next's iterator has given all, that name is the last one. Where there is no
/// memory nothing is entered and nothing stands ready; abort, discard and end take none.
pub fn act_call<D: Disk>(
    parts: &mut DeskParts<D>,
    call: AskedCall,
    pending: &mut Pending,
    work: &mut Work,
    past: &[Name],
    last: Option<&Name>,
) -> Result<Acted, AllocError>
    requires may { MayCall D.Disk parts.old pending.old (record { agent = call.agent; number = call.number; op = call.op }) work.old past.now }
    requires given { MayCallFrom D.Disk parts.old pending.old (record { agent = call.agent; number = call.number; op = call.op }) work.old past.now (option_copied last) }
    ensures acted { IfOk result (λ acted. (f : Fixed D) → IsCalled D.Disk f parts.old pending.old (record { agent = call.agent; number = call.number; op = call.op }) work.old past.now
        → HasActed D.Disk f parts.old parts.new pending.old (record { agent = call.agent; number = call.number; op = call.op }) work.old work.new acted) }
    ensures taken { OnOk result (pending.new ≡ []) }
    ensures unacted { OnErr result ((pending.new ≡ pending.old) × IsSameCopy work.old work.new) }
    ensures alone { OnErr result ((f : Fixed D) → IsCalled D.Disk f parts.old pending.old (record { agent = call.agent; number = call.number; op = call.op }) work.old past.now → IsLeftAlone D.Disk f parts.old parts.new) }
    ensures ends { always_acts call.op ≡ true → IsTrue (is_ok result) }
{
    let AskedCall {
        agent,
        number,
        op,
        room,
    } = call;
    match ask_call(&mut parts.ledger, agent, &op, pending, work) {
        Ok(Judged::Refused(refusal)) => Ok(act_refused(
            parts, room, agent, number, op, refusal, pending,
        )),
        Ok(Judged::Ready(Readiness { sizes, clearing })) => {
            let call = ReadyCall {
                room,
                agent,
                number,
                op,
                sizes,
                clearing,
            };
            match act_by_kind(parts, call, pending, work, past, last) {
                Ok(acted) => Ok(acted),
                Err(error) => {
                    cancel(&mut parts.ledger);
                    Err(error)
                }
            }
        }
        Err(error) => {
            drop(op);
            Err(error)
        }
    }
}
