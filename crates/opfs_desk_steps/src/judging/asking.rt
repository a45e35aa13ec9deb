//! A call that is judged, and made ready.

ghost use Rattle.std.specs.Prelude.{◌≡◌, ℕ, List, None, IfOk, OnErr, IsTrue, is_ok, true};
ghost use Rattle.opfs_store.specs.Acts.Acting.{always_acts};
ghost use Rattle.opfs_store.specs.Acts.Asking.{MayAct};
ghost use Rattle.opfs_base.specs.Texts.{Text};
ghost use Rattle.opfs_books.specs.Laws.Books.{Fixed};
ghost use Rattle.opfs_desk_steps.specs.Judging.Asking.{MayAsk, IsAskedAs};
ghost use Rattle.opfs_desk_steps.specs.Parts.Held.{AreHeldWhole};
ghost use Rattle.opfs_desk_steps.specs.declared.parts.parts.OpenPages.{OpenPages};
ghost use Rattle.opfs_records.specs.Replay.Built.{Built};

use crate::judging::clearings::clearings_for;
use crate::judging::ending::{always_acts, ask_ending};
use crate::judging::judged::{Judged, Readiness};
use crate::judging::sizes::sizes_for;
use crate::parts::Ledger;
use opfs_books::state_laws;
use opfs_hist::{Op, Pending};
use opfs_laws::histories::unread::reads_leave_the_state;
use opfs_laws::lengths::bridge::{
    lengths_decide_each_ruling, lengths_follow_each_call, local_calls_are_known_by_their_word,
};
use opfs_outside::Disk;
use opfs_state::laws::judged::notes_decide_nothing;
use opfs_state::laws::room::calls_are_about_own_units;
use opfs_work::Work;
use std::alloc::AllocError;

/// Judges a call as it stands after its agent's pending calls, which are taken in later; and takes the memory for the units that are
/// cleared for it, and for what it needs of the shared state. Nothing is entered, and no disk is called. Where there is no memory
/// nothing stands ready; abort, discard and end take none.
pub fn ask_call<D: Disk>(
    ledger: &mut Ledger<D>,
    agent: u32,
    op: &Op,
    pending: &Pending,
    work: &Work,
) -> Result<Judged, AllocError>
    requires may { MayAsk D.Disk ledger.old pending.now agent op.now work.now }
    ensures journal { ledger.new.journal ≡ ledger.old.journal }
    ensures entries { ledger.new.books.history ≡ ledger.old.books.history }
    ensures place { ledger.new.books.place ≡ ledger.old.books.place }
    ensures held { (f : Fixed D) (recorded : Built) (p : OpenPages) → AreHeldWhole D.Disk f recorded ledger.old p → AreHeldWhole D.Disk f recorded ledger.new p }
    ensures asked { IfOk result (λ asked. (f : Fixed D) (recorded : Built) (p : OpenPages) (number : ℕ) (past : List Text) → AreHeldWhole D.Disk f recorded ledger.old p
        → MayAct D.tells f.opening ledger.old.books.history pending.now (record { agent = agent; number = number; op = op.now }) work.now past
        → IsAskedAs f.opening ledger.old.books.history pending.now ledger.new.books.state agent op.now asked) }
    ensures idle { OnErr result (ledger.new.books.state.store.prepared.place ≡ None) }
    ensures ends { always_acts op.now ≡ true → IsTrue (is_ok result) }
{
    state_laws();
    reads_leave_the_state();
    lengths_decide_each_ruling();
    lengths_follow_each_call();
    local_calls_are_known_by_their_word();
    notes_decide_nothing();
    calls_are_about_own_units();
    if always_acts(op) {
        return Ok(Judged::Ready(ask_ending(ledger, agent, op, pending, work)));
    }
    let alloc = ledger.alloc;
    let sizes = sizes_for(op, work);
    match ledger.books.state.judge(alloc, agent, op, sizes)? {
        Ok(units) => {
            let clearing = clearings_for(alloc, units.as_slice())?;
            ledger.books.state.prepare(alloc, agent, op)?;
            Ok(Judged::Ready(Readiness { sizes, clearing }))
        }
        Err(refusal) => Ok(Judged::Refused(refusal)),
    }
}
