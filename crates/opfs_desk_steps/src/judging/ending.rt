//! A call that ends what is open, or the agent: it is never refused, and takes no memory.

ghost use Rattle.std.specs.Prelude.{◌≡◌, ℕ, List, true};
ghost use Rattle.opfs_store.specs.Acts.Acting.{always_acts};
ghost use Rattle.opfs_store.specs.Acts.Asking.{MayAct};
ghost use Rattle.opfs_base.specs.Texts.{Text};
ghost use Rattle.opfs_books.specs.Laws.Books.{Fixed};
ghost use Rattle.opfs_desk_steps.specs.Judging.Asking.{MayAsk, IsReadied};
ghost use Rattle.opfs_desk_steps.specs.Parts.Held.{AreHeldWhole};
ghost use Rattle.opfs_desk_steps.specs.declared.parts.parts.OpenPages.{OpenPages};
ghost use Rattle.opfs_records.specs.Replay.Built.{Built};

use crate::judging::judged::Readiness;
use crate::judging::sizes::sizes_for;
use crate::parts::Ledger;
use opfs_books::state_laws;
use opfs_hist::{Op, Pending};
use opfs_laws::histories::unread::reads_leave_the_state;
use opfs_laws::lengths::bridge::{
    lengths_decide_each_ruling, lengths_follow_each_call, local_calls_are_known_by_their_word,
};
use opfs_outside::Disk;
use opfs_state::laws::judged::notes_decide_nothing;
use opfs_work::Work;

/// Whether a call is abort, discard or end.
pub(crate) fn always_acts(op: &Op) -> bool
    ensures { result ≡ always_acts op.now }
{
    matches!(op, Op::Abort { .. } | Op::Discard { .. } | Op::End)
}

/// Makes ready such a call as it stands after its agent's pending calls, which are taken in later. No unit is cleared for it.
pub(crate) fn ask_ending<D: Disk>(
    ledger: &mut Ledger<D>,
    agent: u32,
    op: &Op,
    pending: &Pending,
    work: &Work,
) -> Readiness
    requires may { MayAsk D.Disk ledger.old pending.now agent op.now work.now }
    requires word { always_acts op.now ≡ true }
    ensures journal { ledger.new.journal ≡ ledger.old.journal }
    ensures entries { ledger.new.books.history ≡ ledger.old.books.history }
    ensures place { ledger.new.books.place ≡ ledger.old.books.place }
    ensures held { (f : Fixed D) (recorded : Built) (p : OpenPages) → AreHeldWhole D.Disk f recorded ledger.old p → AreHeldWhole D.Disk f recorded ledger.new p }
    ensures asked { (f : Fixed D) (recorded : Built) (p : OpenPages) (number : ℕ) (past : List Text) → AreHeldWhole D.Disk f recorded ledger.old p
        → MayAct D.tells f.opening ledger.old.books.history pending.now (record { agent = agent; number = number; op = op.now }) work.now past
        → IsReadied f.opening ledger.old.books.history pending.now ledger.new.books.state agent op.now result }
{
    state_laws();
    reads_leave_the_state();
    lengths_decide_each_ruling();
    lengths_follow_each_call();
    local_calls_are_known_by_their_word();
    notes_decide_nothing();
    let alloc = ledger.alloc;
    let sizes = sizes_for(op, work);
    let clearing = Vec::new(alloc);
    match ledger.books.state.prepare(alloc, agent, op) {
        Ok(()) => Readiness { sizes, clearing },
        Err(_) => unreachable!(),
    }
}
