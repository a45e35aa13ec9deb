//! The entering of a call that stores nothing.

ghost use Rattle.std.specs.Prelude.{◌≡◌, false, List, None};
ghost use Rattle.opfs_store.specs.Acts.Acting.{told_entry};
ghost use Rattle.opfs_base.specs.Texts.{Text};
ghost use Rattle.opfs_books.specs.Stored.Spelled.{spelled_by};
ghost use Rattle.opfs_books.specs.Laws.Books.{Fixed};
ghost use Rattle.opfs_state_rows.specs.Changes.Changed.{tree_by};
ghost use Rattle.opfs_desk_steps.specs.Parts.Answered.{IsAnswered, MayAnswer};
ghost use Rattle.opfs_desk_steps.specs.Parts.Held.{AreHeldAt};
ghost use Rattle.opfs_desk_steps.specs.Parts.Seen.{machine_in, tree_in, call_in};
ghost use Rattle.opfs_desk_steps.specs.declared.parts.parts.OpenPages.{OpenPages};
ghost use Rattle.opfs_desk_steps.specs.Going.{HasTold};
ghost use Rattle.opfs_machine.specs.declared.own.Own.{Own};
ghost use Rattle.opfs_machine.specs.declared.state.State.{State};
ghost use Rattle.opfs_machine.specs.Steps.{is_refusal};
ghost use Rattle.opfs_records.specs.Replay.Built.{Built};

use crate::apart::{CallParts, call_parts};
use crate::parts::{Ledger, ReadyCall};
use opfs_books::{Entering, EntryWithRoom, calls_are_spelled, the_state_is_kept};
use opfs_hist::Reply;
use opfs_machine::Sizes;
use opfs_outside::Disk;

/// Enters a call that is answered and stores nothing; each file keeps its blocks. The pages are the caller's.
pub fn tell_last<D: Disk>(ledger: &mut Ledger<D>, last: EntryWithRoom, sizes: Sizes)
    requires may { MayAnswer D.Disk ledger.old last.entry sizes }
    requires answered { is_refusal last.entry.reply ≡ false }
    requires silent { spelled_by (machine_in ledger.old) (tree_in ledger.old) last.entry.agent last.entry.op sizes None ≡ None }
    ensures journal { ledger.new.journal ≡ ledger.old.journal }
    ensures tree { tree_in ledger.new ≡ tree_by (machine_in ledger.old) (tree_in ledger.old) last.entry.agent last.entry.op sizes None }
    ensures told { (f : Fixed D) (recorded : Built) (base : State Text Own) (gone : List Text) (p : OpenPages) → AreHeldAt D.Disk f recorded base gone ledger.old p → IsAnswered D.Disk base gone ledger.old last.entry sizes
        → HasTold D.Disk f recorded ledger.old ledger.new p last.entry sizes }
{
    the_state_is_kept::<D>();
    calls_are_spelled();
    ledger.books.state.know_rows_match_tree();
    ledger.freed.clear();
    ledger.books.tell(
        ledger.alloc,
        &ledger.journal,
        Entering {
            last,
            sizes,
            extents: None,
        },
        &mut ledger.freed,
    );
}

/// Enters a call for which all stands ready, and for which no unit is cleared, so.
pub fn tell_ready<D: Disk>(ledger: &mut Ledger<D>, call: ReadyCall, reply: Reply)
    requires may { MayAnswer D.Disk ledger.old (told_entry (call_in call) reply) call.sizes }
    requires answered { is_refusal reply ≡ false }
    requires silent { spelled_by (machine_in ledger.old) (tree_in ledger.old) call.agent call.op call.sizes None ≡ None }
    ensures tree { tree_in ledger.new ≡ tree_by (machine_in ledger.old) (tree_in ledger.old) call.agent call.op call.sizes None }
    ensures told { (f : Fixed D) (recorded : Built) (base : State Text Own) (gone : List Text) (p : OpenPages) → AreHeldAt D.Disk f recorded base gone ledger.old p
        → IsAnswered D.Disk base gone ledger.old (told_entry (call_in call) reply) call.sizes → HasTold D.Disk f recorded ledger.old ledger.new p (told_entry (call_in call) reply) call.sizes }
{
    let CallParts { last, sizes, .. } = call_parts(call, reply);
    tell_last(ledger, last, sizes);
}
