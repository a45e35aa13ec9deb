//! A call is entered with what it makes or removes.

ghost use Rattle.std.specs.Prelude.{◌≡◌, List, true, false, OnOk, OnErr};
ghost use Rattle.std.specs.Str.{is_utf8};
ghost use Rattle.opfs_base.specs.Texts.{Text};
ghost use Rattle.opfs_books.specs.Laws.Books.{Fixed};
ghost use Rattle.opfs_desk_entries.specs.KeptBack.Changing.{HasChanged, HasNotChanged};
ghost use Rattle.opfs_desk_entries.specs.KeptBack.Keeping.{keeps_back, entry_name, entry_place, HasOwnKey};
ghost use Rattle.opfs_desk_entries.specs.KeptBack.Steps.{change_now};
ghost use Rattle.opfs_desk_steps.specs.Parts.Answered.{IsAnswered, MayAnswer};
ghost use Rattle.opfs_desk_steps.specs.Parts.Held.{AreHeldAt};
ghost use Rattle.opfs_desk_steps.specs.Parts.Seen.{machine_in, tree_in};
ghost use Rattle.opfs_desk_steps.specs.declared.parts.parts.OpenPages.{OpenPages};
ghost use Rattle.opfs_desk_steps.specs.Going.{IsTidy};
ghost use Rattle.opfs_hist.specs.declared.reply.Reply.TheVariants as reply;
ghost use Rattle.opfs_machine.specs.declared.own.Own.{Own};
ghost use Rattle.opfs_machine.specs.declared.state.State.{State};
ghost use Rattle.opfs_machine.specs.Agents.{agent_of};
ghost use Rattle.opfs_records.specs.Replay.Built.{Built};
ghost use Rattle.opfs_tree.specs.Rows.{IsInOrder};

use crate::kept_back::entering::enter_change;
use crate::kept_back::spelling::spelled;
use opfs_books::{Entering, EntryWithRoom};
use opfs_desk_steps::Ledger;
use opfs_journal::DiskFault;
use opfs_machine::{Place, Sizes};
use opfs_outside::Disk;

/// Enters a call with what it makes or removes.
pub(crate) fn enter_kept<D: Disk>(
    ledger: &mut Ledger<D>,
    last: EntryWithRoom,
    sizes: Sizes,
    place: &Place,
) -> Result<(), DiskFault>
    requires may { MayAnswer D.Disk ledger.old last.entry sizes }
    requires word { keeps_back (machine_in ledger.old) last.entry.agent last.entry.op ≡ true }
    requires done { last.entry.reply ≡ reply.Done }
    requires place { place.now ≡ entry_place (agent_of (machine_in ledger.old) last.entry.agent).key last.entry.op }
    requires keys { HasOwnKey (agent_of (machine_in ledger.old) last.entry.agent).key }
    requires text { is_utf8 (entry_name last.entry.op) ≡ true }
    requires settled { ledger.old.journal.in_doubt ≡ false }
    ensures tidy { IsTidy ledger.old }
    ensures order { OnOk result (IsInOrder (tree_in ledger.new)) }
    ensures done { OnOk result ((f : Fixed D) (recorded : Built) (base : State Text Own) (gone : List Text) (p : OpenPages) → AreHeldAt D.Disk f recorded base gone ledger.old p → IsAnswered D.Disk base gone ledger.old last.entry sizes
        → HasChanged D.Disk f recorded base gone ledger.old ledger.new p last.entry sizes (change_now ledger.old last.entry)) }
    ensures failed { OnErr result ((f : Fixed D) (recorded : Built) (base : State Text Own) (gone : List Text) (p : OpenPages) → AreHeldAt D.Disk f recorded base gone ledger.old p → IsAnswered D.Disk base gone ledger.old last.entry sizes
        → HasNotChanged D.Disk f recorded base gone ledger.old ledger.new p last.entry (change_now ledger.old last.entry)) }
{
    ledger.books.state.know_rows_match_tree();
    ledger.books.state.know_order();
    let moment = ledger.books.state.moment(last.entry.agent);
    let own = spelled(&last.entry.op, place, moment);
    let extents = None;
    let entering = Entering {
        last,
        sizes,
        extents,
    };
    match enter_change(ledger, &own, entering) {
        Ok(()) => {
            ledger.books.state.know_order();
            Ok(())
        }
        Err(fault) => Err(fault),
    }
}
