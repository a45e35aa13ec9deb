//! Calls that are refused, and calls in which the disk failed.

ghost use Rattle.std.specs.Prelude.{◌≡◌, ◌++◌, ◌∷◌, [], List, None};
ghost use Rattle.opfs_base.specs.Texts.{Text};
ghost use Rattle.opfs_books.specs.Laws.Books.{Fixed};
ghost use Rattle.opfs_books.specs.Laws.Laws.{failed};
ghost use Rattle.opfs_desk_steps.specs.Parts.Held.{AreHeldAt, AreHeldWhole};
ghost use Rattle.opfs_desk_steps.specs.Parts.Seen.{tree_in};
ghost use Rattle.opfs_desk_steps.specs.declared.parts.parts.OpenPages.{OpenPages};
ghost use Rattle.opfs_desk_steps.specs.BookSteps.Refusing.{IsRefused, MayRefuse};
ghost use Rattle.opfs_machine.specs.declared.own.Own.{Own};
ghost use Rattle.opfs_machine.specs.declared.state.State.{State};
ghost use Rattle.opfs_records.specs.Replay.Built.{Built};

use crate::parts::Ledger;
use opfs_books::{EntryWithRoom, the_state_is_kept};
use opfs_hist::{Entry, Refusal, Reply};
use opfs_laws::steady::settling::only_its_own_calls_settle_a_row;
use opfs_outside::Disk;
use opfs_pages::{blocks_go_on, what_is_laid_goes_on};

/// Enters a call that is refused. Calls no disk.
pub fn refuse_call<D: Disk>(ledger: &mut Ledger<D>, last: EntryWithRoom)
    requires may { MayRefuse D.Disk ledger.old last.entry }
    ensures journal { ledger.new.journal ≡ ledger.old.journal }
    ensures entries { ledger.new.books.history ≡ ledger.old.books.history ++ last.entry ∷ [] }
    ensures tree { tree_in ledger.new ≡ tree_in ledger.old }
    ensures idle { ledger.new.books.state.store.prepared.place ≡ None }
    ensures held { (f : Fixed D) (recorded : Built) (base : State Text Own) (gone : List Text) (p : OpenPages) → AreHeldAt D.Disk f recorded base gone ledger.old p → IsRefused D.Disk f base gone ledger.old last.entry
        → AreHeldWhole D.Disk f recorded ledger.new p }
{
    what_is_laid_goes_on::<D>();
    blocks_go_on();
    only_its_own_calls_settle_a_row();
    the_state_is_kept::<D>();
    ledger.books.refuse(ledger.alloc, &ledger.journal, last);
}

/// The entry of a call in which the disk failed.
fn with_fault(last: EntryWithRoom) -> EntryWithRoom
    ensures { result.entry ≡ failed last.entry }
{
    let EntryWithRoom { room, entry } = last;
    let Entry {
        agent,
        number,
        op,
        reply,
        turn,
    } = entry;
    drop(reply);
    let reply = Reply::No(Refusal::DiskFault);
    EntryWithRoom {
        room,
        entry: Entry {
            agent,
            number,
            op,
            reply,
            turn,
        },
    }
}

/// Enters a call in which the disk failed before its own change. Calls no disk.
pub fn fail_call<D: Disk>(ledger: &mut Ledger<D>, last: EntryWithRoom)
    requires may { MayRefuse D.Disk ledger.old (failed last.entry) }
    ensures journal { ledger.new.journal ≡ ledger.old.journal }
    ensures entries { ledger.new.books.history ≡ ledger.old.books.history ++ failed last.entry ∷ [] }
    ensures tree { tree_in ledger.new ≡ tree_in ledger.old }
    ensures idle { ledger.new.books.state.store.prepared.place ≡ None }
    ensures held { (f : Fixed D) (recorded : Built) (base : State Text Own) (gone : List Text) (p : OpenPages) → AreHeldAt D.Disk f recorded base gone ledger.old p → IsRefused D.Disk f base gone ledger.old (failed last.entry)
        → AreHeldWhole D.Disk f recorded ledger.new p }
{
    refuse_call(ledger, with_fault(last));
}
