//! Calls that are entered with their change, which is no content.

ghost use Rattle.std.specs.Prelude.{◌≡◌, ◌<◌, ◌++◌, ◌∷◌, [], List, Some, None, false, OnOk, OnErr};
ghost use Rattle.opfs_base.specs.Texts.{Text};
ghost use Rattle.opfs_books.specs.Stored.Spelled.{spelled_by};
ghost use Rattle.opfs_books.specs.Laws.Books.{Fixed, AreBooks};
ghost use Rattle.opfs_books.specs.Seen.{MayStore};
ghost use Rattle.opfs_state_rows.specs.Changes.Changed.{tree_by};
ghost use Rattle.opfs_codec.specs.Fields.{plain, Fits};
ghost use Rattle.opfs_commit.specs.Seen.{with_kept, IsQuiet};
ghost use Rattle.opfs_desk_entries.specs.KeptBack.Changing.{HasChanged, HasNotChanged};
ghost use Rattle.opfs_desk_steps.specs.Parts.Answered.{IsAnswered};
ghost use Rattle.opfs_desk_steps.specs.Parts.Held.{AreTied, AreHeldAt};
ghost use Rattle.opfs_desk_steps.specs.Parts.Seen.{machine_in, tree_in, book_in};
ghost use Rattle.opfs_desk_steps.specs.declared.parts.parts.OpenPages.{OpenPages};
ghost use Rattle.opfs_desk_steps.specs.BookSteps.Entering.{MayStoreCall};
ghost use Rattle.opfs_machine.specs.declared.own.Own.{Own};
ghost use Rattle.opfs_machine.specs.declared.state.State.{State};
ghost use Rattle.opfs_machine.specs.Agents.{counted};
ghost use Rattle.opfs_machine.specs.Contents.{in_lengths};
ghost use Rattle.opfs_machine.specs.Effects.{effect};
ghost use Rattle.opfs_machine.specs.Steps.{is_refusal};
ghost use Rattle.opfs_records.specs.Replay.Built.{Built};

use opfs_books::{Entering, the_books_show_their_images, the_state_is_kept};
use opfs_codec::ChangeRef;
use opfs_desk_steps::{Ledger, store_call};
use opfs_journal::DiskFault;
use opfs_outside::Disk;

/// Enters a call whose change is kept back, where fewer than 63 are. Calls no disk. The pages are the caller's.
pub fn keep_call<D: Disk>(ledger: &mut Ledger<D>, own: &ChangeRef<'_>, entering: Entering)
    requires may { MayStoreCall D.Disk ledger.old entering.last.entry entering.sizes (plain own.now) }
    requires answered { is_refusal entering.last.entry.reply ≡ false }
    requires spelled { spelled_by (machine_in ledger.old) (tree_in ledger.old) entering.last.entry.agent entering.last.entry.op entering.sizes entering.extents ≡ Some (plain own.now) }
    requires quiet { IsQuiet (plain own.now) }
    requires fits { Fits (plain own.now) }
    requires settled { ledger.old.journal.in_doubt ≡ false }
    requires few { ledger.old.books.commits.count < 63 }
    ensures journal { ledger.new.journal ≡ ledger.old.journal }
    ensures entries { ledger.new.books.history ≡ ledger.old.books.history ++ entering.last.entry ∷ [] }
    ensures machine { machine_in ledger.new ≡ counted (effect in_lengths (machine_in ledger.old) entering.sizes entering.last.entry.agent entering.last.entry.op) entering.last.entry.agent }
    ensures tree { tree_in ledger.new ≡ tree_by (machine_in ledger.old) (tree_in ledger.old) entering.last.entry.agent entering.last.entry.op entering.sizes entering.extents }
    ensures idle { ledger.new.books.state.store.prepared.place ≡ None }
    ensures kept { ledger.new.books.commits ≡ with_kept ledger.old.books.commits (plain own.now) }
    ensures books { (f : Fixed D) (recorded : Built) (base : State Text Own) (gone : List Text) (p : OpenPages) → AreHeldAt D.Disk f recorded base gone ledger.old p → IsAnswered D.Disk base gone ledger.old entering.last.entry entering.sizes
        → MayStore f (book_in ledger.old) (plain own.now) → AreBooks D.Disk f recorded (book_in ledger.new) ledger.new.journal }
    ensures tied { (f : Fixed D) (p : OpenPages) → AreTied D.Disk f ledger.old p → AreTied D.Disk f ledger.new p }
{
    the_state_is_kept::<D>();
    ledger.freed.clear();
    ledger.books.keep(
        ledger.alloc,
        &ledger.journal,
        own,
        entering,
        &mut ledger.freed,
    );
}

/// Enters a call with its change: it is kept back, or is committed with 63 that are. Where the disk fails, the call is entered so.
pub fn enter_change<D: Disk>(
    ledger: &mut Ledger<D>,
    own: &ChangeRef<'_>,
    entering: Entering,
) -> Result<(), DiskFault>
    requires may { MayStoreCall D.Disk ledger.old entering.last.entry entering.sizes (plain own.now) }
    requires answered { is_refusal entering.last.entry.reply ≡ false }
    requires spelled { spelled_by (machine_in ledger.old) (tree_in ledger.old) entering.last.entry.agent entering.last.entry.op entering.sizes entering.extents ≡ Some (plain own.now) }
    requires none { entering.extents ≡ None }
    requires quiet { IsQuiet (plain own.now) }
    requires fits { Fits (plain own.now) }
    requires settled { ledger.old.journal.in_doubt ≡ false }
    ensures done { OnOk result ((f : Fixed D) (recorded : Built) (base : State Text Own) (gone : List Text) (p : OpenPages) → AreHeldAt D.Disk f recorded base gone ledger.old p → IsAnswered D.Disk base gone ledger.old entering.last.entry entering.sizes
        → MayStore f (book_in ledger.old) (plain own.now) → HasChanged D.Disk f recorded base gone ledger.old ledger.new p entering.last.entry entering.sizes (plain own.now)) }
    ensures failed { OnErr result ((f : Fixed D) (recorded : Built) (base : State Text Own) (gone : List Text) (p : OpenPages) → AreHeldAt D.Disk f recorded base gone ledger.old p → IsAnswered D.Disk base gone ledger.old entering.last.entry entering.sizes
        → MayStore f (book_in ledger.old) (plain own.now) → HasNotChanged D.Disk f recorded base gone ledger.old ledger.new p entering.last.entry (plain own.now)) }
{
    the_books_show_their_images::<D>();
    if ledger.books.commits.count() < 63 {
        keep_call(ledger, own, entering);
        return Ok(());
    }
    match store_call(ledger, own, entering) {
        Ok(()) => Ok(()),
        Err(fault) => Err(fault),
    }
}
