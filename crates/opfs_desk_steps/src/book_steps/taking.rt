//! Pending calls that are taken in.

ghost use Rattle.std.specs.Prelude.{◌≡◌, ◌++◌, []};
ghost use Rattle.opfs_books.specs.Laws.Books.{Fixed};
ghost use Rattle.opfs_books.specs.Laws.Laws.{told};
ghost use Rattle.opfs_desk_steps.specs.Parts.Acted.{IsWayNow};
ghost use Rattle.opfs_desk_steps.specs.Parts.Held.{AreHeldWhole};
ghost use Rattle.opfs_desk_steps.specs.Parts.Seen.{tree_in, book_in};
ghost use Rattle.opfs_desk_steps.specs.declared.parts.parts.OpenPages.{OpenPages};
ghost use Rattle.opfs_desk_steps.specs.BookSteps.Taking.{MayTakeInto};
ghost use Rattle.opfs_hist.specs.declared.op.Op.{Op};
ghost use Rattle.opfs_laws.specs.Histories.Unread.{ArePendingFor};
ghost use Rattle.opfs_machine.specs.Histories.{state_after};
ghost use Rattle.opfs_records.specs.Replay.Built.{Built};
ghost use Rattle.opfs_state.specs.Applied.{IsPrepared};

use crate::parts::Ledger;
use opfs_books::{the_books_show_their_images, the_state_is_kept};
use opfs_hist::Pending;
use opfs_laws::lengths::bridge::{lengths_follow_each_call, local_calls_are_known_by_their_word};
use opfs_outside::Disk;
use opfs_pages::{blocks_go_on, what_is_laid_goes_on};
use opfs_state::laws::readied::what_is_ready_stays_as_calls_are_noted;

/// Takes in an agent's pending calls. Takes no memory, and calls no disk.
pub fn take_in<D: Disk>(ledger: &mut Ledger<D>, agent: u32, pending: &mut Pending)
    requires may { MayTakeInto D.Disk ledger.old agent pending.old }
    ensures taken { pending.new ≡ [] }
    ensures journal { ledger.new.journal ≡ ledger.old.journal }
    ensures entries { ledger.new.books.history ≡ ledger.old.books.history ++ pending.old }
    ensures tree { tree_in ledger.new ≡ tree_in ledger.old }
    ensures place { ledger.new.books.place ≡ ledger.old.books.place }
    ensures prepared { (op : Op) → IsPrepared ledger.old.books.state agent op → IsPrepared ledger.new.books.state agent op }
    ensures held { (f : Fixed D) (recorded : Built) (p : OpenPages) → AreHeldWhole D.Disk f recorded ledger.old p → ArePendingFor D.tells (state_after f.opening ledger.old.books.history) agent pending.old
        → AreHeldWhole D.Disk f recorded ledger.new p }
    ensures way { (f : Fixed D) (recorded : Built) (p : OpenPages) → AreHeldWhole D.Disk f recorded ledger.old p → ArePendingFor D.tells (state_after f.opening ledger.old.books.history) agent pending.old
        → IsWayNow D.Disk f ledger.old ledger.new × (told f (book_in ledger.new) ≡ told f (book_in ledger.old)) }
{
    what_is_laid_goes_on::<D>();
    blocks_go_on();
    lengths_follow_each_call();
    local_calls_are_known_by_their_word();
    the_books_show_their_images::<D>();
    the_state_is_kept::<D>();
    what_is_ready_stays_as_calls_are_noted();
    ledger.books.take_in(&ledger.journal, agent, pending);
}
