// The rows that calls name or make, and the working copies that they leave.
ghost use Rattle.std.specs.Prelude.{◌≡◌, ℕ, List, [], ◌∷◌, ◌++◌};
ghost use Rattle.opfs_store.specs.Copies.Copies.{StandsFor, IsPaged};
ghost use Rattle.opfs_hist.specs.declared.entry.Entry.{Entry};
ghost use Rattle.opfs_machine.specs.declared.own.HandleRow.{HandleRow};
ghost use Rattle.opfs_machine.specs.declared.own.StreamRow.{StreamRow};
ghost use Rattle.opfs_machine.specs.declared.own.Own.TheVariants as own;
ghost use Rattle.opfs_machine.specs.Histories.{state_after};
ghost use Rattle.opfs_machine.specs.Openings.{Opening};
ghost use Rattle.opfs_work.specs.Works.{WorkingCopy};
ghost use Rattle.opfs_pages.specs.HistoryLaws.Copies.{HasLeftRow, IsStreamCopy, IsHandleCopy};
ghost use Rattle.opfs_pages.specs.HistoryLaws.RowsAfter.{CallsChangeTheirRow};

use opfs_outside::Disk;

/// The law of rows: what each call leaves of the row that it names or makes.
pub fn calls_change_their_row()
    ensures { CallsChangeTheirRow }
{}

/// The law of working copies that calls leave: one with the row's size, position, reserve and bytes stands for it, whatever its
/// pages are.
pub fn copies_stand_for_their_row<D: Disk>()
    ensures stream { (o : Opening) (h : List Entry) (e : Entry) (n : ℕ) (w : StreamRow) (work : WorkingCopy) → HasLeftRow o h e n (own.Stream w) → IsPaged work → IsStreamCopy D.tells w work → StandsFor D.tells o (h ++ e ∷ []) e.agent n work }
    ensures handle { (o : Opening) (h : List Entry) (e : Entry) (n : ℕ) (r : HandleRow) (work : WorkingCopy) → HasLeftRow o h e n (own.Handle r) → IsPaged work → IsHandleCopy D.tells (state_after o (h ++ e ∷ [])) r work
        → StandsFor D.tells o (h ++ e ∷ []) e.agent n work }
{}
