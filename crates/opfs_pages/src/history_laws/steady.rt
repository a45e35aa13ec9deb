// What the store's pages tell.
ghost use Rattle.std.specs.Prelude.{◌≡◌, ℕ, ◌<◌, List, [], ◌∷◌, ◌++◌, length};
ghost use Rattle.opfs_base.specs.Blocks.{blocks};
ghost use Rattle.opfs_base.specs.Texts.{Text};
ghost use Rattle.opfs_base.specs.declared.extents.Extent.{Extent};
ghost use Rattle.opfs_data.specs.Pages.{page_of};
ghost use Rattle.opfs_data.specs.Rows.{Rows, page_at};
ghost use Rattle.opfs_data.specs.Writes.{WriteList};
ghost use Rattle.opfs_pages.specs.Copies.{IsBegun};
ghost use Rattle.opfs_pages.specs.Stages.{Stage};
ghost use Rattle.opfs_pages.specs.HistoryLaws.Handles.{HandlesStayWhole};
ghost use Rattle.opfs_pages.specs.HistoryLaws.Laws.{PagesStayThere, PagesGoOnTelling, PagesAreLeft, CallsLeaveOtherRows};
ghost use Rattle.opfs_pages.specs.HistoryLaws.Laid.{AreLaid, IsLaidBeside, IsLaidInHand};
ghost use Rattle.opfs_pages.specs.HistoryLaws.Putting.{IsPutFromRow};
ghost use Rattle.opfs_pages.specs.HistoryLaws.Spaced.{Shelf, AreSpaced};
ghost use Rattle.opfs_hist.specs.declared.entry.Entry.{Entry};
ghost use Rattle.opfs_machine.specs.Openings.{Opening};
ghost use Rattle.opfs_space.specs.Room.{Machine};
ghost use Rattle.opfs_space.specs.Spaces.{SpaceSeen};

use opfs_outside::Disk;

/// The law of steady pages: they stay there, and begin as the rows' bytes, where entries settle no row but one, pages of
/// the others read as before, and all of that row's pages are there and begin as its bytes.
pub fn pages_go_on_telling()
    ensures there { PagesStayThere }
    ensures told { PagesGoOnTelling }
{}

/// The law of steady pages that are left: by pending calls, refused calls, disk faults, evictions and calls that have no row
/// in hand, and by reads and puts that failed.
pub fn pages_are_left()
    ensures { PagesAreLeft }
{}

/// The law of rows in hand: a call leaves all others, and settles none of them.
pub fn calls_leave_other_rows()
    ensures { CallsLeaveOtherRows }
{}

/// The law of a row whose pages were put: each of its pages begins as its bytes after the call.
pub fn pages_that_were_put_tell_the_row()
    ensures { (s : Stage) (w : WriteList) (extents : List Extent) (before after : Text) (base : ℕ) (c d : List ℕ) (mid new : Rows) (agent row pages i : ℕ) → IsPutFromRow s w extents before after base c d mid new agent row pages
        → i < pages → IsBegun after i (page_of d base (page_at agent row i new)) }
{}

/// The law of what is laid down: entries that settle no row leave it, and one whose call has a row in hand goes on with that
/// row's pages.
pub fn what_is_laid_goes_on<D: Disk>()
    ensures beside { (o : Opening) (h more : List Entry) (base : ℕ) (c d : List ℕ) (m t : Machine) (s r : Shelf) (old new : SpaceSeen) → IsLaidBeside D.tells o h more base c d m t s r → AreSpaced t r new
        → AreLaid D.tells o h base c m s old → AreLaid D.tells o (h ++ more) base d t r new }
    ensures in_hand { (o : Opening) (h : List Entry) (e : Entry) (base : ℕ) (c d : List ℕ) (m t : Machine) (s r : Shelf) (old new : SpaceSeen) → IsLaidInHand D.tells o h e base c d m t s r → AreSpaced t r new
        → AreLaid D.tells o h base c m s old → AreLaid D.tells o (h ++ e ∷ []) base d t r new }
{}

/// The law of access handles: only a handle's own calls change its file's bytes, so that each of its pages is steady.
pub fn handles_stay_whole()
    ensures { HandlesStayWhole }
{}
