//! What is left of a row whose content was stored.

ghost use Rattle.std.specs.Prelude.{◌≡◌, ◌<◌, ◌^◌, Some, length, IsTrue};
ghost use Rattle.opfs_blocks.specs.Sets.{blocks_of, AreBelow};
ghost use Rattle.opfs_desk_contents.specs.Commits.Steps.{IsFlushed, LeavesRow, space_left};
ghost use Rattle.opfs_tree.specs.Rows.{file_at as file_in_tree};
ghost use Rattle.opfs_tree.specs.declared.row.FileRow.{FileRow as FileSeen};

use opfs_base::Extent;
use opfs_desk_steps::OpenPages;
use opfs_machine::Place;
use opfs_pages::after_flush;
use opfs_space::Space;
use opfs_state::State;
use opfs_tree::FileRow;
use opfs_work::Work;

/// A row that is left: whether it ends, and whether it alone was open on its file.
#[derive(Clone, Copy)]
pub(crate) struct Leaving {
    pub agent: u32,
    pub row: u32,
    pub ends: bool,
    pub alone: bool,
}

// Blocks of files with more bytes wait for a sweep: giving so many back takes as long.
const MOST: u64 = 4 << 20;

// Whether one row at most is open on a file that is small.
fn has_one_row(file: &FileRow) -> bool
    ensures { IsTrue result → file.now.lock.1 < 2 }
{
    if file.length > MOST {
        return false;
    }
    file.lock.count() < 2
}

/// Whether one row at most is open on the file at a place, and the file is small enough for its blocks to be given back.
pub(crate) fn is_alone(state: &State, place: &Place) -> bool
    ensures { IsTrue result → (file : FileSeen) → file_in_tree place.now state.now.store.tree ≡ Some file → file.lock.1 < 2 }
{
    match state.file(&place.0, &place.1) {
        Some(file) => has_one_row(file),
        None => false,
    }
}

// Leaves the working copy of a row whose pages the store has: its pages may go, and nothing is reserved.
fn flush_copy(work: &mut Work)
    requires end { work.old.length < 2 ^ 63 }
    ensures { IsFlushed work.old work.new }
{
    let _pages = work.pages();
    after_flush(work);
    let _pages = work.pages();
}

// The blocks of a file whose content is in these runs now: no page has them alone, and the old ones are free where the row was
// alone.
fn leave_blocks(space: &mut Space, gone: &[Extent], runs: &[Extent], alone: bool)
    requires gone { AreBelow (length space.old.used) (blocks_of gone.now) }
    requires below { AreBelow (length space.old.used) (blocks_of runs.now) }
    ensures { space.new ≡ space_left alone gone.now runs.now space.old }
{
    space.hold(runs);
    if !alone {
        return;
    }
    space.give_back(gone, runs);
}

/// Leaves a row whose content was stored in these runs: they are its file's now, in place of those that are gone. A row that ends
/// goes with its pages, another keeps them, as its file's. Takes no memory.
pub(crate) fn leave_row(
    pages: &mut OpenPages,
    gone: &[Extent],
    runs: &[Extent],
    leaving: Leaving,
    work: &mut Work,
)
    requires gone { AreBelow (length pages.old.space.used) (blocks_of gone.now) }
    requires below { AreBelow (length pages.old.space.used) (blocks_of runs.now) }
    requires end { work.old.length < 2 ^ 63 }
    ensures { LeavesRow pages.old pages.new leaving.agent leaving.row leaving.alone gone.now runs.now leaving.ends work.old work.new }
{
    leave_blocks(&mut pages.space, gone, runs, leaving.alone);
    if leaving.ends {
        pages.swap.drop_row(leaving.agent, leaving.row);
        return;
    }
    flush_copy(work);
}
