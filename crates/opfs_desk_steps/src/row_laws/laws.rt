//! Laws of pages and blocks over the parts.

ghost use Rattle.opfs_desk_steps.specs.RowLaws.Copied.{PagesTellAfterPending, CopiesAreStored};
ghost use Rattle.opfs_desk_steps.specs.RowLaws.InHand.{RowsInHandAreLaid};
ghost use Rattle.opfs_desk_steps.specs.RowLaws.Inside.{PartsLieInside};
ghost use Rattle.opfs_desk_steps.specs.RowLaws.OpenCopies.{OpenedCopiesStand};
ghost use Rattle.opfs_desk_steps.specs.RowLaws.Opening.{OpenedRowsAreLaid};
ghost use Rattle.opfs_desk_steps.specs.RowLaws.Opens.{CallsOpenRows};
ghost use Rattle.opfs_desk_steps.specs.RowLaws.Puts.{PutsHaveRoom, TreesNameStoredBlocks};
ghost use Rattle.opfs_desk_steps.specs.RowLaws.Stored.{FilesAreStored, HistoriesAreCleared};

use opfs_books::{commit_laws, state_laws, the_state_is_kept};
use opfs_laws::lengths::bridge::{lengths_follow_each_call, local_calls_are_known_by_their_word};
use opfs_laws::stored::changes_build_the_durable_part;
use opfs_outside::Disk;
use opfs_pages::{
    blocks_go_on, blocks_tell_a_file, calls_change_their_row, calls_leave_other_rows,
    copies_stand_for_their_row, pages_are_left, trees_keep_their_blocks, what_is_laid_goes_on,
};

/// The data part lies on the disk, and all blocks of files and pages lie in it.
pub fn parts_lie_inside<D: Disk>()
    ensures { PartsLieInside D.Disk }
{
    state_laws();
}

/// The store has what a working copy says that it has: each page of it that is elsewhere is there, and begins as the row's.
/// What pages tell is known after an agent's pending calls too.
pub fn copies_are_stored<D: Disk>()
    ensures pages { PagesTellAfterPending D.Disk }
    ensures copies { CopiesAreStored D.Disk }
{
    state_laws();
    pages_are_left();
    lengths_follow_each_call();
    local_calls_are_known_by_their_word();
}

/// The tree has each file of the state, with blocks enough for its stored bytes; where the disk tells, these have them.
pub fn files_are_stored<D: Disk>()
    ensures files { FilesAreStored D.Disk }
    ensures between { HistoriesAreCleared D.Disk }
{
    commit_laws::<D>();
    changes_build_the_durable_part();
}

/// Once a call has put or dropped the pages of the row that it has in hand, and left those of the others, all is laid down again.
pub fn rows_in_hand_are_laid<D: Disk>()
    ensures { RowsInHandAreLaid D.Disk }
{
    calls_leave_other_rows();
    the_state_is_kept::<D>();
    what_is_laid_goes_on::<D>();
}

/// A row that a call opens with the blocks of its file is laid down: its pages begin as its bytes.
pub fn opened_rows_are_laid<D: Disk>()
    ensures { OpenedRowsAreLaid D.Disk }
{
    blocks_go_on();
    blocks_tell_a_file();
    calls_leave_other_rows();
    rows_in_hand_are_laid::<D>();
}

/// createWritable and createSyncAccessHandle leave their row open over the blocks of its file, which have its bytes; a working
/// copy whose pages are all elsewhere stands for it.
pub fn calls_open_rows<D: Disk>()
    ensures rows { CallsOpenRows D.Disk }
    ensures copies { OpenedCopiesStand D.Disk }
{
    state_laws();
    the_state_is_kept::<D>();
    copies_stand_for_their_row::<D>();
    calls_change_their_row();
    trees_keep_their_blocks();
    files_are_stored::<D>();
}

/// A write or a new size of an open row has room for the blocks of all its pages; and the tree names as many blocks as the
/// machine's files are stored in.
pub fn puts_have_room()
    ensures room { PutsHaveRoom }
    ensures named { TreesNameStoredBlocks }
{}
