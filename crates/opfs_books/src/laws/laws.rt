//! How the books are kept by what is entered, written and read.

ghost use Rattle.opfs_books.specs.Laws.Commits.{CommitLaws, StateLaws};
ghost use Rattle.opfs_books.specs.Laws.Laws.{TellsKeepTheBooks, PendingKeepsTheBooks, SettlingKeepsTheBooks, UnsettledKeepsTheBooks, SettlingShows, KeepingBackKeepsTheBooks};
ghost use Rattle.opfs_books.specs.Laws.Laws.{CommittedCallsKeepTheBooks, CommittedEvictionsKeepTheBooks, FailedCommitsKeepTheBooks, CommitsShow, CommittedAloneKeepsTheBooks, FailedAloneKeepsTheBooks, AloneShows};
ghost use Rattle.opfs_books.specs.Laws.Laws.{ReadsKeepTheBooks, PagesKeepTheBooks, BooksShowTheirImages, BooksStandAtRest, BooksStandAtAContent, BooksKeepTheState, FaultsAreCounted};

use opfs_commit::{
    a_change_is_kept_back, a_doubt_ends, a_run_begins_with_its_image, a_trail_grows,
    an_image_shows_a_front, changes_go_through_filling, other_calls_leave_the_images,
    records_are_to_be_stored, records_are_written, the_rows_hold_what_was_told,
};
use opfs_laws::counted::a_state_counts_its_history;
use opfs_laws::going_on::the_machine_never_faults;
use opfs_laws::lengths::kept::lengths_are_kept;
use opfs_laws::whole::what_every_reached_state_keeps;
use opfs_outside::Disk;

/// The laws of commits, together.
pub fn commit_laws<D: Disk>()
    ensures { D.tells → CommitLaws D.Disk }
{
    an_image_shows_a_front::<D>();
    records_are_written::<D>();
    a_doubt_ends::<D>();
    a_change_is_kept_back::<D>();
    records_are_to_be_stored::<D>();
    a_run_begins_with_its_image::<D>();
    the_rows_hold_what_was_told::<D>();
    other_calls_leave_the_images::<D>();
    a_trail_grows::<D>();
    changes_go_through_filling();
}

/// The laws of states, together.
pub fn state_laws()
    ensures { StateLaws }
{
    what_every_reached_state_keeps();
    a_state_counts_its_history();
    lengths_are_kept();
    the_machine_never_faults();
}

/// An entry that stores nothing keeps the books, and so do pending calls.
pub fn telling_keeps_the_books<D: Disk>()
    ensures entry { TellsKeepTheBooks D.Disk }
    ensures pending { PendingKeepsTheBooks D.Disk }
{
    state_laws();
}

/// The end of a doubt keeps the books, and so does one that failed. What the images show in it.
pub fn settling_keeps_the_books<D: Disk>()
    ensures settled { SettlingKeepsTheBooks D.Disk }
    ensures unsettled { UnsettledKeepsTheBooks D.Disk }
    ensures shown { SettlingShows D.Disk }
{
    commit_laws::<D>();
}

/// A change that is kept back keeps the books.
pub fn keeping_back_keeps_the_books<D: Disk>()
    ensures { KeepingBackKeepsTheBooks D.Disk }
{
    commit_laws::<D>();
    state_laws();
}

/// A commit keeps the books, with the entry of its call or its eviction, and so does one that failed, with the entry of the
/// call in which the disk failed. What the images show in it.
pub fn commits_keep_the_books<D: Disk>()
    ensures call { CommittedCallsKeepTheBooks D.Disk }
    ensures eviction { CommittedEvictionsKeepTheBooks D.Disk }
    ensures failed { FailedCommitsKeepTheBooks D.Disk }
    ensures shown { CommitsShow D.Disk }
{
    commit_laws::<D>();
    state_laws();
}

/// A commit of what is kept back alone keeps the books, and so does one that failed. What the images show in it.
pub fn commits_alone_keep_the_books<D: Disk>()
    ensures committed { CommittedAloneKeepsTheBooks D.Disk }
    ensures failed { FailedAloneKeepsTheBooks D.Disk }
    ensures shown { AloneShows D.Disk }
{
    commit_laws::<D>();
}

/// A call that only reads the disk keeps the books. What the images show in it.
pub fn reads_leave_the_books<D: Disk>()
    ensures { ReadsKeepTheBooks D.Disk }
{
    commit_laws::<D>();
}

/// A call that writes pages aside of what the records name keeps the books, also where the disk failed. What the images
/// show in it.
pub fn pages_beside_leave_the_books<D: Disk>()
    ensures { PagesKeepTheBooks D.Disk }
{
    commit_laws::<D>();
}

/// What the images show at rest.
pub fn the_books_show_their_images<D: Disk>()
    ensures { BooksShowTheirImages D.Disk }
{
    commit_laws::<D>();
}

/// What each image stands for with nothing kept back and no gate in doubt.
pub fn the_books_stand_at_rest<D: Disk>()
    ensures { BooksStandAtRest D.Disk }
{
    commit_laws::<D>();
}

/// What the disk stands for behind a content that was told last.
pub fn a_last_content_stands<D: Disk>()
    ensures { BooksStandAtAContent D.Disk }
{
    commit_laws::<D>();
}

/// What the books keep of the state that their history leaves, and that the history is short.
pub fn the_state_is_kept<D: Disk>()
    ensures { BooksKeepTheState D.Disk }
{
    state_laws();
}

/// How the counts of faults go on.
pub fn a_fault_is_counted<D: Disk>()
    ensures { FaultsAreCounted D.Disk }
{
    state_laws();
}
