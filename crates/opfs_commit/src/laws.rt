//! Laws of the images that a crash may leave while changes are committed.

ghost use Rattle.opfs_commit.specs.Laws.{ImagesShowFronts, RecordsAreDurable, RecordsMayBeInDoubt, RecordsShowFronts, DoubtsEnd, DoubtsMayStay, DoubtsNeedAGate, EndsShowFronts, FailedEndsShowFronts};
ghost use Rattle.opfs_commit.specs.Laws.{ChangesAreKeptBack, OwnIsToStore, KeptIsToStore, WholeIsToStore, NextIsToStore, NextAloneIsToStore, RunsBeginWithTheirImage, RowsHoldWhatWasTold, ContentsStand, ImagesStand, LastContentsStand};
ghost use Rattle.opfs_commit.specs.Laws.{ReadsLeaveImages, ReadsShowFronts, PagesBesideLeaveImages, PagesBesideShowFronts, MomentsFollow, MomentsFollowADoubt, MomentsGoOn, TrailsBegin, TrailsGoOn, TrailsGrowKept, TrailsGrowCommitted, ChangesGoThroughFilling, QuietChangesMayBeKept};

use opfs_outside::Disk;

/// What the images show now.
pub fn an_image_shows_a_front<D: Disk>()
    ensures { D.tells → ImagesShowFronts D.Disk }
{}

/// How a run begins with an image that was recovered, whatever room was made.
pub fn a_run_begins_with_its_image<D: Disk>()
    ensures { D.tells → RunsBeginWithTheirImage D.Disk }
{}

/// What records that are written leave of the images, and what these show at each moment.
pub fn records_are_written<D: Disk>()
    ensures durable { D.tells → RecordsAreDurable D.Disk }
    ensures in_doubt { D.tells → RecordsMayBeInDoubt D.Disk }
    ensures shown { D.tells → RecordsShowFronts D.Disk }
{}

/// What the end of a doubt leaves of the images, and what these show at each moment.
pub fn a_doubt_ends<D: Disk>()
    ensures ends { D.tells → DoubtsEnd D.Disk }
    ensures stays { D.tells → DoubtsMayStay D.Disk }
    ensures none { D.tells → DoubtsNeedAGate D.Disk }
    ensures shown { D.tells → EndsShowFronts D.Disk }
    ensures shown_still { D.tells → FailedEndsShowFronts D.Disk }
{}

/// What one change more that is kept back leaves of the images.
pub fn a_change_is_kept_back<D: Disk>()
    ensures { D.tells → ChangesAreKeptBack D.Disk }
{}

/// Which records are to be stored.
pub fn records_are_to_be_stored<D: Disk>()
    ensures with_own { D.tells → OwnIsToStore D.Disk }
    ensures kept_back { D.tells → KeptIsToStore D.Disk }
    ensures from_nothing { D.tells → WholeIsToStore D.Disk }
    ensures next { D.tells → NextIsToStore D.Disk }
    ensures next_alone { D.tells → NextAloneIsToStore D.Disk }
{}

/// What the present rows hold, and what a content stands for, with the journal's records or with any; and each image at rest.
pub fn the_rows_hold_what_was_told<D: Disk>()
    ensures rows { D.tells → RowsHoldWhatWasTold D.Disk }
    ensures finished { D.tells → ContentsStand D.Disk }
    ensures at_rest { D.tells → ImagesStand D.Disk }
    ensures last_content { D.tells → LastContentsStand D.Disk }
{}

/// What other calls leave of the images, and what these show at each moment.
pub fn other_calls_leave_the_images<D: Disk>()
    ensures reads { D.tells → ReadsLeaveImages D.Disk }
    ensures shown { D.tells → ReadsShowFronts D.Disk }
    ensures pages { D.tells → PagesBesideLeaveImages D.Disk }
    ensures shown_beside { D.tells → PagesBesideShowFronts D.Disk }
{}

/// What is shown in several calls, one after the other.
pub fn moments_follow_each_other<D: Disk>()
    ensures both { D.tells → MomentsFollow D.Disk }
    ensures behind_a_doubt { D.tells → MomentsFollowADoubt D.Disk }
    ensures go_on { D.tells → MomentsGoOn D.Disk }
{}

/// How the trail of a run grows.
pub fn a_trail_grows<D: Disk>()
    ensures begins { D.tells → TrailsBegin D.Disk }
    ensures goes_on { D.tells → TrailsGoOn D.Disk }
    ensures kept { D.tells → TrailsGrowKept D.Disk }
    ensures committed { D.tells → TrailsGrowCommitted D.Disk }
{}

/// What changes make of what rows hold.
pub fn changes_go_through_filling()
    ensures filled { ChangesGoThroughFilling }
    ensures kept { QuietChangesMayBeKept }
{}
