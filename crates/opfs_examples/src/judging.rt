//! Examples of what is judged, and in which order: each a history, with another answer to its last call that is refused.

ghost use Rattle.opfs_examples.specs.Judging.{ASnapshotHasThePresentBytes, AnIteratorNeedsItsDirectory, TwoEntriesAreNotTheSame, ChildrenAreJudgedBeforeLocks, ANameIsJudgedBeforeItsDirectory, AnotherBucketIsNotPersistent, APersistentBucketNeedsNoGrant, KeptDataAreCharged, TheQuotaIsJudgedBeforeTheArea, ANameIsLimitedBeforeTheArea, TheOriginIsJudgedBeforeTheBucket, TheFirstLockedFileIsTold, EntriesOfTwoKindsAreNotTheSame};

/// A snapshot has the present bytes, flushed or not.
pub fn a_snapshot_has_the_present_bytes()
    ensures { ASnapshotHasThePresentBytes }
{}

/// An iterator whose directory is gone gives nothing.
pub fn an_iterator_needs_its_directory()
    ensures { AnIteratorNeedsItsDirectory }
{}

/// A directory and a file in it are not the same.
pub fn two_entries_are_not_the_same()
    ensures { TwoEntriesAreNotTheSame }
{}

/// That a directory has children is judged before the locks below it.
pub fn children_are_judged_before_locks()
    ensures { ChildrenAreJudgedBeforeLocks }
{}

/// A name is judged before the directory that it is looked for in.
pub fn a_name_is_judged_before_its_directory()
    ensures { ANameIsJudgedBeforeItsDirectory }
{}

/// That a bucket is persistent says nothing of another one.
pub fn another_bucket_is_not_persistent()
    ensures { AnotherBucketIsNotPersistent }
{}

/// An agent without the grant is told that a bucket is persistent which is.
pub fn a_persistent_bucket_needs_no_grant()
    ensures { APersistentBucketNeedsNoGrant }
{}

/// What a stream keeps of its file is charged to the area.
pub fn kept_data_are_charged()
    ensures { KeptDataAreCharged }
{}

/// The quota is judged before the area.
pub fn the_quota_is_judged_before_the_area()
    ensures { TheQuotaIsJudgedBeforeTheArea }
{}

/// The limit of a name is judged before the area.
pub fn a_name_is_limited_before_the_area()
    ensures { ANameIsLimitedBeforeTheArea }
{}

/// That an agent has no origin is judged before the name of the bucket.
pub fn the_origin_is_judged_before_the_bucket()
    ensures { TheOriginIsJudgedBeforeTheBucket }
{}

/// Of the locked files below a directory the first one is told.
pub fn the_first_locked_file_is_told()
    ensures { TheFirstLockedFileIsTold }
{}

/// A directory and a file of one path are not the same.
pub fn entries_of_two_kinds_are_not_the_same()
    ensures { EntriesOfTwoKindsAreNotTheSame }
{}
