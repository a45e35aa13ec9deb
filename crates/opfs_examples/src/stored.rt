//! What is stored though nothing changed, and a disk that fails between two evictions.

ghost use Rattle.opfs_examples.specs.Stored.{ADiskMayFailBetweenTwoEvictions, EachFlushStores, EvictionsKeepTheirOrder};

/// Each flush and the close of an access handle that may write store a content, whether or not anything was written.
pub fn each_flush_stores()
    ensures { EachFlushStores }
{}

/// The disk may fail after the first of a call's two evictions.
pub fn a_disk_may_fail_between_two_evictions()
    ensures { ADiskMayFailBetweenTwoEvictions }
{}

/// It does not fail after the second alone.
pub fn evictions_keep_their_order()
    ensures { EvictionsKeepTheirOrder }
{}
