//! Examples of which bucket is cleared: each a history, with another answer to its last call that is refused.

ghost use Rattle.opfs_examples.specs.Clearing.{AUseIsOfTheOrigin, BucketsOfOneUseGoByTheirText, AnEmptyBucketGoesOnTheWay, ARefusedCallIsAUse, AWaitIsAUse, OnlyThePersistentBucketIsSafe, AUseNeedNotChangeAnything, AReaderKeepsItsBucket};

/// A bucket was last used when its origin was, by whichever bucket.
pub fn a_use_is_of_the_origin()
    ensures { AUseIsOfTheOrigin }
{}

/// Of buckets of one origin the first in the order of their texts goes.
pub fn buckets_of_one_use_go_by_their_text()
    ensures { BucketsOfOneUseGoByTheirText }
{}

/// A bucket without blocks goes too, where it was used before one that has to go.
pub fn an_empty_bucket_goes_on_the_way()
    ensures { AnEmptyBucketGoesOnTheWay }
{}

/// A call that is refused is a use of its origin.
pub fn a_refused_call_is_a_use()
    ensures { ARefusedCallIsAUse }
{}

/// So is an agent's beginning to wait.
pub fn a_wait_is_a_use()
    ensures { AWaitIsAUse }
{}

/// A persistent bucket makes no other bucket of its origin safe.
pub fn only_the_persistent_bucket_is_safe()
    ensures { OnlyThePersistentBucketIsSafe }
{}

/// A call that changes and opens nothing is a use of its origin.
pub fn a_use_need_not_change_anything()
    ensures { AUseNeedNotChangeAnything }
{}

/// A bucket stays while a file of it is open to an access handle that only reads.
pub fn a_reader_keeps_its_bucket()
    ensures { AReaderKeepsItsBucket }
{}
