//! Examples of room: the quota, the area, and evictions.

ghost use Rattle.opfs_examples.specs.Room.{TheQuotaRefusesAWrite, TheAreaRefusesAChild, AnEvictionMakesRoom, AnEvictionIsEntered, AnOriginIsNotEvictedForItself, ABucketInUseIsNotEvicted, ACutOfAFileNeedsRoomForWhatItLeaves, TheBucketThatWasUsedLongestAgoGoes};

/// A write past the quota is refused, and the stream goes on as it was.
pub fn the_quota_refuses_a_write()
    ensures { TheQuotaRefusesAWrite }
{}

/// What the stored map may take at most is kept below the area; a removal makes room again.
pub fn the_area_refuses_a_child()
    ensures { TheAreaRefusesAChild }
{}

/// The pool is full, so the bucket that was used longest ago goes: not a persistent one, and not the asking one.
pub fn an_eviction_makes_room()
    ensures { AnEvictionMakesRoom }
{}

/// An eviction has an entry of its own before the call that it makes room for.
pub fn an_eviction_is_entered()
    ensures { AnEvictionIsEntered }
{}

/// The buckets of the asking origin stay, also those that the call does not touch.
pub fn an_origin_is_not_evicted_for_itself()
    ensures { AnOriginIsNotEvictedForItself }
{}

/// A bucket stays while a lock in it is taken, and goes once that is released.
pub fn a_bucket_in_use_is_not_evicted()
    ensures { ABucketInUseIsNotEvicted }
{}

/// An access handle keeps blocks for the whole new length, also where it cuts the file.
pub fn a_cut_of_a_file_needs_room_for_what_it_leaves()
    ensures { ACutOfAFileNeedsRoomForWhatItLeaves }
{}

/// Of two buckets that may go, the one goes whose origin made no call for longer.
pub fn the_bucket_that_was_used_longest_ago_goes()
    ensures { TheBucketThatWasUsedLongestAgoGoes }
{}
