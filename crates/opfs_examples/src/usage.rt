//! Examples of what the quota counts: each a history, with another answer to its last call that is refused.

ghost use Rattle.opfs_examples.specs.Usage.{NamedBucketsShareTheQuota, WhatIsWrittenCountsBeforeAFlush, AReserveOfAHandleIsFreeOfQuota, AWriteOverBytesNeedsNoQuota, AWriteOfAHandleNeedsQuota, KeptDataNeedQuota, AReserveStaysAtATruncate, AReserveOfAHandleStaysAtATruncate};

/// All buckets of an origin share its quota.
pub fn named_buckets_share_the_quota()
    ensures { NamedBucketsShareTheQuota }
{}

/// The quota counts what an access handle has written, though nothing is stored yet.
pub fn what_is_written_counts_before_a_flush()
    ensures { WhatIsWrittenCountsBeforeAFlush }
{}

/// The blocks that an access handle keeps are no usage beside its file's own.
pub fn a_reserve_of_a_handle_is_free_of_quota()
    ensures { AReserveOfAHandleIsFreeOfQuota }
{}

/// A write of an access handle over bytes that are there needs no quota, though it keeps a block.
pub fn a_write_over_bytes_needs_no_quota()
    ensures { AWriteOverBytesNeedsNoQuota }
{}

/// A write of an access handle past the quota is refused.
pub fn a_write_of_a_handle_needs_quota()
    ensures { AWriteOfAHandleNeedsQuota }
{}

/// A stream that keeps the data needs quota for its copy of them.
pub fn kept_data_need_quota()
    ensures { KeptDataNeedQuota }
{}

/// A stream that is cut keeps its blocks.
pub fn a_reserve_stays_at_a_truncate()
    ensures { AReserveStaysAtATruncate }
{}

/// The blocks that an access handle keeps are not fewer for a truncate.
pub fn a_reserve_of_a_handle_stays_at_a_truncate()
    ensures { AReserveOfAHandleStaysAtATruncate }
{}
