//! Examples of buckets.

ghost use Rattle.opfs_examples.specs.Buckets.{AGrantMakesABucketPersistent, WithoutTheGrantABucketStaysBestEffort, AnOpaqueOriginHasNoStorage, BucketsAreApart};

/// With the grant, persist makes the bucket persistent.
pub fn a_grant_makes_a_bucket_persistent()
    ensures { AGrantMakesABucketPersistent }
{}

/// Without the grant, persist leaves the bucket as it is.
pub fn without_the_grant_a_bucket_stays_best_effort()
    ensures { WithoutTheGrantABucketStaysBestEffort }
{}

/// An agent of opaque origin has no storage.
pub fn an_opaque_origin_has_no_storage()
    ensures { AnOpaqueOriginHasNoStorage }
{}

/// Each bucket has its own root, no path leads from one into another, and only some texts name one.
pub fn buckets_are_apart()
    ensures { BucketsAreApart }
{}
