//! What a party alone is told, and what it is not.

ghost use Rattle.opfs_examples.specs.Alone.{ABucketInUseIsNotCleared, ARefusalTellsItsOwnGrowth, NobodyElseFillsTheQuota, OthersMayFillTheArea};

/// A party that stores nothing is not told that it stores too much.
pub fn nobody_else_fills_the_quota()
    ensures { NobodyElseFillsTheQuota }
{}

/// A refusal of the area tells what the call adds to the charge, and no other number.
pub fn a_refusal_tells_its_own_growth()
    ensures { ARefusalTellsItsOwnGrowth }
{}

/// Other parties may have filled the area.
pub fn others_may_fill_the_area()
    ensures { OthersMayFillTheArea }
{}

/// A bucket in which a lock is taken is not cleared.
pub fn a_bucket_in_use_is_not_cleared()
    ensures { ABucketInUseIsNotCleared }
{}
