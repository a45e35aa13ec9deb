//! What is kept, as the shared store knows it.

ghost use Rattle.opfs_laws.specs.Lengths.Kept.{LengthsAreKept, UnitsAddUp};

/// Every state that a legal history reaches keeps, as the shared store knows it: rows in order and closed under parents,
/// locks that tell their holders, files of open rows that are there, blocks enough for what is not stored for good, and
/// a pool and a charge within their limits. No origin uses more than the pool.
pub fn lengths_are_kept()
    ensures { LengthsAreKept }
{}

/// The usage of an origin is the sum over its units, and the pool the sum over all units.
pub fn units_add_up()
    ensures { UnitsAddUp }
{}
