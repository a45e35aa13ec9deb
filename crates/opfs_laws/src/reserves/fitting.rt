//! Handles whose files wait for a flush keep blocks enough for them.

ghost use Rattle.opfs_laws.specs.Reserves.Reserves.{ReservesFitOrNothingIsUnflushed};

/// In a state that a legal history reaches, each open access handle that may write keeps blocks enough for its file, or it keeps
/// none and the file's bytes and time stamp are stored for good. Those of a file that no such handle has open are stored too.
pub fn reserves_fit_or_nothing_is_unflushed()
    ensures { ReservesFitOrNothingIsUnflushed }
{}
