//! Histories without the bytes that reads gave.

ghost use Rattle.opfs_laws.specs.Histories.Unread.{ReadsLeaveTheState};

/// The state that a history leaves, and what it stores, do not see the bytes that reads gave.
pub fn reads_leave_the_state()
    ensures { ReadsLeaveTheState }
{}
