//! How steady pages go on.

ghost use Rattle.opfs_laws.specs.Steady.Settling.{SteadyPagesGoOn, OthersLeaveARow, OnlyItsOwnCallsSettleARow};

/// After a call that had a row in hand under the turn, the row's pages are steady. A page that is steady later was steady
/// before, and what was known of it still begins as the row's bytes.
pub fn steady_pages_go_on()
    ensures { SteadyPagesGoOn }
{}

/// Local calls without the turn, calls of other agents, refused calls and evictions settle no row.
pub fn only_its_own_calls_settle_a_row()
    ensures { OnlyItsOwnCallsSettleARow }
{}

/// Entries of other agents, and evictions, leave the bytes of an agent's open rows, and settle none of them.
pub fn others_leave_a_row()
    ensures { OthersLeaveARow }
{}
