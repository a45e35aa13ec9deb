//! How long an own row stays.

ghost use Rattle.opfs_turns.specs.OtherRows.Staying.{OtherRowsStay};

/// An agent's own row, its bytes and each working copy of it stay while other agents make calls, units are cleared, and its
/// own calls use other rows.
pub fn other_rows_stay()
    ensures { OtherRowsStay }
{}
