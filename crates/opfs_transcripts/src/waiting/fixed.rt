//! Histories whose lines tell their entries.

ghost use Rattle.opfs_transcripts.specs.Waiting.Fixed.{HistoriesAreFixed, NobodyWaitsUnasked};

/// Where no key and no unit that is stored has a line feed, no unit that is ever cleared has one, so a line of the
/// transcript tells one entry.
pub fn histories_are_fixed()
    ensures { HistoriesAreFixed }
{}

/// Where no agent's script has an await, no entry of a history begins to wait.
pub fn nobody_waits_unasked()
    ensures { NobodyWaitsUnasked }
{}
