//! Agents alone in their parties.

ghost use Rattle.opfs_transcripts.specs.Lone.Lone.{LoneRunsAreTheirOwn};

/// In a legal history without evictions, without waits and without refusals that tell of what is shared, an agent that is
/// alone in its party prints the run of the machine that has its rows and modes alone: a function of its script, whatever
/// the others do and however they take turns.
pub fn lone_runs_are_their_own()
    ensures { LoneRunsAreTheirOwn }
{}
