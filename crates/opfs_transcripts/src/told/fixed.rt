//! What a transcript fixes.

ghost use Rattle.opfs_transcripts.specs.Told.Goings.{TextsFixHistories};
ghost use Rattle.opfs_transcripts.specs.Told.Turns.{TextsAreReadInTurns};

/// A transcript is that of one history alone, whether its entries had a turn or not: where it begins in a state, and each
/// agent's run goes on from where it is.
pub fn texts_fix_histories()
    ensures { TextsFixHistories }
{}

/// A transcript is read group after group.
pub fn texts_are_read_in_turns()
    ensures { TextsAreReadInTurns }
{}
