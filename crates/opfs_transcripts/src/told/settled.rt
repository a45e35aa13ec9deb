//! Transcripts that tell neither of cleared units nor of stuck agents.

ghost use Rattle.opfs_transcripts.specs.Told.Reading.{SettledTextsArePlain};

/// A transcript without a line that begins as an eviction's and without one that ends as a stuck await's is of entries
/// that are neither.
pub fn settled_texts_are_plain()
    ensures { SettledTextsArePlain }
{}
