//! Verdicts.

/// What is said of a transcript.
#[derive(Clone, Copy, PartialEq, Eq)]
pub enum Verdict {
    /// Some legal history of the script's agents has this text.
    Yes,
    /// None has.
    No,
    /// The script has an await, and the transcript a line of an eviction or of an agent that was stuck: which agents
    /// had begun to wait then, no line tells.
    Unsettled,
}
