//! Why a line is refused.

/// Why a line of a conversation is refused. It has changed nothing.
#[derive(Clone, Copy, PartialEq, Eq)]
pub enum LineRefusal {
    /// What stands behind the agent's number is not UTF-8, or no JSON.
    NotJson,
    /// The step of this number, of this agent, has another form.
    BadShape(u64, u64),
    /// The step of this number, of this agent, has a word that is not there.
    UnknownStep(u64, u64),
    /// The line is too long, or its agent has made too many calls.
    TooMany,
    /// It does not begin with the number of an agent and a blank.
    NoAgent,
    /// Its agent awaits.
    Waiting,
    /// Its agent has ended.
    Ended,
}
