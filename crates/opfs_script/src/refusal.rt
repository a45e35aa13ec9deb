//! Why bytes are no script.

use thiserror::Error;

/// Why bytes are no script. An agent and a step are counted from 1; 0 in their place is the agent itself, or the whole
/// script.
#[derive(Clone, Copy, Debug, PartialEq, Eq, Error)]
pub enum ScriptRefusal {
    /// They are not UTF-8, or no JSON.
    #[error("not JSON")]
    NotJson,
    /// The step of the agent has another form.
    #[error("bad shape of step {1} of agent {0}")]
    BadShape(u64, u64),
    /// The step of the agent has a word that is not there.
    #[error("unknown word in step {1} of agent {0}")]
    UnknownStep(u64, u64),
    /// The agent's origin gives no key.
    #[error("bad origin of agent {0}")]
    BadOrigin(u64),
    /// There are too many agents or steps, or too many bytes to write and read.
    #[error("too many agents, steps or bytes")]
    TooMany,
    /// There is no memory.
    #[error("out of memory")]
    NoMemory,
}
