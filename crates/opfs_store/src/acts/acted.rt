//! What a shared call answers.

use opfs_base::{Bytes, Locator, Name};
use opfs_hist::Reply;

/// What is given beside a reply, which its entry does not hold.
#[derive(Drop)]
pub enum Gift {
    Nothing,
    /// The present bytes of a file.
    Bytes(Bytes),
    /// The locator and the name of an iterator's next child.
    Child(Locator, Name),
}

/// The answer of a shared call.
#[derive(Drop)]
pub struct Acted {
    pub reply: Reply,
    pub gift: Gift,
    /// How many streams, access handles, snapshots and iterators the agent has made.
    pub rows: u32,
}

/// How a tag stands for an agent that awaits it.
#[derive(Clone, Copy, PartialEq, Eq)]
pub enum AwaitState {
    /// It was posted in the agent's party.
    Posted,
    /// It was not, and every other live agent of the party waits for a tag that was not posted.
    Stuck,
    Neither,
}
