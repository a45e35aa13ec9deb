//! How far a conversation is told.

/// Whether answers are still told.
#[derive(Clone, Copy, PartialEq, Eq)]
pub enum State {
    On,
    /// No more, since the port failed.
    Failed,
    /// No more, since there was no memory, or entries were given out to another.
    Short,
}

/// How many entries were told, whether answers are still told, and whether each agent has made each step that it was asked for.
#[derive(Clone, Copy)]
pub struct Progress {
    pub count: usize,
    pub state: State,
    pub whole: bool,
}
