//! What two agents may be asked for in the tests.

/// What the agents do.
#[derive(Clone, Copy)]
pub enum Task {
    /// The reader makes its file of so many zeros and so many bytes `A`, and gives its bytes.
    Write(u64, u64),
    /// It sends a range of it to the writer's file, whose bytes are given then.
    Send(u64, u64),
    /// The same with a range that the quota of one block refuses: the writer keeps what was written.
    Refuse(u64, u64),
}
