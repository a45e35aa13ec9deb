//! How a command ends that did not do what was asked.

/// Why a script is refused. An agent is counted from 1; a step too, and 0 is the agent itself, or the whole script.
#[derive(Clone, Copy, PartialEq, Eq)]
pub enum BadScript {
    /// It is no JSON.
    NotJson,
    /// The step of the agent has another form.
    BadShape(u64, u64),
    /// The step of the agent has a word that is not there.
    UnknownStep(u64, u64),
    /// The agent's origin gives no key.
    BadOrigin(u64),
    /// It asks for more than a script may.
    TooMany,
}

/// Why an image is refused.
#[derive(Clone, Copy, PartialEq, Eq)]
pub enum BadImage {
    /// It has too few bytes.
    Short,
    /// It does not begin as an image does.
    Magic,
    /// A number of its superblock is out of range.
    Geometry,
    /// It is of the old format.
    Old,
    /// It is of the new format already.
    NotOld,
    /// No area holds a record.
    NoArea,
    /// The gate at this byte is bad.
    BadRecord(u64),
    /// The charge, in an area of so many bytes.
    Overfull(u64, u64),
}

/// How a command ends that says so in a line.
#[derive(Clone, Copy, PartialEq, Eq)]
pub enum End {
    /// The words ask for nothing.
    Usage,
    /// The script is refused.
    Script(BadScript),
    /// The image is refused.
    Image(BadImage),
    /// A file failed.
    Host,
    /// The input failed.
    Source,
}
