//! How a command ends.

ghost use Rattle.std.specs.Prelude.{◌≡◌};
ghost use Rattle.opfs_top.specs.Statuses.{number_of, status_of};

use opfs_commands::ToolEnd;

/// How a command ends.
#[derive(Clone, Copy, PartialEq, Eq)]
pub enum Status {
    /// All was done.
    Done,
    /// The words ask for nothing.
    Usage,
    /// The script is refused.
    Script,
    /// The image is refused.
    Image,
    /// A file failed.
    Host,
    /// The input failed.
    Source,
    /// The output failed.
    Sink,
    /// There was no memory.
    Memory,
}

impl Status {
    /// The number with which the program ends: 0 to 7, in the order of the variants.
    pub fn number(self) -> u8
        ensures { result ≡ number_of self }
    {
        match self {
            Status::Done => 0,
            Status::Usage => 1,
            Status::Script => 2,
            Status::Image => 3,
            Status::Host => 4,
            Status::Source => 5,
            Status::Sink => 6,
            Status::Memory => 7,
        }
    }
}

/// The status of a command on an image.
pub fn status_of(end: ToolEnd) -> Status
    ensures { result ≡ status_of end }
{
    match end {
        ToolEnd::Done => Status::Done,
        ToolEnd::Image => Status::Image,
        ToolEnd::Host => Status::Host,
        ToolEnd::Sink => Status::Sink,
    }
}
