//! The law.

ghost use Rattle.opfs_commands.specs.DumpLaws.Laws.{DumpsAreReadBack};

/// The text that is dumped of an image is read back, where it is no longer than a text may be.
pub fn dumps_are_read_back()
    ensures { DumpsAreReadBack }
{}
