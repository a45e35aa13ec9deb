//! Which calls are local, and which may need the disk, call by call.

ghost use Rattle.opfs_examples.specs.Kinds.{AreTheDiskCalls, AreTheLocalCalls};

/// The calls that need only what is the agent's own.
pub fn these_calls_are_local()
    ensures { AreTheLocalCalls }
{}

/// The calls that may be answered with a disk fault.
pub fn these_calls_may_need_the_disk()
    ensures { AreTheDiskCalls }
{}
