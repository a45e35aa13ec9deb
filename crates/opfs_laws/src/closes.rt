//! What a close stores.

ghost use Rattle.opfs_laws.specs.Closes.{EachFileIsOneContent};

/// A closed writable is stored wholly or not at all. Each file that a front of the changes of a history leaves stored has the
/// bytes and the time stamp that it had at the opening, or is new and empty, with the time stamp of the change that made it, or
/// has all the bytes and the time stamp of one content among those changes. So it is for any list of changes.
pub fn a_close_is_stored_wholly_or_not_at_all()
    ensures { EachFileIsOneContent }
{}
