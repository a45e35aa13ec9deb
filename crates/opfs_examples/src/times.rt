//! Examples of time stamps: each a history, with another answer to its last call that is refused.

ghost use Rattle.opfs_examples.specs.Times.{AWriteOfAHandleSetsTheStamp, ADiscardSetsTheStampBack, ANewFileHasTheMoment};

/// A write of an access handle sets the time stamp.
pub fn a_write_of_a_handle_sets_the_stamp()
    ensures { AWriteOfAHandleSetsTheStamp }
{}

/// A discard sets the time stamp back with the bytes.
pub fn a_discard_sets_the_stamp_back()
    ensures { ADiscardSetsTheStampBack }
{}

/// A new file has the moment of its making.
pub fn a_new_file_has_the_moment()
    ensures { ANewFileHasTheMoment }
{}
