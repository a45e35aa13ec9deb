//! What is kept.

ghost use Rattle.opfs_laws.specs.Whole.{WhatEveryReachedStateKeeps};

/// Every state that a legal history reaches keeps its rows in order and closed under parents. Each file's lock tells
/// who has it open: the count is the number of its open streams, or of its read-only access handles, and
/// taken-exclusive is exactly one access handle that may write. The file of each open stream and access handle is
/// there. A stream's reserve covers its buffer, and a read-only access handle keeps no block.
/// A file's present bytes and their time stamp are stored for good, or the access handle that may write it keeps blocks
/// enough for them.
/// The pool is within the data blocks, and the charge, with the 7 bytes of a record of no changes, within the area.
pub fn what_every_reached_state_keeps()
    ensures { WhatEveryReachedStateKeeps }
{}
