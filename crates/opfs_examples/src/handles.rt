//! Examples of access handles.

ghost use Rattle.opfs_examples.specs.Handles.{AnAccessHandleReadsAndWritesAtItsCursor, AnOpenAccessHandleIsDiscarded, OnlyFlushedBytesStay, WhatAClosedHandleWroteStays};

/// An access handle reads and writes at its cursor or at a place, and answers nothing once it is closed.
pub fn an_access_handle_reads_and_writes_at_its_cursor()
    ensures { AnAccessHandleReadsAndWritesAtItsCursor }
{}

/// What an access handle writes is read at once, and one that is open at the end of the script is discarded.
pub fn an_open_access_handle_is_discarded()
    ensures { AnOpenAccessHandleIsDiscarded }
{}

/// Where an access handle is discarded, its file has again the bytes that were flushed.
pub fn only_flushed_bytes_stay()
    ensures { OnlyFlushedBytesStay }
{}

/// What an access handle wrote and cut is stored for good once it is closed.
pub fn what_a_closed_handle_wrote_stays()
    ensures { WhatAClosedHandleWroteStays }
{}
