//! Examples of cursors and offsets: each a history, with another answer to its last call that is refused.

ghost use Rattle.opfs_examples.specs.Positions.{AReadPastTheEndLeavesTheCursorAtTheEnd, ACutFileMovesTheCursor, AWriteOfAHandleAtAPlaceMovesTheCursor, AWriteOfAStreamAtAPlaceMovesTheOffset, AnExtendedStreamKeepsItsOffset, AWriteOfNothingFillsAGap, AHandleThatWritesNothingFillsAGap};

/// A read past the end leaves the cursor at the end.
pub fn a_read_past_the_end_leaves_the_cursor_at_the_end()
    ensures { AReadPastTheEndLeavesTheCursorAtTheEnd }
{}

/// A truncate below the cursor moves it to the new size.
pub fn a_cut_file_moves_the_cursor()
    ensures { ACutFileMovesTheCursor }
{}

/// A write of an access handle at a place moves the cursor behind it.
pub fn a_write_of_a_handle_at_a_place_moves_the_cursor()
    ensures { AWriteOfAHandleAtAPlaceMovesTheCursor }
{}

/// A write of a stream at a place moves the offset behind it.
pub fn a_write_of_a_stream_at_a_place_moves_the_offset()
    ensures { AWriteOfAStreamAtAPlaceMovesTheOffset }
{}

/// A truncate that extends leaves the offset.
pub fn an_extended_stream_keeps_its_offset()
    ensures { AnExtendedStreamKeepsItsOffset }
{}

/// A write of no bytes past the end fills what lies between.
pub fn a_write_of_nothing_fills_a_gap()
    ensures { AWriteOfNothingFillsAGap }
{}

/// So it does by an access handle.
pub fn a_handle_that_writes_nothing_fills_a_gap()
    ensures { AHandleThatWritesNothingFillsAGap }
{}
