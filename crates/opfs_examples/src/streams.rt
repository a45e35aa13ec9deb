//! Examples of streams.

ghost use Rattle.opfs_examples.specs.Streams.{AFileIsWritten, AWritePastTheEndFillsWithZeros, ACutStreamMovesItsOffset, WhatAClosedStreamWroteStays, AKeptStreamWritesOverWhatIsThere};

/// A file is made, written through a stream, and read.
pub fn a_file_is_written()
    ensures { AFileIsWritten }
{}

/// A write behind the end fills what lies between with zeros, and a close sets the time stamp.
pub fn a_write_past_the_end_fills_with_zeros()
    ensures { AWritePastTheEndFillsWithZeros }
{}

/// A stream that is cut writes on at its new end, and bytes that it grew by are zeros.
pub fn a_cut_stream_moves_its_offset()
    ensures { ACutStreamMovesItsOffset }
{}

/// What a stream wrote is stored for good once it is closed.
pub fn what_a_closed_stream_wrote_stays()
    ensures { WhatAClosedStreamWroteStays }
{}

/// A stream that keeps the bytes writes over them from a position on, and goes on behind what it wrote.
pub fn a_kept_stream_writes_over_what_is_there()
    ensures { AKeptStreamWritesOverWhatIsThere }
{}
