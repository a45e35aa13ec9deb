//! How a range of a snapshot is moved into a stream.

ghost use Rattle.std.specs.Prelude.{◌≡◌, ◌+◌, ◌-◌, ◌<◌, ◌≤◌, ℕ, min, length};
ghost use Rattle.opfs_turns.specs.Asking.Rows.{HasSnapshot, HasStream};
ghost use Rattle.opfs_splice.specs.Splicing.{window};
ghost use Rattle.opfs_pipe.specs.Rounds.{HasMoved};
ghost use Rattle.opfs_pipe.specs.Streams.{stream_bytes, stream_offset};

use crate::pieces::{Pieces, RING, Ring};
use crate::ranges::{Range, Span};
use crate::rounds::run_rounds;
use opfs_agent::Agent;
use opfs_agent::stream_calls::Writable;
use opfs_hall::Hall;
use opfs_store::Store;
use opfs_turns::Stop;
use rtrb::RingBuffer;
use std::alloc::Global;
use std::sync::Wait;
use std::thread::Threads;

// How many of so many bytes there are from a place on, at most `len`.
fn range_length(size: u64, at: u64, len: u64) -> u64
    ensures { result ≡ min len (size - at) }
{
    len.min(size.saturating_sub(at))
}

// Moves the bytes from a place up to the end over a new ring.
fn move_over_ring<S: Store + Send, R: Threads + Wait + Sync>(
    rt: &R,
    court: &Hall<S>,
    span: &Span<'_>,
    reader: &mut Agent<S>,
    writer: &mut Agent<S>,
    to: &mut Writable,
) -> Result<(), Stop>
    requires few { (reader.old.rows ≤ 60000000) × (reader.old.entries ≤ 59000000) }
    requires snapshot { HasSnapshot S.tells reader.old span.now.from.now }
    requires end { (span.now.end ≤ length span.now.from.now.bytes) × (span.now.end ≤ span.now.at + 268435456) × (span.now.at ≤ span.now.end) }
    requires own { writer.old.pass.hall ≡ court.now }
    requires few_writes { (writer.old.rows ≤ 60000000) × (writer.old.entries ≤ 59000000) }
    requires stream { HasStream S.tells writer.old to.old }
    requires at_end { stream_offset writer.old to.old ≡ length (stream_bytes writer.old to.old) }
    ensures { (count : ℕ) → span.now.end ≡ span.now.at + count → HasMoved S.tells reader.old reader.new writer.old writer.new span.now.from.now span.now.at to.old to.new (window span.now.from.now.bytes span.now.at count) result }
{
    match RingBuffer::with_protocol::<Global, Pieces>(reader.alloc(), RING) {
        Ok((source, target)) => {
            let mut ring = Ring { source, target };
            run_rounds(rt, court, span, reader, writer, to, &mut ring)
        }
        Err(_) => Err(Stop::NoMemory),
    }
}

/// Moves a range of a snapshot to the end of a stream.
pub(crate) fn move_range<S: Store + Send, R: Threads + Wait + Sync>(
    rt: &R,
    court: &Hall<S>,
    range: &Range<'_>,
    reader: &mut Agent<S>,
    writer: &mut Agent<S>,
    to: &mut Writable,
) -> Result<(), Stop>
    requires few { (reader.old.rows ≤ 60000000) × (reader.old.entries ≤ 59000000) }
    requires snapshot { HasSnapshot S.tells reader.old range.now.from.now }
    requires range { length (window range.now.from.now.bytes range.now.at range.now.len) ≤ 268435456 }
    requires own { writer.old.pass.hall ≡ court.now }
    requires few_writes { (writer.old.rows ≤ 60000000) × (writer.old.entries ≤ 59000000) }
    requires stream { HasStream S.tells writer.old to.old }
    requires at_end { stream_offset writer.old to.old ≡ length (stream_bytes writer.old to.old) }
    ensures { HasMoved S.tells reader.old reader.new writer.old writer.new range.now.from.now range.now.at to.old to.new (window range.now.from.now.bytes range.now.at range.now.len) result }
{
    let length = range_length(range.from.size(), range.at, range.len);
    if length == 0 {
        return Ok(());
    }
    let span = Span {
        from: range.from,
        at: range.at,
        end: range.at + length,
    };
    move_over_ring(rt, court, &span, reader, writer, to)
}
