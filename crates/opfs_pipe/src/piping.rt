//! A pipe from one agent to another.

ghost use Rattle.std.specs.Prelude.{◌≡◌, ◌≤◌, [], length, IfErr, IfOk};
ghost use Rattle.opfs_turns.specs.Asking.Rows.{HasClosedStream, HasSnapshot, HasStream};
ghost use Rattle.opfs_splice.specs.Splicing.{window};
ghost use Rattle.opfs_sync_files.specs.Entries.{GoesOn};
ghost use Rattle.opfs_sync_files.specs.Resting.{LeavesRest};
ghost use Rattle.opfs_pipe.specs.Pipes.{HasGivenBack, HasPiped};
ghost use Rattle.opfs_pipe.specs.Streams.{StoresLast, stream_bytes, stream_offset};

use crate::ending::close;
use crate::moving::move_range;
use crate::ranges::Range;
use opfs_agent::Agent;
use opfs_agent::stream_calls::{ClosedStream, Writable};
use opfs_hall::Hall;
use opfs_store::Store;
use opfs_turns::Stop;
use std::sync::Wait;
use std::thread::Threads;

/// Moves a range of a snapshot of one agent into a stream of another agent, and closes it. In each round the reader slices
/// pieces of a page and pushes them into a ring of 64, while the writer pops and writes them; then what is left in the ring is
/// written. Where a call is refused, or memory is short, the stream comes back open, with a front of the range.
pub fn pipe<S: Store + Send, R: Threads + Wait + Sync>(
    rt: &R,
    court: &Hall<S>,
    reader: &mut Agent<S>,
    writer: &mut Agent<S>,
    range: &Range<'_>,
    mut to: Writable,
) -> Result<ClosedStream, (Writable, Stop)>
    requires few { (reader.old.rows ≤ 60000000) × (reader.old.entries ≤ 59000000) }
    requires few_writes { (writer.old.rows ≤ 60000000) × (writer.old.entries ≤ 59000000) }
    requires own { writer.old.pass.hall ≡ court.now }
    requires snapshot { HasSnapshot S.tells reader.old range.now.from.now }
    requires range { length (window range.now.from.now.bytes range.now.at range.now.len) ≤ 268435456 }
    requires stream { HasStream S.tells writer.old to }
    requires empty { (stream_bytes writer.old to ≡ []) × (stream_offset writer.old to ≡ 0) }
    ensures content { IfOk result (λ closed. StoresLast writer.old writer.new to (window range.now.from.now.bytes range.now.at range.now.len)) }
    ensures closed { IfOk result (λ closed. (closed.row ≡ to.row) × HasClosedStream writer.new closed.row) }
    ensures calls { IfOk result (λ closed. HasPiped reader.old reader.new writer.old writer.new range.now.from.now range.now.at range.now.len to.row) }
    ensures back { IfErr result (λ back. HasGivenBack S.tells reader.old reader.new writer.old writer.new range.now.from.now range.now.at range.now.len to back.0 back.1) }
    ensures reader { GoesOn reader.old reader.new 65536 }
    ensures snapshot { HasSnapshot S.tells reader.new range.now.from.now }
    ensures reader_rows { LeavesRest S.tells reader.old reader.new 0 }
    ensures writer { GoesOn writer.old writer.new 65537 }
    ensures writer_rows { LeavesRest S.tells writer.old writer.new to.row }
{
    match move_range(rt, court, range, reader, writer, &mut to) {
        Ok(()) => close(rt, court, writer, to),
        Err(stop) => Err((to, stop)),
    }
}
