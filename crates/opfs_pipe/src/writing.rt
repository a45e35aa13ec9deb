//! How a piece is written at the end of a stream.

ghost use Rattle.std.specs.Prelude.{◌≡◌, ◌≤◌, length, None};
ghost use Rattle.opfs_turns.specs.Asking.Rows.{HasStream};
ghost use Rattle.opfs_turns.specs.Calls.{HasRoom};
ghost use Rattle.opfs_work.specs.Works.{place_in, IsNearWrite};
ghost use Rattle.opfs_pipe.specs.Sides.{HasWritten};
ghost use Rattle.opfs_pipe.specs.Streams.{stream_bytes, stream_offset};

use opfs_agent::Agent;
use opfs_agent::stream_calls::Writable;
use opfs_base::{Bytes, Data};
use opfs_hall::Hall;
use opfs_store::Store;
use opfs_turns::Stop;
use std::sync::Wait;

// Writes bytes at the end of a stream that fit, with no turn.
fn write_near<S: Store>(writer: &mut Agent<S>, to: &mut Writable, bytes: &Data) -> Result<(), Stop>
    requires room { HasRoom writer.old }
    requires stream { HasStream S.tells writer.old to.old }
    requires near { IsNearWrite to.old.work (place_in to.old.work None) (length bytes.now) }
    requires at_end { stream_offset writer.old to.old ≡ length (stream_bytes writer.old to.old) }
    ensures { HasWritten S.tells writer.old writer.new to.old to.new bytes.now result }
{
    writer.know_kept();
    let done = writer.write_within(to, bytes, None);
    writer.know_kept();
    done
}

// Writes bytes at the end of a stream that do not fit, under the turn.
fn write_far<S: Store, R: Wait>(
    rt: &R,
    court: &Hall<S>,
    writer: &mut Agent<S>,
    to: &mut Writable,
    bytes: &Data,
) -> Result<(), Stop>
    requires own { writer.old.pass.hall ≡ court.now }
    requires room { HasRoom writer.old }
    requires stream { HasStream S.tells writer.old to.old }
    requires far { ¬ IsNearWrite to.old.work (place_in to.old.work None) (length bytes.now) }
    requires at_end { stream_offset writer.old to.old ≡ length (stream_bytes writer.old to.old) }
    requires small { length bytes.now ≤ 4096 }
    ensures { HasWritten S.tells writer.old writer.new to.old to.new bytes.now result }
{
    writer.know_kept();
    let done = writer.write_growing(rt, court, to, bytes, None);
    writer.know_kept();
    done
}

// Writes bytes at the end of a stream, by one call.
fn write_data<S: Store, R: Wait>(
    rt: &R,
    court: &Hall<S>,
    writer: &mut Agent<S>,
    to: &mut Writable,
    bytes: &Data,
) -> Result<(), Stop>
    requires own { writer.old.pass.hall ≡ court.now }
    requires room { HasRoom writer.old }
    requires stream { HasStream S.tells writer.old to.old }
    requires at_end { stream_offset writer.old to.old ≡ length (stream_bytes writer.old to.old) }
    requires small { length bytes.now ≤ 4096 }
    ensures { HasWritten S.tells writer.old writer.new to.old to.new bytes.now result }
{
    if to.fits(None, bytes.len()) {
        return write_near(writer, to, bytes);
    }
    write_far(rt, court, writer, to, bytes)
}

/// Writes a piece at the end of a stream, by one call.
pub(crate) fn write<S: Store, R: Wait>(
    rt: &R,
    court: &Hall<S>,
    writer: &mut Agent<S>,
    to: &mut Writable,
    piece: Bytes,
) -> Result<(), Stop>
    requires own { writer.old.pass.hall ≡ court.now }
    requires room { HasRoom writer.old }
    requires stream { HasStream S.tells writer.old to.old }
    requires at_end { stream_offset writer.old to.old ≡ length (stream_bytes writer.old to.old) }
    requires small { length piece ≤ 4096 }
    ensures { HasWritten S.tells writer.old writer.new to.old to.new piece result }
{
    match Data::given(writer.alloc(), piece) {
        Ok(bytes) => write_data(rt, court, writer, to, &bytes),
        Err(_) => Err(Stop::NoMemory),
    }
}
