//! How a pipe ends: its target is closed.

ghost use Rattle.std.specs.Prelude.{◌≡◌, [], IfErr, IfOk};
ghost use Rattle.opfs_turns.specs.Asking.Rows.{HasStream};
ghost use Rattle.opfs_turns.specs.Calls.{HasRoom};
ghost use Rattle.opfs_pipe.specs.Sides.{Failed, IsClose, IsStored};
ghost use Rattle.opfs_pipe.specs.Streams.{stream_bytes};

use opfs_agent::Agent;
use opfs_agent::stream_calls::{ClosedStream, Writable};
use opfs_hall::Hall;
use opfs_store::Store;
use opfs_turns::Stop;
use std::sync::Wait;

/// Closes a stream: its bytes are stored for good, as its file's content. Where that is refused it comes back open, as it was.
pub(crate) fn close<S: Store, R: Wait>(
    rt: &R,
    court: &Hall<S>,
    writer: &mut Agent<S>,
    to: Writable,
) -> Result<ClosedStream, (Writable, Stop)>
    requires own { writer.old.pass.hall ≡ court.now }
    requires room { HasRoom writer.old }
    requires stream { HasStream S.tells writer.old to }
    ensures stored { IfOk result (λ closed. IsStored S.tells writer.old writer.new to closed.row (stream_bytes writer.old to)) }
    ensures back { IfErr result (λ back. Failed S.tells writer.old writer.new to back.0 [] IsClose back.1) }
{
    writer.know_kept();
    let done = writer.close_writable(rt, court, to);
    writer.know_kept();
    done
}
