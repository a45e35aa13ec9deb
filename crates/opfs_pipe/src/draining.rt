//! The writer's side of a pipe: it pops pieces and writes them.

ghost use Rattle.std.specs.Prelude.{◌≡◌, ◌+◌, ◌≤◌, ◌++◌, [], length, OnOk};
ghost use Rattle.rtrb.specs.Ring.{received, known_items, SameConsumer};
ghost use Rattle.opfs_turns.specs.Asking.Rows.{HasStream};
ghost use Rattle.opfs_pipe.specs.Sides.{HasDrained};
ghost use Rattle.opfs_pipe.specs.Streams.{stream_bytes, stream_offset};

use crate::pieces::Target;
use crate::writing::write;
use opfs_agent::Agent;
use opfs_agent::stream_calls::Writable;
use opfs_hall::Hall;
use opfs_store::Store;
use opfs_turns::Stop;
use std::sync::Wait;

/// Pops pieces and writes them, until no piece is there. It waits for none.
pub(crate) fn drain<S: Store, R: Wait>(
    rt: &R,
    court: &Hall<S>,
    writer: &mut Agent<S>,
    to: &mut Writable,
    target: &mut Target,
) -> Result<(), Stop>
    requires own { writer.old.pass.hall ≡ court.now }
    requires few { (writer.old.rows ≤ 60000000) × (writer.old.entries ≤ 59500000) }
    requires stream { HasStream S.tells writer.old to.old }
    requires at_end { stream_offset writer.old to.old ≡ length (stream_bytes writer.old to.old) }
    ensures ring { SameConsumer target.old target.new }
    ensures drained { HasDrained S.tells writer.old writer.new to.old to.new (received target.old) (received target.new) result }
{
    let mut count = 0u32;
    while count < 65_536 {
        let Ok(piece) = target.pop() else {
            return Ok(());
        };
        match write(rt, court, writer, to, piece) {
            Ok(()) => count += 1,
            Err(stop) => return Err(stop),
        }
    }
    Ok(())
}

/// Pops the pieces that are known to be there, and writes them.
pub(crate) fn drain_known<S: Store, R: Wait>(
    rt: &R,
    court: &Hall<S>,
    writer: &mut Agent<S>,
    to: &mut Writable,
    target: &mut Target,
) -> Result<(), Stop>
    requires own { writer.old.pass.hall ≡ court.now }
    requires few { (writer.old.rows ≤ 60000000) × (writer.old.entries + length (known_items target.old) ≤ 60000000) }
    requires stream { HasStream S.tells writer.old to.old }
    requires at_end { stream_offset writer.old to.old ≡ length (stream_bytes writer.old to.old) }
    ensures ring { SameConsumer target.old target.new }
    ensures known { received target.new ++ known_items target.new ≡ received target.old ++ known_items target.old }
    ensures none { OnOk result (known_items target.new ≡ []) }
    ensures drained { HasDrained S.tells writer.old writer.new to.old to.new (received target.old) (received target.new) result }
{
    let mut left = target.cached_slots();
    while left > 0 {
        let piece = target.pop_known();
        match write(rt, court, writer, to, piece) {
            Ok(()) => left -= 1,
            Err(stop) => return Err(stop),
        }
    }
    Ok(())
}
