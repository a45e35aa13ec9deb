//! Putting bytes out, all of them.

ghost use Rattle.std.specs.Prelude.{◌≡◌, ◌≤◌, OnOk, OnErr, List, ℕ};
ghost use Rattle.opfs_outside.specs.Turns.{of_sink, SinkFailed, Took, TookFront};

use crate::stream::{Failed, Sink};

/// Puts all bytes out, or a front of them where the sink fails.
pub fn put_all<K: Sink>(sink: &mut K, bytes: &[u8]) -> Result<(), Failed>
    ensures ok { OnOk result (Took (of_sink K.Sink sink.old sink.new) bytes.now) }
    ensures err { OnErr result ((rest : List ℕ) × TookFront (of_sink K.Sink sink.old sink.new) bytes.now rest) }
    ensures later { K.faults sink.old ≤ K.faults sink.new }
    ensures cause { OnErr result (SinkFailed (of_sink K.Sink sink.old sink.new)) }
{
    let mut rest = bytes;
    while !rest.is_empty() {
        match sink.write(rest) {
            Ok(count) => rest = &rest[count..],
            Err(failed) => return Err(failed),
        }
    }
    Ok(())
}
