//! Bytes that are put out.

ghost use Rattle.opfs_dump.specs.Dumping.Putting.{Puts};

use crate::dumping::stop::DumpStop;
use opfs_outside::{Sink, put_all};

/// Puts all bytes out, or a front of them where the sink fails, as a part of a dump.
pub(crate) fn put_text<K: Sink>(sink: &mut K, text: &[u8]) -> Result<(), DumpStop>
    ensures { Puts K.Sink sink.old sink.new text.now result }
{
    match put_all(sink, text) {
        Ok(()) => Ok(()),
        Err(_) => Err(DumpStop::SinkFault),
    }
}
