//! A line to a writer.

ghost use Rattle.std.specs.Prelude.{◌≡◌, ◌∷◌, ◌++◌, [], OnOk};
ghost use Rattle.std.specs.Io.KnownBytes.{Appends};

use crate::port::PortFault;
use std::io::{self, Write};

/// Puts a line and a line feed out: by one write where the writer takes as many bytes and there is memory for them in `text`, and
/// else by several. Nothing waits in the writer's buffer.
pub(crate) fn put_line<W: Write>(writer: &mut W, text: &mut Vec<u8>, line: &[u8]) -> io::Result<()>
    ensures { OnOk result (Appends (W.contents writer.old) (W.contents writer.new) (line.now ++ 10 ∷ [])) }
{
    if join(text, line).is_ok() {
        return put(writer, text.as_slice());
    }
    writer.write_all(line)?;
    put(writer, b"\n")
}

/// Puts bytes out, so that none wait.
fn put<W: Write>(writer: &mut W, bytes: &[u8]) -> io::Result<()>
    ensures { OnOk result (Appends (W.contents writer.old) (W.contents writer.new) bytes.now) }
{
    writer.write_all(bytes)?;
    writer.flush()
}

/// Makes the text of a line with its line feed.
fn join(text: &mut Vec<u8>, line: &[u8]) -> Result<(), PortFault>
    ensures { OnOk result (text.new.items ≡ line.now ++ 10 ∷ []) }
{
    text.clear();
    text.extend_from_slice(line)?;
    text.push(b'\n')?;
    Ok(())
}
