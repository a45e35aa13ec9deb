//! A line from a reader.

ghost use Rattle.std.specs.Prelude.{◌≡◌, ◌≢◌, ◌<◌, ◌≤◌, [], length, slice_index, take, vec_len, IfOk, IfSome, OnOk};
ghost use Rattle.std.specs.Io.BufRead.{DropsThrough};
ghost use Rattle.opfs_port.specs.Lines.{HasNoFeed, IsHeard, IsPiece};

use crate::port::{Heard, PortFault};
use memchr::memchr;
use std::io::{BufRead, ErrorKind};

/// What the bytes that a reader has at hand are to a line.
enum Piece {
    /// They are all of the line, which goes on.
    More,
    /// The line ends among them.
    Whole,
    /// There are none, and none come any more.
    End,
    /// With them the line is too long.
    TooLong,
}

/// Reads a line without its line feed, which the last one may lack. Of one that is too long nothing is kept.
pub(crate) fn read_line<R: BufRead>(
    reader: &mut R,
    line: &mut Vec<u8>,
    most: usize,
) -> Result<Heard, PortFault>
    ensures short { length line.new.items ≤ most }
    ensures dropped { IfOk result (λ h. h ≡ Heard.TooLong → line.new.items ≡ []) }
    ensures known { IfOk result (λ h. IfSome (R.remaining reader.old) (λ bytes. IsHeard h most bytes line.new.items)) }
    ensures rest { OnOk result (DropsThrough (R.remaining reader.old) (R.remaining reader.new) 10) }
{
    line.clear();
    for _ in 0..u64::MAX {
        match take_piece(reader, line, most)? {
            Piece::More => {}
            Piece::Whole => return Ok(Heard::Line),
            Piece::End => return Ok(last(line)),
            Piece::TooLong => return drop_line(reader, line),
        }
    }
    Err(PortFault::Stream)
}

/// Takes what a reader has at hand of a line.
fn take_piece<R: BufRead>(
    reader: &mut R,
    line: &mut Vec<u8>,
    most: usize,
) -> Result<Piece, PortFault>
    requires { vec_len line.old ≤ most }
    ensures within { vec_len line.new ≤ most }
    ensures piece { IfOk result (λ p. IsPiece p most (R.remaining reader.old) (R.remaining reader.new) line.old.items line.new.items) }
{
    let held = match reader.fill_buf() {
        Ok(held) => held,
        Err(error) => {
            return if error.kind() == ErrorKind::Interrupted {
                Ok(Piece::More)
            } else {
                Err(PortFault::Stream)
            };
        }
    };
    if held.is_empty() {
        return Ok(Piece::End);
    }
    let count = to_feed(held);
    if count > most - line.len() {
        return Ok(Piece::TooLong);
    }
    line.extend_from_slice(&held[..count])?;
    if count == held.len() {
        reader.consume(count);
        return Ok(Piece::More);
    }
    reader.consume(count + 1);
    Ok(Piece::Whole)
}

/// How many bytes stand before the first line feed, or how many there are.
fn to_feed(bytes: &[u8]) -> usize
    ensures within { result ≤ length bytes.now }
    ensures clean { HasNoFeed (take result bytes.now) }
    ensures feed { result < length bytes.now → slice_index bytes.now result ≡ 10 }
{
    match memchr(b'\n', bytes) {
        Some(at) => at,
        None => bytes.len(),
    }
}

/// What it is where no byte comes behind these: a line without a line feed, or none.
fn last(line: &Vec<u8>) -> Heard
    ensures none { line.now.items ≡ [] → result ≡ Heard.End }
    ensures some { line.now.items ≢ [] → result ≡ Heard.Line }
{
    if line.is_empty() {
        return Heard::End;
    }
    Heard::Line
}

/// Reads a line to its end, and keeps nothing of it.
fn drop_line<R: BufRead>(reader: &mut R, line: &mut Vec<u8>) -> Result<Heard, PortFault>
    ensures none { line.new.items ≡ [] }
    ensures long { IfOk result (λ h. h ≡ Heard.TooLong) }
    ensures rest { OnOk result (DropsThrough (R.remaining reader.old) (R.remaining reader.new) 10) }
{
    line.clear();
    match reader.skip_until(b'\n') {
        Ok(_) => Ok(Heard::TooLong),
        Err(_) => Err(PortFault::Stream),
    }
}
