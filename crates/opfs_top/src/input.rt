//! Reading a source to its end.

ghost use Rattle.std.specs.Prelude.{◌≡◌, ◌<◌, ◌≤◌, [], length, true, false, IfOk, IfErr};
ghost use Rattle.opfs_outside.specs.Turns.{of_source, SourceFailed};
ghost use Rattle.opfs_top.specs.Inputs.{IsInput, IsMore, IsEnd};

use opfs_base::Bytes;
use opfs_outside::Source;
use std::alloc::{AllocError, Global};

/// The most bytes that a script may have, with a transcript behind it.
const MOST_BYTES: usize = 16_777_216;

/// How many bytes one read asks for.
const PIECE: usize = 65_536;

/// What a source gave.
#[derive(Drop)]
pub enum Input {
    /// All its bytes.
    Whole(Bytes),
    /// More bytes than a script may have.
    TooFar,
    /// It failed.
    Failed,
    /// There was no memory.
    NoMemory,
}

/// Why a piece could not be read.
#[derive(Clone, Copy, PartialEq, Eq)]
enum Stop {
    Failed,
    NoMemory,
}

/// Reads one piece more behind the bytes so far, and answers whether there was one.
fn read_piece<S: Source>(
    source: &mut S,
    buffer: &mut [u8],
    bytes: &mut Vec<u8>,
) -> Result<bool, Stop>
    requires { 0 < length buffer.old }
    ensures more { IfOk result (λ more. more ≡ true → IsMore (of_source S.Source source.old source.new) bytes.old.items bytes.new.items) }
    ensures end { IfOk result (λ more. more ≡ false → IsEnd (of_source S.Source source.old source.new) bytes.old.items bytes.new.items) }
    ensures buffer { length buffer.new ≡ length buffer.old }
    ensures later { S.faults source.old ≤ S.faults source.new }
    ensures cause { IfErr result (λ stop. stop ≡ Stop.Failed → SourceFailed (of_source S.Source source.old source.new)) }
{
    let count = match source.read(buffer) {
        Ok(count) => count,
        Err(_) => return Err(Stop::Failed),
    };
    if count == 0 {
        return Ok(false);
    }
    match bytes.extend_from_slice(&buffer[..count]) {
        Ok(()) => Ok(true),
        Err(_) => Err(Stop::NoMemory),
    }
}

/// What a piece is read into.
fn buffer(alloc: Global) -> Result<Vec<u8>, AllocError>
    ensures { IfOk result (λ buffer. 0 < length buffer.items) }
{
    let mut buffer = Vec::new(alloc);
    buffer.resize(PIECE, 0)?;
    Ok(buffer)
}

/// Reads a source to its end, but no further than one piece past the most bytes that it may have.
fn read_into<S: Source>(source: &mut S, buffer: &mut [u8], mut bytes: Vec<u8>) -> Input
    requires buffer { 0 < length buffer.old }
    requires empty { bytes.items ≡ [] }
    ensures { IsInput (of_source S.Source source.old source.new) result }
{
    for turn in 0..MOST_BYTES + 1 {
        match read_piece(source, buffer, &mut bytes) {
            Ok(true) => {}
            Ok(false) => return Input::Whole(Bytes::from_vec(bytes)),
            Err(Stop::Failed) => return Input::Failed,
            Err(Stop::NoMemory) => return Input::NoMemory,
        }
        if bytes.len() > MOST_BYTES {
            return Input::TooFar;
        }
    }
    Input::TooFar
}

/// All bytes of a source.
pub fn read_all<S: Source>(alloc: Global, source: &mut S) -> Input
    ensures { IsInput (of_source S.Source source.old source.new) result }
{
    match buffer(alloc) {
        Ok(mut buffer) => read_into(source, &mut buffer, Vec::new(alloc)),
        Err(_) => Input::NoMemory,
    }
}
