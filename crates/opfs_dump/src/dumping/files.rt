//! The bytes of files, in hexadecimal digits.

ghost use Rattle.std.specs.Prelude.{◌≡◌, ◌+◌, ◌*◌, ◌^◌, ◌<◌, ◌≤◌, ◌++◌, length};
ghost use Rattle.opfs_outside.specs.Bytes.{window};
ghost use Rattle.opfs_data.specs.Places.{room_of, bytes_of, AllLie};
ghost use Rattle.opfs_dump.specs.Dumping.Pieces.{digits_text};
ghost use Rattle.opfs_dump.specs.Dumping.Putting.{Dumps, Puts};

use crate::dumping::output::put_text;
use crate::dumping::stop::DumpStop;
use hex::encode_to_slice;
use opfs_base::{BLOCK_SIZE, Extent};
use opfs_journal::Journal;
use opfs_outside::{Disk, Sink};

/// The bytes that are read at once.
pub(crate) const PIECE: usize = 65536;

// Puts out the digits of bytes.
fn put_digits<K: Sink>(sink: &mut K, piece: &[u8], digits: &mut [u8]) -> Result<(), DumpStop>
    requires { length digits.old ≡ 2 * length piece.now }
    ensures { Puts K.Sink sink.old sink.new (digits_text piece.now) result }
{
    match encode_to_slice(piece, digits) {
        Ok(()) => {}
        Err(_) => unreachable!(),
    }
    put_text(sink, digits)
}

// Reads bytes, and puts out their digits.
fn put_piece<D: Disk, K: Sink>(
    journal: &mut Journal<D>,
    at: u64,
    piece: &mut [u8],
    digits: &mut [u8],
    sink: &mut K,
) -> Result<(), DumpStop>
    requires digits { length digits.old ≡ 2 * length piece.old }
    requires lies { at + length piece.old ≤ D.size journal.old.disk }
    requires behind { journal.old.areas.first + 2 * journal.old.areas.bytes ≤ at }
    ensures { Dumps D.Disk K.Sink journal.old journal.new sink.old sink.new (λ c. digits_text (window c at (length piece.old))) result }
{
    match journal.get(at, piece) {
        Ok(()) => put_digits(sink, piece, digits),
        Err(_) => Err(DumpStop::DiskFault),
    }
}

// Reads so many bytes piece by piece, and puts out their digits.
fn put_bytes<D: Disk, K: Sink>(
    journal: &mut Journal<D>,
    at: u64,
    count: u64,
    piece: &mut [u8],
    digits: &mut [u8],
    sink: &mut K,
) -> Result<(), DumpStop>
    requires some { 0 < length piece.old }
    requires digits { length digits.old ≡ 2 * length piece.old }
    requires lies { at + count ≤ D.size journal.old.disk }
    requires behind { journal.old.areas.first + 2 * journal.old.areas.bytes ≤ at }
    requires small { at + count < 2 ^ 64 }
    ensures { Dumps D.Disk K.Sink journal.old journal.new sink.old sink.new (λ c. digits_text (window c at count)) result }
{
    let mut from = 0;
    while from < count {
        let len = (count - from).min(piece.len() as u64) as usize;
        let (part, into) = (&mut piece[..len], &mut digits[..2 * len]);
        match put_piece(journal, at + from, part, into, sink) {
            Ok(()) => from += len as u64,
            Err(stop) => return Err(stop),
        }
    }
    Ok(())
}

/// Puts out the digits of so many bytes in the blocks of runs, one after another.
pub(crate) fn put_runs<D: Disk, K: Sink>(
    journal: &mut Journal<D>,
    base: u64,
    extents: &[Extent],
    len: u64,
    piece: &mut [u8],
    digits: &mut [u8],
    sink: &mut K,
) -> Result<(), DumpStop>
    requires some { 0 < length piece.old }
    requires digits { length digits.old ≡ 2 * length piece.old }
    requires fits { len ≤ room_of extents.now }
    requires lies { AllLie base (D.size journal.old.disk) extents.now }
    requires behind { journal.old.areas.first + 2 * journal.old.areas.bytes ≤ base }
    requires small { base < 2 ^ 63 }
    ensures { Dumps D.Disk K.Sink journal.old journal.new sink.old sink.new (λ c. digits_text (bytes_of c base extents.now len)) result }
{
    let mut left = len;
    for extent in extents {
        let count = (u64::from(extent.count) * BLOCK_SIZE).min(left);
        let place = base + u64::from(extent.start) * BLOCK_SIZE;
        match put_bytes(journal, place, count, piece, digits, sink) {
            Ok(()) => left -= count,
            Err(stop) => return Err(stop),
        }
    }
    Ok(())
}
