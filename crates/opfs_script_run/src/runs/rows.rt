//! What steps on streams, access handles and snapshots ask.

ghost use Rattle.std.specs.Prelude.{◌≡◌, IfOk};
ghost use Rattle.opfs_script_run.specs.Runs.Running.{named_by, a_stream, a_handle, a_snapshot, called};

use crate::runs::hand::Hand;
use crate::runs::kinds::{handle, snapshot, stream};
use opfs_base::{Data, Text};
use opfs_hist::{Op, Word};
use std::alloc::AllocError;

/// slice.
pub fn slice(hand: &Hand, variable: &Text, at: u64, len: u64) -> Op
    ensures { result ≡ called Word.Slice (a_snapshot (named_by hand.now variable.now)) (λ row. Op.Slice row at len) }
{
    match snapshot(hand, variable) {
        Some(row) => Op::Slice { row, at, len },
        None => Op::Unbound { word: Word::Slice },
    }
}

/// write.
pub fn write(
    hand: &Hand,
    variable: &Text,
    bytes: &Data,
    position: Option<u64>,
) -> Result<Op, AllocError>
    ensures { IfOk result (λ op. op ≡ called Word.Write (a_stream (named_by hand.now variable.now)) (λ row. Op.Write row bytes.now position)) }
{
    let Some(row) = stream(hand, variable) else {
        return Ok(Op::Unbound { word: Word::Write });
    };
    let bytes = bytes.share()?;
    Ok(Op::Write {
        row,
        bytes,
        position,
    })
}

/// seek.
pub fn seek(hand: &Hand, variable: &Text, position: u64) -> Op
    ensures { result ≡ called Word.Seek (a_stream (named_by hand.now variable.now)) (λ row. Op.Seek row position) }
{
    match stream(hand, variable) {
        Some(row) => Op::Seek { row, position },
        None => Op::Unbound { word: Word::Seek },
    }
}

/// truncate of a stream.
pub fn truncate(hand: &Hand, variable: &Text, size: u64) -> Op
    ensures { result ≡ called Word.Truncate (a_stream (named_by hand.now variable.now)) (λ row. Op.Truncate row size) }
{
    match stream(hand, variable) {
        Some(row) => Op::Truncate { row, size },
        None => Op::Unbound {
            word: Word::Truncate,
        },
    }
}

/// close of a stream.
pub fn close(hand: &Hand, variable: &Text) -> Op
    ensures { result ≡ called Word.Close (a_stream (named_by hand.now variable.now)) (λ row. Op.Close row) }
{
    match stream(hand, variable) {
        Some(row) => Op::Close { row },
        None => Op::Unbound { word: Word::Close },
    }
}

/// abort.
pub fn abort(hand: &Hand, variable: &Text) -> Op
    ensures { result ≡ called Word.Abort (a_stream (named_by hand.now variable.now)) (λ row. Op.Abort row) }
{
    match stream(hand, variable) {
        Some(row) => Op::Abort { row },
        None => Op::Unbound { word: Word::Abort },
    }
}

/// read of an access handle.
pub fn sync_read(hand: &Hand, variable: &Text, len: u64, at: Option<u64>) -> Op
    ensures { result ≡ called Word.SyncRead (a_handle (named_by hand.now variable.now)) (λ row. Op.SyncRead row len at) }
{
    match handle(hand, variable) {
        Some(row) => Op::SyncRead { row, len, at },
        None => Op::Unbound {
            word: Word::SyncRead,
        },
    }
}

/// write of an access handle.
pub fn sync_write(
    hand: &Hand,
    variable: &Text,
    bytes: &Data,
    at: Option<u64>,
) -> Result<Op, AllocError>
    ensures { IfOk result (λ op. op ≡ called Word.SyncWrite (a_handle (named_by hand.now variable.now)) (λ row. Op.SyncWrite row bytes.now at)) }
{
    let Some(row) = handle(hand, variable) else {
        return Ok(Op::Unbound {
            word: Word::SyncWrite,
        });
    };
    let bytes = bytes.share()?;
    Ok(Op::SyncWrite { row, bytes, at })
}

/// truncate of an access handle.
pub fn sync_truncate(hand: &Hand, variable: &Text, size: u64) -> Op
    ensures { result ≡ called Word.SyncTruncate (a_handle (named_by hand.now variable.now)) (λ row. Op.SyncTruncate row size) }
{
    match handle(hand, variable) {
        Some(row) => Op::SyncTruncate { row, size },
        None => Op::Unbound {
            word: Word::SyncTruncate,
        },
    }
}

/// getSize of an access handle.
pub fn sync_get_size(hand: &Hand, variable: &Text) -> Op
    ensures { result ≡ called Word.SyncGetSize (a_handle (named_by hand.now variable.now)) (λ row. Op.SyncGetSize row) }
{
    match handle(hand, variable) {
        Some(row) => Op::SyncGetSize { row },
        None => Op::Unbound {
            word: Word::SyncGetSize,
        },
    }
}

/// flush of an access handle.
pub fn sync_flush(hand: &Hand, variable: &Text) -> Op
    ensures { result ≡ called Word.SyncFlush (a_handle (named_by hand.now variable.now)) (λ row. Op.SyncFlush row) }
{
    match handle(hand, variable) {
        Some(row) => Op::SyncFlush { row },
        None => Op::Unbound {
            word: Word::SyncFlush,
        },
    }
}

/// close of an access handle.
pub fn sync_close(hand: &Hand, variable: &Text) -> Op
    ensures { result ≡ called Word.SyncClose (a_handle (named_by hand.now variable.now)) (λ row. Op.SyncClose row) }
{
    match handle(hand, variable) {
        Some(row) => Op::SyncClose { row },
        None => Op::Unbound {
            word: Word::SyncClose,
        },
    }
}
