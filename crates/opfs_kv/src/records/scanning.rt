//! How a piece of a file is read, record by record.

ghost use Rattle.std.specs.Prelude.{◌≡◌, ◌↔◌, ◌+◌, ◌<◌, ◌≤◌, length, IfOk, IfErr, OnOk, IsTrue};
ghost use Rattle.opfs_base.specs.Texts.{Text};
ghost use Rattle.opfs_kv.specs.Records.Heads.{size_by};
ghost use Rattle.opfs_kv.specs.Records.Indexes.{IsFitting};
ghost use Rattle.opfs_kv.specs.Records.Scans.{IsPiece, HasRead, HasStopped, IsShort, put_in};
ghost use Rattle.opfs_kv.specs.declared.records.miss.Miss.TheVariants as miss;

use crate::records::head::{Head, read_head};
use crate::records::index::Index;
use crate::records::miss::Miss;
use crate::records::place::Place;
use opfs_base::Bytes;
use std::alloc::Global;

// How many bytes a record takes.
fn size_of(key: usize, len: Option<u32>) -> u64
    requires { key ≤ 255 }
    ensures { result ≡ size_by key len }
{
    match len {
        Some(len) => 6 + key as u64 + len as u64,
        None => 2 + key as u64,
    }
}

// Gives a key the place of its value in a record that begins here, or takes it out.
fn note(alloc: Global, index: &mut Index, key: &[u8], len: Option<u32>, at: u32) -> Result<(), Miss>
    requires small { at ≤ 16777216 }
    requires key { length key.now ≤ 255 }
    ensures placed { OnOk result (index.new ≡ put_in at index.old key.now len) }
    ensures why { IfErr result (λ why. why ≡ miss.Memory) }
{
    let key = Bytes::copy_of(alloc, key)?;
    match len {
        Some(len) => {
            let at = at + 6 + key.len() as u32;
            index.put(key, Place { at, len })?;
        }
        None => {
            index.take_out(&key);
        }
    }
    Ok(())
}

// Whether so many bytes from a place on may be too few for the front of a record: there are more behind them.
fn may_be_short(len: usize, at: u32, size: u32) -> bool
    requires { at + len ≤ 16777216 }
    ensures { IsTrue result ↔ IsShort size at len }
{
    len < 261 && at + len as u32 != size
}

// Reads the record that begins the rest of a piece at a place of a file of so many bytes, and gives the place behind it; the same
// place where the record's front is not whole in the piece.
fn step(alloc: Global, index: &mut Index, rest: &[u8], at: u32, size: u32) -> Result<u32, Miss>
    requires small { size ≤ 16777216 }
    requires inside { at + length rest.now ≤ size }
    requires some { 0 < length rest.now }
    requires fitting { IsFitting at index.old }
    ensures next { IfOk result (λ next. (at ≤ next) × (next ≤ size) × IsFitting next index.new) }
    ensures short { IfOk result (λ next. next ≡ at → IsShort size at (length rest.now)) }
    ensures read { IfOk result (λ next. (whole : Text) → IsPiece whole size at rest.now → HasRead whole at index.old next index.new) }
    ensures bad { IfErr result (λ why. HasStopped size at rest.now index.old why) }
{
    let Some(Head { key, len }) = read_head(rest) else {
        if may_be_short(rest.len(), at, size) {
            return Ok(at);
        }
        return Err(Miss::Bad(at));
    };
    let taken = size_of(key.len(), len);
    if at as u64 + taken > size as u64 {
        return Err(Miss::Bad(at));
    }
    note(alloc, index, key, len, at)?;
    Ok(at + taken as u32)
}

/// Reads a piece of a file of so many bytes, from a place on where a record begins, and gives the place up to which all was
/// read. Values that end behind the piece are passed over. No value is kept.
pub fn scan(alloc: Global, index: &mut Index, piece: &[u8], at: u32, size: u32) -> Result<u32, Miss>
    requires small { size ≤ 16777216 }
    requires inside { at + length piece.now ≤ size }
    requires fitting { IsFitting at index.old }
    ensures next { IfOk result (λ next. (at ≤ next) × (next ≤ size) × IsFitting next index.new) }
    ensures far { IfOk result (λ next. next < size → at + length piece.now < next + 261) }
    ensures ends { IfOk result (λ next. at + length piece.now ≡ size → next ≡ size) }
    ensures read { IfOk result (λ next. (whole : Text) → IsPiece whole size at piece.now → HasRead whole at index.old next index.new) }
    ensures bad { IfErr result (λ why. HasStopped size at piece.now index.old why) }
{
    let end = at + piece.len() as u32;
    let mut next = at;
    while next < end {
        let rest = &piece[(next - at) as usize..];
        let behind = match step(alloc, index, rest, next, size) {
            Ok(behind) => behind,
            Err(why) => return Err(why),
        };
        if behind == next {
            return Ok(next);
        }
        next = behind;
    }
    Ok(next)
}
