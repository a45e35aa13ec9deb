//! Bytes by position.

ghost use Rattle.std.specs.Prelude.{◌≡◌, ◌+◌, ◌≤◌, ◌<◌, ◌++◌, [], length, replicate, IfOk};
ghost use Rattle.std.specs.Prelude.{vec_len};
ghost use Rattle.std.specs.Vec.{vec_capacity};
ghost use Rattle.opfs_splice.specs.Splicing.{splice, resize};

use opfs_base::{Bytes, Data, SharedBytes, Told, plus};
use opfs_splice::{patch, resize};
use std::alloc::{AllocError, Global};

/// No bytes.
pub fn no_bytes(alloc: Global) -> Result<SharedBytes, AllocError>
    ensures { IfOk result (λ bytes. bytes ≡ []) }
{
    let none = SharedBytes::make(alloc, Bytes::from_vec(Vec::new(alloc)))?;
    Ok(none)
}

/// The bytes with others written at a position. One byte so many times is written as it is told. They are copied where others
/// hold them too.
pub fn spliced(
    alloc: Global,
    old: SharedBytes,
    position: u64,
    new: &Data,
) -> Result<SharedBytes, AllocError>
    ensures { IfOk result (λ bytes. bytes ≡ splice old position new.now) }
{
    let mut buffer = old.into_bytes(alloc)?.into_vec();
    let end = plus(position, new.len())? as usize;
    if end > buffer.capacity() {
        buffer.reserve(end - buffer.len())?;
    }
    write_told(&mut buffer, position, new);
    let bytes = SharedBytes::make(alloc, Bytes::from_vec(buffer))?;
    Ok(bytes)
}

/// Writes bytes at a position, as they are told.
fn write_told(old: &mut Vec<u8>, position: u64, new: &Data)
    requires { position + length new.now ≤ vec_capacity old.old }
    ensures { old.new.items ≡ splice old.old.items position new.now }
{
    match new.told() {
        Told::Given(bytes) => patch(old, position, bytes),
        Told::Fill(byte, count) => fill(old, position as usize, byte, count as usize),
    }
}

/// Writes one byte so many times at a position.
fn fill(old: &mut Vec<u8>, position: usize, byte: u8, count: usize)
    requires { position + count ≤ vec_capacity old.old }
    ensures { old.new.items ≡ splice old.old.items position (replicate count byte) }
{
    if old.len() < position {
        fill_past(old, position, byte, count);
    } else {
        fill_over(old, position, byte, count);
    }
}

/// Fills up to a position past the end with 0, and then with a byte.
fn fill_past(old: &mut Vec<u8>, position: usize, byte: u8, count: usize)
    requires past { vec_len old.old < position }
    requires fits { position + count ≤ vec_capacity old.old }
    ensures { old.new.items ≡ splice old.old.items position (replicate count byte) }
{
    old.resize(position, 0).unwrap();
    old.resize(position + count, byte).unwrap();
}

/// Writes a byte from a position in the bytes on, and past their end where it comes more often.
#[tactic(auto, using(crate::proofs::Fills::fill_beyond))]
fn fill_over(old: &mut Vec<u8>, position: usize, byte: u8, count: usize)
    requires within { position ≤ vec_len old.old }
    requires fits { position + count ≤ vec_capacity old.old }
    ensures { old.new.items ≡ splice old.old.items position (replicate count byte) }
{
    let room = old.len() - position;
    if count <= room {
        fill_inside(old.as_mut_slice(), position, byte, count);
        return;
    }
    fill_inside(old.as_mut_slice(), position, byte, room);
    fill_behind(old, byte, count - room);
}

/// Writes a byte so many times over others.
fn fill_inside(bytes: &mut [u8], position: usize, byte: u8, count: usize)
    requires { position + count ≤ length bytes.old }
    ensures { bytes.new ≡ splice bytes.old position (replicate count byte) }
{
    bytes[position..position + count].fill(byte);
}

/// Appends a byte so many times.
fn fill_behind(old: &mut Vec<u8>, byte: u8, count: usize)
    requires { vec_len old.old + count ≤ vec_capacity old.old }
    ensures { old.new.items ≡ old.old.items ++ replicate count byte }
{
    let end = old.len() + count;
    old.resize(end, byte).unwrap();
}

/// The bytes cut or extended to a size, copied where others hold them too.
pub fn resized(alloc: Global, old: SharedBytes, size: u64) -> Result<SharedBytes, AllocError>
    ensures { IfOk result (λ bytes. bytes ≡ resize old size) }
{
    let mut buffer = old.into_bytes(alloc)?.into_vec();
    let wanted = size as usize;
    if wanted > buffer.capacity() {
        buffer.reserve(wanted - buffer.len())?;
    }
    resize(&mut buffer, size);
    let bytes = SharedBytes::make(alloc, Bytes::from_vec(buffer))?;
    Ok(bytes)
}
