//! Bytes by position.
//!
//! It stands on `opfs_base`; on it stand `opfs_machine` and `opfs_work`.
#![tactic(auto)]

ghost use Rattle.std.specs.Prelude.{◌≡◌, ◌+◌, ◌≤◌, ◌<◌, ◌++◌, length, IfOk, vec_len, replicate, drop};
ghost use Rattle.std.specs.Vec.{vec_capacity};
ghost use Rattle.opfs_splice.specs.Splicing.{splice, resize, window};

use opfs_base::Bytes;
use std::alloc::{AllocError, Global};

/// Writes bytes at a position (File System: write a chunk). A gap past the old end is filled with 0, and what stands
/// behind the written range stays. Takes no memory.
pub fn patch(old: &mut Vec<u8>, position: u64, new: &[u8])
    requires { position + length new.now ≤ vec_capacity old.old }
    ensures bytes { old.new.items ≡ splice old.old.items position new.now }
    ensures room { vec_capacity old.old ≤ vec_capacity old.new }
{
    let position = position as usize;
    if old.len() < position {
        write_past(old, position, new);
    } else {
        write_over(old, position, new);
    }
}

// Fills up to a position past the end, and writes there.
fn write_past(old: &mut Vec<u8>, position: usize, new: &[u8])
    requires past { vec_len old.old < position }
    requires fits { position + length new.now ≤ vec_capacity old.old }
    ensures bytes { old.new.items ≡ splice old.old.items position new.now }
    ensures room { vec_capacity old.old ≤ vec_capacity old.new }
{
    old.resize(position, 0).unwrap();
    old.extend_from_slice(new).unwrap();
}

// Writes from a position in the bytes on, and past their end where there are more.
fn write_over(old: &mut Vec<u8>, position: usize, new: &[u8])
    requires within { position ≤ vec_len old.old }
    requires fits { position + length new.now ≤ vec_capacity old.old }
    ensures bytes { old.new.items ≡ splice old.old.items position new.now }
    ensures room { vec_capacity old.old ≤ vec_capacity old.new }
{
    let over = new.len().min(old.len() - position);
    let (inside, beyond) = new.split_at(over);
    copy_into(old.as_mut_slice(), position, inside);
    old.extend_from_slice(beyond).unwrap();
}

// Copies bytes over others.
fn copy_into(bytes: &mut [u8], position: usize, new: &[u8])
    requires { position + length new.now ≤ length bytes.old }
    ensures { bytes.new ≡ splice bytes.old position new.now }
{
    bytes[position..position + new.len()].copy_from_slice(new);
}

/// Cuts bytes, or extends them with 0, to a size (File System: truncate). Takes no memory.
pub fn resize(old: &mut Vec<u8>, size: u64)
    requires { size ≤ vec_capacity old.old }
    ensures bytes { old.new.items ≡ resize old.old.items size }
    ensures room { vec_capacity old.old ≤ vec_capacity old.new }
{
    old.resize(size as usize, 0).unwrap();
}

/// The bytes from a place on, at most so many; none where the place is the end or past it.
pub fn window(alloc: Global, bytes: &[u8], start: u64, len: u64) -> Result<Bytes, AllocError>
    ensures { IfOk result (λ part. part ≡ window bytes.now start len) }
{
    Bytes::copy_of(alloc, window_of(bytes, start, len))
}

/// The same bytes where they stand. Takes no memory.
pub fn window_of(bytes: &[u8], start: u64, len: u64) -> &[u8]
    ensures { result.now ≡ window bytes.now start len }
{
    let start = start.min(bytes.len() as u64) as usize;
    let rest = &bytes[start..];
    let len = len.min(rest.len() as u64) as usize;
    &rest[..len]
}
