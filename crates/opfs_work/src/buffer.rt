//! The bytes of one page.

ghost use Rattle.std.specs.List.{slice_range};
ghost use Rattle.std.specs.Prelude.{◌≡◌, ℕ, ◌+◌, ◌-◌, ◌<◌, ◌≤◌, length, IfOk, slice_index};

use opfs_base::Data;
use std::alloc::{AllocError, Global};
use std::marker::Model;

/// The 4,096 bytes of a page, seen as the list of them.
#[derive(Drop)]
pub struct Buffer {
    bytes: Vec<u8>,
}

impl Model for Buffer {
    ghost use Rattle.std.specs.Prelude.{◌≡◌, List, ℕ, length};

    ghost Value = { List ℕ };

    ghost view = { λ buffer. buffer.bytes.items };

    ghost invariant = { λ buffer. length buffer.bytes.items ≡ 4096 };
}

impl Buffer {
    /// A buffer of zeros.
    pub fn make(alloc: Global) -> Result<Buffer, AllocError> {
        let bytes = zeros(alloc, 4096)?;
        Ok(Buffer { bytes })
    }

    /// The bytes.
    pub fn as_slice(&self) -> &[u8]
        ensures bytes { result.now ≡ self.now }
        ensures length { length result.now ≡ 4096 }
    {
        self.bytes.as_slice()
    }

    /// Makes these the bytes. Takes no memory.
    pub fn load(&mut self, bytes: &[u8])
        requires { length bytes.now ≡ 4096 }
        ensures { self.new ≡ bytes.now }
    {
        self.bytes.as_mut_slice().copy_from_slice(bytes);
    }

    /// Writes the bytes between two places at an offset. Takes no memory.
    pub fn write(&mut self, offset: usize, given: &Data, from: u64, to: u64)
        requires order { from ≤ to }
        requires end { to ≤ length given.now }
        requires room { offset + length (slice_range given.now from to) ≤ 4096 }
        ensures inside { (k : ℕ) → offset ≤ k → k < offset + length (slice_range given.now from to) → slice_index self.new k ≡ slice_index (slice_range given.now from to) (k - offset) }
        ensures before { (k : ℕ) → k < offset → slice_index self.new k ≡ slice_index self.old k }
        ensures behind { (k : ℕ) → offset + length (slice_range given.now from to) ≤ k → slice_index self.new k ≡ slice_index self.old k }
    {
        copy_into(self.bytes.as_mut_slice(), offset, given, from, to);
    }

    /// Makes the bytes from an offset on 0. Takes no memory.
    pub fn wipe(&mut self, offset: usize)
        requires { offset ≤ 4096 }
        ensures before { (k : ℕ) → k < offset → slice_index self.new k ≡ slice_index self.old k }
        ensures behind { (k : ℕ) → offset ≤ k → slice_index self.new k ≡ 0 }
    {
        clear(self.bytes.as_mut_slice(), offset);
    }
}

// So many zeros.
fn zeros(alloc: Global, size: usize) -> Result<Vec<u8>, AllocError>
    ensures { IfOk result (λ bytes. length bytes.items ≡ size) }
{
    let mut bytes = Vec::new(alloc);
    bytes.resize(size, 0)?;
    Ok(bytes)
}

// Copies the bytes between two places over others.
fn copy_into(bytes: &mut [u8], offset: usize, given: &Data, from: u64, to: u64)
    requires order { from ≤ to }
    requires end { to ≤ length given.now }
    requires room { offset + length (slice_range given.now from to) ≤ length bytes.old }
    ensures inside { (k : ℕ) → offset ≤ k → k < offset + length (slice_range given.now from to) → slice_index bytes.new k ≡ slice_index (slice_range given.now from to) (k - offset) }
    ensures before { (k : ℕ) → k < offset → slice_index bytes.new k ≡ slice_index bytes.old k }
    ensures behind { (k : ℕ) → offset + length (slice_range given.now from to) ≤ k → slice_index bytes.new k ≡ slice_index bytes.old k }
{
    let len = (to - from) as usize;
    given.copy_into(from, &mut bytes[offset..offset + len]);
}

// Makes the bytes from an offset on 0.
fn clear(bytes: &mut [u8], offset: usize)
    requires { offset ≤ length bytes.old }
    ensures before { (k : ℕ) → k < offset → slice_index bytes.new k ≡ slice_index bytes.old k }
    ensures behind { (k : ℕ) → offset ≤ k → slice_index bytes.new k ≡ 0 }
{
    for i in offset..bytes.len() {
        bytes[i] = 0;
    }
}
