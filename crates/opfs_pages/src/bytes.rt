// The bytes of a page under a write and under a cut.
ghost use Rattle.std.specs.Prelude.{◌≡◌, ℕ, ◌+◌, ◌-◌, ◌*◌, ◌^◌, ◌<◌, ◌≤◌, List, length, slice_index, IfOk};
ghost use Rattle.opfs_splice.specs.Splicing.{splice, resize};
ghost use Rattle.opfs_pages.specs.Copies.{IsPageOf, IsBegun};

use opfs_base::BLOCK_SIZE;
use std::alloc::{AllocError, Global};

/// Makes a page of a row that of the row after a write at a position (File System: write a chunk).
pub fn overlay(into: &mut [u8], page: u64, at: u64, given: &[u8])
    requires whole { length into.old ≡ 4096 }
    requires page { page < 2 ^ 51 }
    requires end { at + length given.now < 2 ^ 63 }
    ensures written { (old : List ℕ) → IsPageOf old page into.old → IsPageOf (splice old at given.now) page into.new }
    ensures whole { length into.new ≡ 4096 }
{
    let start = page * BLOCK_SIZE;
    let from = at.max(start);
    let to = (at + given.len() as u64).min(start + BLOCK_SIZE);
    if to <= from {
        return;
    }
    let chunk = &given[(from - at) as usize..(to - at) as usize];
    copy_into(into, (from - start) as usize, chunk);
}

/// Makes a page of a row that of the row cut or extended to a size, or a page that begins as the row's that of the row (File
/// System: truncate).
pub fn cut_page(into: &mut [u8], page: u64, size: u64)
    requires whole { length into.old ≡ 4096 }
    requires page { page < 2 ^ 52 }
    ensures cut { (old : List ℕ) → IsPageOf old page into.old → IsPageOf (resize old size) page into.new }
    ensures filled { (bytes : List ℕ) → length bytes ≡ size → IsBegun bytes page into.old → IsPageOf bytes page into.new }
    ensures whole { length into.new ≡ 4096 }
{
    let offset = size.saturating_sub(page * BLOCK_SIZE).min(BLOCK_SIZE);
    clear(into, offset as usize);
}

// So many zeros.
pub(crate) fn zeros(alloc: Global, len: usize) -> Result<Vec<u8>, AllocError>
    ensures { IfOk result (λ bytes. length bytes.items ≡ len) }
{
    let mut bytes = Vec::new(alloc);
    bytes.resize(len, 0)?;
    Ok(bytes)
}

// Copies bytes over others.
pub(crate) fn copy_into(bytes: &mut [u8], offset: usize, chunk: &[u8])
    requires { offset + length chunk.now ≤ length bytes.old }
    ensures inside { (k : ℕ) → offset ≤ k → k < offset + length chunk.now → slice_index bytes.new k ≡ slice_index chunk.now (k - offset) }
    ensures before { (k : ℕ) → k < offset → slice_index bytes.new k ≡ slice_index bytes.old k }
    ensures behind { (k : ℕ) → offset + length chunk.now ≤ k → slice_index bytes.new k ≡ slice_index bytes.old k }
    ensures size { length bytes.new ≡ length bytes.old }
{
    bytes[offset..offset + chunk.len()].copy_from_slice(chunk);
}

// Makes the bytes from an offset on 0.
fn clear(bytes: &mut [u8], offset: usize)
    requires { offset ≤ length bytes.old }
    ensures before { (k : ℕ) → k < offset → slice_index bytes.new k ≡ slice_index bytes.old k }
    ensures behind { (k : ℕ) → offset ≤ k → slice_index bytes.new k ≡ 0 }
    ensures size { length bytes.new ≡ length bytes.old }
{
    for i in offset..bytes.len() {
        bytes[i] = 0;
    }
}
