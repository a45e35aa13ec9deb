//! Runs of blocks: marked, tested, and joined into extents.

ghost use Rattle.std.specs.Prelude.{◌≡◌, ◌+◌, ◌^◌, ◌<◌, ◌≤◌, ◌++◌, ◌∷◌, [], ℕ, true, false, length, take, nat_le, vec_len, slice_index_or};
ghost use Rattle.std.specs.Vec.{vec_capacity};
ghost use Rattle.opfs_blocks.specs.Sets.{free_blocks, marked, blocks_in, blocks_of, AreBelow, AreJoined};
ghost use Rattle.opfs_blocks.specs.Steps.{IsFull, AreApart, can_adopt};
ghost use Rattle.std.specs.Bool.{OnTrue, OnFalse};

use crate::bits::Bits;
use opfs_base::Extent;

// Marks the blocks of an extent.
fn mark_run(bits: &mut Bits, extent: Extent, used: bool)
    requires { AreBelow (length bits.old) (blocks_in extent) }
    ensures { bits.new ≡ marked used (blocks_in extent) bits.old }
{
    // A size is below 2 ^ 32.
    let _size = bits.len();
    for k in 0..extent.count {
        bits.set(extent.start + k, used);
    }
}

// Whether all blocks of an extent are below the size and free.
fn are_clear(bits: &Bits, extent: Extent) -> bool
    ensures { result ≡ can_adopt bits.now (blocks_in extent) }
{
    let above = bits.len().saturating_sub(extent.start);
    for k in 0..extent.count {
        if k >= above || bits.get(extent.start + k) {
            return false;
        }
    }
    true
}

/// Makes the blocks of extents used or free, and gives a place below which nothing changed.
pub fn mark_all(bits: &mut Bits, extents: &[Extent], used: bool) -> u32
    requires { AreBelow (length bits.old) (blocks_of extents.now) }
    ensures marked { bits.new ≡ marked used (blocks_of extents.now) bits.old }
    ensures below { (k : ℕ) → k < result → slice_index_or bits.new k true ≡ slice_index_or bits.old k true }
{
    let mut lowest = u32::MAX;
    for extent in extents {
        mark_run(bits, *extent, used);
        lowest = lowest.min(extent.start);
    }
    lowest
}

/// Marks the blocks of extents used, or none where one of them is used already, named twice or not below the size.
pub fn adopt_all(bits: &mut Bits, extents: &[Extent]) -> bool
    ensures exact { result ≡ can_adopt bits.old (blocks_of extents.now) }
    ensures taken { OnTrue result (bits.new ≡ marked true (blocks_of extents.now) bits.old) }
    ensures refused { OnFalse result (bits.new ≡ bits.old) }
{
    for (i, extent) in extents.iter().enumerate() {
        if !are_clear(bits, *extent) {
            let _lowest = mark_all(bits, &extents[..i], false);
            return false;
        }
        mark_run(bits, *extent, true);
    }
    true
}

/// Whether so many blocks are free.
pub fn has_clear(bits: &Bits, from: u32, n: u32) -> bool
    requires { IsFull from bits.now }
    ensures { result ≡ nat_le n (length (free_blocks bits.now)) }
{
    let size = bits.len();
    let mut place = from;
    for _ in 0..n {
        let block = bits.first_clear(place);
        if block == size {
            return false;
        }
        place = block + 1;
    }
    true
}

/// Takes the free blocks of least number, as extents, and gives a place below which all blocks are used.
pub fn take_clear(bits: &mut Bits, from: u32, n: u32, into: &mut Vec<Extent>) -> u32
    requires full { IsFull from bits.old }
    requires enough { n ≤ length (free_blocks bits.old) }
    requires empty { into.old.items ≡ [] }
    requires room { n ≤ vec_capacity into.old }
    ensures blocks { blocks_of into.new.items ≡ take n (free_blocks bits.old) }
    ensures joined { AreJoined into.new.items }
    ensures used { bits.new ≡ marked true (blocks_of into.new.items) bits.old }
    ensures full { IsFull result bits.new }
    ensures room { vec_capacity into.old ≤ vec_capacity into.new }
{
    let size = bits.len();
    let mut place = from;
    let mut run = Extent {
        start: from,
        count: 0,
    };
    for _ in 0..n {
        let block = bits.first_clear(place);
        prove!(block < size);
        bits.set(block, true);
        run = grow(into, run, block);
        place = block + 1;
    }
    close(into, run);
    place
}

// Adds a block to a run, or closes the run and begins a new one.
fn grow(into: &mut Vec<Extent>, run: Extent, block: u32) -> Extent
    requires order { run.start + run.count ≤ block }
    requires small { block + 1 < 2 ^ 32 }
    requires apart { AreApart into.old.items run.start }
    requires room { vec_len into.old + run.count ≤ vec_capacity into.old }
    ensures blocks { blocks_of into.new.items ++ blocks_in result ≡ (blocks_of into.old.items ++ blocks_in run) ++ block ∷ [] }
    ensures apart { AreApart into.new.items result.start }
    ensures end { result.start + result.count ≡ block + 1 }
    ensures length { vec_len into.new + result.count ≤ vec_len into.old + run.count + 1 }
    ensures room { vec_capacity into.old ≤ vec_capacity into.new }
{
    if run.start + run.count == block {
        return Extent {
            start: run.start,
            count: run.count + 1,
        };
    }
    close(into, run);
    Extent {
        start: block,
        count: 1,
    }
}

// Adds a run that holds a block.
fn close(into: &mut Vec<Extent>, run: Extent)
    requires apart { AreApart into.old.items run.start }
    requires room { vec_len into.old + run.count ≤ vec_capacity into.old }
    ensures blocks { blocks_of into.new.items ≡ blocks_of into.old.items ++ blocks_in run }
    ensures apart { (behind : ℕ) → run.start + run.count < behind → AreApart into.new.items behind }
    ensures length { vec_len into.new ≤ vec_len into.old + run.count }
    ensures room { vec_capacity into.old ≤ vec_capacity into.new }
{
    if run.count > 0 {
        into.push(run).unwrap();
    }
}
