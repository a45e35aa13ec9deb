//! One bit a block, in words of 64.

ghost use Rattle.std.specs.Prelude.{◌≡◌, ◌+◌, ◌*◌, ◌<◌, ◌≤◌, ℕ, true, false, length, replicate, slice_index, slice_index_or, slice_set, IfOk};
ghost use Rattle.opfs_blocks.specs.Words.{bit_of, flags_of};

use std::alloc::{AllocError, Global};
use std::marker::Model;

/// A flag for each block, seen as the list of them.
#[derive(Drop)]
pub struct Bits {
    words: Vec<u64>,
    size: u32,
}

impl Model for Bits {
    ghost use Rattle.std.specs.Prelude.{List, Bool, ◌≤◌, ◌*◌, length};
    ghost use Rattle.opfs_blocks.specs.Words.{flags_of};

    ghost Value = { List Bool };

    ghost view = { λ b. flags_of b.words.items b.size };

    ghost invariant = { λ b. b.size ≤ 64 * length b.words.items };
}

impl Bits {
    /// Flags that are all false.
    pub fn make(alloc: Global, size: u32) -> Result<Bits, AllocError>
        ensures { IfOk result (λ bits. bits ≡ replicate size false) }
    {
        let mut words = Vec::new(alloc);
        words.resize((size as usize).div_ceil(64), 0)?;
        Ok(Bits { words, size })
    }

    /// How many flags there are.
    pub fn len(&self) -> u32
        ensures { result ≡ length self.now }
    {
        self.size
    }

    /// A block's flag.
    pub fn get(&self, block: u32) -> bool
        requires { block < length self.now }
        ensures { result ≡ slice_index_or self.now block true }
    {
        is_set(&self.words, block)
    }

    /// Sets or clears a block's flag.
    pub fn set(&mut self, block: u32, flag: bool)
        requires { block < length self.old }
        ensures { self.new ≡ slice_set self.old block flag }
    {
        if flag {
            set_bit(&mut self.words, block);
        } else {
            clear_bit(&mut self.words, block);
        }
    }

    /// Makes all flags false.
    pub fn clear(&mut self)
        ensures { self.new ≡ replicate (length self.old) false }
    {
        clear_words(&mut self.words);
    }

    /// The first block from a place on whose flag is false, or the number of flags.
    pub fn first_clear(&self, from: u32) -> u32
        requires { from ≤ length self.now }
        ensures bounds { (from ≤ result) × (result ≤ length self.now) }
        ensures passed { (k : ℕ) → from ≤ k → k < result → slice_index_or self.now k true ≡ true }
        ensures clear { result < length self.now → slice_index_or self.now result true ≡ false }
    {
        first_clear_bit(&self.words, from, self.size)
    }
}

// Whether a block's bit is set.
fn is_set(words: &[u64], block: u32) -> bool
    requires { block < 64 * length words.now }
    ensures { result ≡ bit_of words.now block }
{
    let word = words[(block / 64) as usize];
    (word >> (block % 64)) & 1 == 1
}

// Sets a block's bit.
fn set_bit(words: &mut [u64], block: u32)
    requires { block < 64 * length words.old }
    ensures same { bit_of words.new block ≡ true }
    ensures other { (k : ℕ) → (k ≡ block → ⊥) → bit_of words.new k ≡ bit_of words.old k }
{
    words[(block / 64) as usize] |= 1 << (block % 64);
}

// Clears a block's bit.
fn clear_bit(words: &mut [u64], block: u32)
    requires { block < 64 * length words.old }
    ensures same { bit_of words.new block ≡ false }
    ensures other { (k : ℕ) → (k ≡ block → ⊥) → bit_of words.new k ≡ bit_of words.old k }
{
    words[(block / 64) as usize] &= !(1 << (block % 64));
}

// Clears the bits of all words.
fn clear_words(words: &mut [u64])
    ensures { words.new ≡ replicate (length words.old) 0 }
{
    for i in 0..words.len() {
        words[i] = 0;
    }
}

// The first block of a range whose bit is clear, or the range's end. A word whose bits are all set is passed at once.
fn first_clear_bit(words: &[u64], from: u32, end: u32) -> u32
    requires ordered { from ≤ end }
    requires within { end ≤ 64 * length words.now }
    ensures bounds { (from ≤ result) × (result ≤ end) }
    ensures passed { (k : ℕ) → from ≤ k → k < result → bit_of words.now k ≡ true }
    ensures clear { result < end → bit_of words.now result ≡ false }
{
    let mut block = from;
    while block < end {
        let word = words[(block / 64) as usize];
        let ones = (word >> (block % 64)).trailing_ones();
        if ones < 64 - block % 64 {
            return (block + ones).min(end);
        }
        block += (64 - block % 64).min(end - block);
    }
    end
}
