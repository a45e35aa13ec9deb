//! The set of used blocks.

ghost use Rattle.std.specs.Prelude.{◌≡◌, ◌↔◌, ◌≤◌, ◌<◌, [], IsTrue, IfOk, false, true, length, take, replicate, slice_set};
ghost use Rattle.std.specs.Bool.{OnTrue, OnFalse};
ghost use Rattle.std.specs.Vec.{vec_capacity};
ghost use Rattle.opfs_blocks.specs.Sets.{free_blocks, is_used, marked, blocks_of, AreBelow, AreJoined, CanAdopt};

use crate::bits::Bits;
use crate::runs::{adopt_all, has_clear, mark_all, take_clear};
use opfs_base::Extent;
use std::alloc::{AllocError, Global};
use std::marker::Model;

/// The used ones among a disk's data blocks, seen as a flag for each block, true where it is used.
#[derive(Drop)]
pub struct BlockMap {
    bits: Bits,
    // All blocks below it are used.
    place: u32,
}

impl Model for BlockMap {
    ghost use Rattle.std.specs.Prelude.{List, Bool};
    ghost use Rattle.opfs_blocks.specs.Steps.{IsFull};

    ghost Value = { List Bool };

    ghost view = { λ map. map.bits };

    ghost invariant = { λ map. IsFull map.place map.bits };
}

impl BlockMap {
    /// A map of so many blocks, all of them free.
    pub fn make(alloc: Global, size: u32) -> Result<BlockMap, AllocError>
        ensures { IfOk result (λ map. map ≡ replicate size false) }
    {
        let bits = Bits::make(alloc, size)?;
        Ok(BlockMap { bits, place: 0 })
    }

    /// Takes the free blocks of least number, in order, neighbours joined; false where too few are free. Takes no
    /// memory.
    pub fn allot(&mut self, n: u32, into: &mut Vec<Extent>) -> bool
        requires empty { into.old.items ≡ [] }
        requires room { n ≤ vec_capacity into.old }
        ensures enough { IsTrue result ↔ (n ≤ length (free_blocks self.old)) }
        ensures least { OnTrue result (blocks_of into.new.items ≡ take n (free_blocks self.old)) }
        ensures joined { OnTrue result (AreJoined into.new.items) }
        ensures used { OnTrue result (self.new ≡ marked true (blocks_of into.new.items) self.old) }
        ensures refused { OnFalse result ((self.new ≡ self.old) × (into.new.items ≡ [])) }
        ensures room { vec_capacity into.old ≤ vec_capacity into.new }
        ensures size { length self.new ≡ length self.old }
    {
        if !has_clear(&self.bits, self.place, n) {
            return false;
        }
        self.place = take_clear(&mut self.bits, self.place, n, into);
        true
    }

    /// Makes the blocks of extents free. Takes no memory.
    pub fn give_back(&mut self, extents: &[Extent])
        requires { AreBelow (length self.old) (blocks_of extents.now) }
        ensures free { self.new ≡ marked false (blocks_of extents.now) self.old }
        ensures size { length self.new ≡ length self.old }
    {
        let lowest = mark_all(&mut self.bits, extents, false);
        self.place = self.place.min(lowest);
    }

    /// Whether a block is used. One at or past the size is.
    pub fn is_used(&self, block: u32) -> bool
        ensures { result ≡ is_used self.now block }
    {
        block >= self.bits.len() || self.bits.get(block)
    }

    /// Makes one block used or free.
    pub fn put(&mut self, block: u32, used: bool)
        requires { block < length self.old }
        ensures put { self.new ≡ slice_set self.old block used }
        ensures size { length self.new ≡ length self.old }
    {
        self.bits.set(block, used);
        self.place = self.place.min(block);
    }

    /// Makes the blocks of extents used, whether they were used already or not.
    pub fn mark(&mut self, extents: &[Extent])
        requires { AreBelow (length self.old) (blocks_of extents.now) }
        ensures used { self.new ≡ marked true (blocks_of extents.now) self.old }
        ensures size { length self.new ≡ length self.old }
    {
        let _lowest = mark_all(&mut self.bits, extents, true);
    }

    /// Makes all blocks free. Takes no memory.
    pub fn clear(&mut self)
        ensures { self.new ≡ replicate (length self.old) false }
    {
        self.bits.clear();
        self.place = 0;
    }

    /// Makes the blocks of extents used; false, with nothing changed, where one is used already, named twice or not
    /// below the size. Takes no memory.
    pub fn adopt(&mut self, extents: &[Extent]) -> bool
        ensures exact { IsTrue result ↔ CanAdopt self.old (blocks_of extents.now) }
        ensures used { OnTrue result (self.new ≡ marked true (blocks_of extents.now) self.old) }
        ensures refused { OnFalse result (self.new ≡ self.old) }
        ensures size { length self.new ≡ length self.old }
    {
        adopt_all(&mut self.bits, extents)
    }
}
