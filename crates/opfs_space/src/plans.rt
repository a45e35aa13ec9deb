//! Which pages a call writes again in their own blocks.

ghost use Rattle.std.specs.Prelude.{◌≡◌, ℕ, ◌+◌, ◌^◌, ◌<◌, ◌≤◌, Option, Some, None, true, option_map, length, IsTrue};
ghost use Rattle.opfs_space.specs.Holders.{AreAllBelow};
ghost use Rattle.opfs_space.specs.Plans.{own_block, AreAlike};

use crate::Space;
use opfs_data::Swap;

impl Space {
    /// The block in which a page of an open row is written again: its own, where it alone has it. None where the page wants
    /// another block, or is not there. Takes no memory.
    pub fn own_block(&self, swap: &Swap, agent: u32, row: u32, page: u64) -> Option<u32>
        requires { AreAllBelow (length self.now.used) swap.now }
        ensures { result ≡ own_block self.now.own swap.now agent row page }
    {
        if page >= swap.len(agent, row) {
            return None;
        }
        let block = swap.block(agent, row, page)?;
        if self.is_own(block) {
            return Some(block);
        }
        None
    }

    /// How many pages of a row from one on, at most so many, are written alike: all into other blocks, or into their own,
    /// which are neighbours. Takes no memory.
    pub fn alike(&self, swap: &Swap, agent: u32, row: u32, page: u64, most: u32) -> u32
        requires below { AreAllBelow (length self.now.used) swap.now }
        requires some { 0 < most }
        requires small { page + most < 2 ^ 63 }
        ensures some { 0 < result }
        ensures most { result ≤ most }
        ensures alike { AreAlike self.now.own swap.now agent row page result }
        ensures blocks { (b : ℕ) → own_block self.now.own swap.now agent row page ≡ Some b → b + result ≤ 2 ^ 32 }
    {
        let first = self.own_block(swap, agent, row, page);
        let mut count = 1;
        while count < most {
            let next = self.own_block(swap, agent, row, page + count as u64);
            if !follows(first, count, next) {
                return count;
            }
            count += 1;
        }
        count
    }
}

// Whether a page's own block is the one so many places behind another, or neither is told.
fn follows(first: Option<u32>, count: u32, next: Option<u32>) -> bool
    ensures { IsTrue result → next ≡ option_map (λ b. b + count) first }
{
    match (first, next) {
        (None, None) => true,
        (Some(first), Some(next)) => first.checked_add(count) == Some(next),
        _ => false,
    }
}
