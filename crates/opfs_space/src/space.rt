// The space of data blocks.
ghost use Rattle.std.specs.Prelude.{◌≡◌, ◌↔◌, ◌≤◌, ◌<◌, ℕ, [], IsTrue, IfOk, false, true, length, take, replicate, slice_index_or};
ghost use Rattle.std.specs.Bool.{OnTrue, OnFalse};
ghost use Rattle.std.specs.List.{AllByRecursion};
ghost use Rattle.std.specs.Vec.{vec_capacity};
ghost use Rattle.opfs_blocks.specs.Sets.{free_blocks, marked, blocks_of, AreBelow, AreJoined};
ghost use Rattle.opfs_data.specs.Rows.{pages_at, AreInOrder};
ghost use Rattle.opfs_records.specs.Replay.Built.{named, has_block};
ghost use Rattle.opfs_space.specs.Spaces.{is_own, block_seen, pages_seen, IsBelow};
ghost use Rattle.opfs_space.specs.Holders.{AreAllBelow, AreSwept, all_pages};

use opfs_base::Extent;
use opfs_blocks::BlockMap;
use opfs_data::Swap;
use opfs_tree::{ReadyTree, Walk};
use std::alloc::{AllocError, Global};
use std::marker::Model;
use std::mem;

/// The data blocks of a disk: which are used, and which one page of an open row alone has. A sweep finds both anew: `begin`,
/// then the files' blocks, then the pages of each open row, and `end`. Without `end` it is a look, which leaves the used
/// blocks as they are.
#[derive(Drop)]
pub struct Space {
    used: BlockMap,
    own: BlockMap,
    seen: BlockMap,
}

impl Model for Space {
    ghost use Rattle.std.specs.Prelude.{◌≡◌, length};
    ghost use Rattle.opfs_space.specs.Spaces.{SpaceSeen};

    ghost Value = { SpaceSeen };

    ghost view = { λ space. record { used = space.used; own = space.own; seen = space.seen } };

    ghost invariant = { λ space. (length space.own ≡ length space.used) × (length space.seen ≡ length space.used) };
}

impl Space {
    /// A space with these used blocks, of which none is a page's alone.
    pub fn make(alloc: Global, size: u32, used: BlockMap) -> Result<Space, AllocError>
        requires { length used ≡ size }
        ensures used { IfOk result (λ space. space.used ≡ used) }
        ensures own { IfOk result (λ space. space.own ≡ replicate size false) }
    {
        let own = BlockMap::make(alloc, size)?;
        let seen = BlockMap::make(alloc, size)?;
        Ok(Space { used, own, seen })
    }

    /// What the type keeps: own blocks are among as many as used ones.
    pub fn know_kept(&self)
        ensures { length self.now.own ≡ length self.now.used }
    {
        let _ = &self.used;
    }

    /// Whether one page alone has a block, and no file.
    pub fn is_own(&self, block: u32) -> bool
        requires { block < length self.now.used }
        ensures { result ≡ is_own self.now.own block }
    {
        let _ = &self.used;
        self.own.is_used(block)
    }

    /// Takes the free blocks of least number for pages, neighbours joined; false where too few are free. Takes no memory.
    pub fn allot(&mut self, n: u32, into: &mut Vec<Extent>) -> bool
        requires empty { into.old.items ≡ [] }
        requires room { n ≤ vec_capacity into.old }
        ensures enough { IsTrue result ↔ (n ≤ length (free_blocks self.old.used)) }
        ensures least { OnTrue result (blocks_of into.new.items ≡ take n (free_blocks self.old.used)) }
        ensures joined { OnTrue result (AreJoined into.new.items) }
        ensures taken { OnTrue result (self.new ≡ record self.old { used = marked true (blocks_of into.new.items) self.old.used; own = marked true (blocks_of into.new.items) self.old.own }) }
        ensures refused { OnFalse result ((self.new ≡ self.old) × (into.new.items ≡ [])) }
        ensures capacity { vec_capacity into.old ≤ vec_capacity into.new }
    {
        if !self.used.allot(n, into) {
            return false;
        }
        self.own.mark(into);
        true
    }

    /// A file has these blocks now: they are no page's alone. Takes no memory.
    pub fn hold(&mut self, extents: &[Extent])
        requires { AreBelow (length self.old.used) (blocks_of extents.now) }
        ensures { self.new ≡ record self.old { own = marked false (blocks_of extents.now) self.old.own } }
    {
        let _ = &self.used;
        self.own.give_back(extents);
    }

    /// Frees the blocks of extents but for those of others, which are used. Takes no memory.
    pub fn give_back(&mut self, gone: &[Extent], kept: &[Extent])
        requires gone { AreBelow (length self.old.used) (blocks_of gone.now) }
        requires kept { AreBelow (length self.old.used) (blocks_of kept.now) }
        ensures { self.new ≡ record self.old { used = marked true (blocks_of kept.now) (marked false (blocks_of gone.now) self.old.used) } }
    {
        self.used.give_back(gone);
        self.used.mark(kept);
    }

    /// Begins a sweep: nothing is seen yet. Takes no memory.
    pub fn begin(&mut self)
        ensures { self.new ≡ record self.old { own = replicate (length self.old.used) false; seen = replicate (length self.old.used) false } }
    {
        let _ = &self.used;
        self.own.clear();
        self.seen.clear();
    }

    /// Sees the blocks of a file, before those of all pages. Takes no memory.
    pub fn see_file(&mut self, extents: &[Extent])
        requires { AreBelow (length self.old.used) (blocks_of extents.now) }
        ensures { self.new ≡ record self.old { seen = marked true (blocks_of extents.now) self.old.seen } }
    {
        let _ = &self.used;
        self.seen.mark(extents);
    }

    /// Sees the pages of an open row, of which there are so many. Takes no memory.
    pub fn see_row(&mut self, swap: &Swap, agent: u32, row: u32, pages: u64)
        requires pages { pages ≡ length (pages_at agent row swap.now) }
        requires below { AllByRecursion (λ page. IsBelow (length self.old.used) page.block) (pages_at agent row swap.now) }
        ensures { self.new ≡ pages_seen (pages_at agent row swap.now) self.old }
    {
        for page in 0..pages {
            self.see_block(swap.block(agent, row, page));
        }
    }

    /// Sees the files of all rows, before all pages; a place that stands ready has none. Takes no memory.
    pub fn see_tree(&mut self, tree: &ReadyTree)
        requires { AreBelow (length self.old.used) (named tree.now.rows) }
        ensures { self.new ≡ record self.old { seen = marked true (named tree.now.rows) self.old.seen } }
    {
        let mut walk = Walk::make();
        while let Some(row) = tree.step(&mut walk) {
            self.see_file(row.extents());
        }
    }

    /// Sees the pages of all open rows. Takes no memory.
    pub fn see_rows(&mut self, swap: &Swap)
        requires { AreAllBelow (length self.old.used) swap.now }
        ensures seen { self.new ≡ pages_seen (all_pages swap.now) self.old }
        ensures order { AreInOrder swap.now }
    {
        let mut next = swap.next_row(None);
        while let Some((agent, row, pages)) = next {
            self.see_row(swap, agent, row, pages);
            next = swap.next_row(Some((agent, row)));
        }
    }

    /// Finds anew which blocks one page alone has, and no file. Takes no memory.
    pub fn look(&mut self, tree: &ReadyTree, swap: &Swap)
        requires files { AreBelow (length self.old.used) (named tree.now.rows) }
        requires pages { AreAllBelow (length self.old.used) swap.now }
        ensures used { self.new.used ≡ self.old.used }
        ensures found { AreSwept (length self.old.used) (has_block (named tree.now.rows)) swap.now self.new.seen self.new.own }
    {
        self.begin();
        self.see_tree(tree);
        self.see_rows(swap);
    }

    /// Finds anew which blocks are used: those of files, and those of pages, of which one page alone may have some. All
    /// others are free. Takes no memory.
    pub fn sweep(&mut self, tree: &ReadyTree, swap: &Swap)
        requires files { AreBelow (length self.old.used) (named tree.now.rows) }
        requires pages { AreAllBelow (length self.old.used) swap.now }
        ensures found { AreSwept (length self.old.used) (has_block (named tree.now.rows)) swap.now self.new.used self.new.own }
        ensures size { length self.new.used ≡ length self.old.used }
    {
        self.look(tree, swap);
        self.end();
    }

    // Sees a page's block.
    fn see_block(&mut self, block: Option<u32>)
        requires { IsBelow (length self.old.used) block }
        ensures seen { self.new ≡ block_seen block self.old }
        ensures size { length self.new.used ≡ length self.old.used }
    {
        let _ = &self.used;
        let Some(block) = block else {
            return;
        };
        let alone = !self.seen.is_used(block);
        self.own.put(block, alone);
        self.seen.put(block, true);
    }

    /// Ends a sweep: what was seen is used. Takes no memory.
    pub fn end(&mut self)
        ensures { self.new ≡ record self.old { used = self.old.seen; seen = self.old.used } }
    {
        mem::swap(&mut self.used, &mut self.seen);
    }
}
