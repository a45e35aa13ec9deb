//! Pages that are to be written.

ghost use Rattle.std.specs.Prelude.{◌≡◌, ◌++◌, ◌∷◌, [], ◌+◌, ◌*◌, ◌^◌, ◌<◌, ◌≤◌, ℕ, List, length, drop, IfOk, IfSome, OnOk, OnErr, slice_index_or};
ghost use Rattle.std.specs.List.{AllByRecursion};
ghost use Rattle.opfs_data.specs.Writes.{Run, IsRun, PageWrite, WriteList, HasBytes, page_writes, page_moves, writes_of, run_writes, run_pages, placed, blocks_in};
ghost use Rattle.opfs_data.specs.declared.page_run.Source.{Source};

use crate::page_run::{PageRun, Source};
use crate::places::place_runs;
use opfs_base::Extent;
use std::alloc::{AllocError, Global};
use std::marker::Model;

/// Pages that are to be written, in runs of neighbouring pages that go into neighbouring blocks. Their bytes are those of
/// the call, which the list does not have, or the list's own. Pages without a block yet get theirs by `place_all`.
#[derive(Drop)]
pub struct PageWrites {
    runs: Vec<PageRun>,
    moves: Vec<PageRun>,
    own: Vec<u8>,
}

impl Model for PageWrites {
    ghost use Rattle.std.specs.Vec.{vec_capacity};
    ghost use Rattle.std.specs.List.{AllByRecursion};
    ghost use Rattle.opfs_data.specs.Writes.{WriteList, IsOwnWithin};

    ghost Value = { WriteList };

    ghost view = { λ w. record { runs = w.runs.items; moves = w.moves.items; own = w.own.items; room = vec_capacity w.runs } };

    ghost invariant = { λ w. AllByRecursion (IsOwnWithin w.own.items) w.runs.items × AllByRecursion (IsOwnWithin w.own.items) w.moves.items };
}

impl PageWrites {
    /// No pages. Takes no memory.
    pub fn make(alloc: Global) -> PageWrites
        ensures runs { result.runs ≡ [] }
        ensures moves { result.moves ≡ [] }
        ensures own { result.own ≡ [] }
        ensures bytes { (given : List ℕ) → HasBytes result given }
    {
        PageWrites {
            runs: Vec::new(alloc),
            moves: Vec::new(alloc),
            own: Vec::new(alloc),
        }
    }

    /// Adds pages of the call's bytes from a byte on, which go into blocks from one on. Where there is no memory the list is
    /// as before.
    pub fn add(&mut self, page: u64, count: u32, block: u32, from: u64) -> Result<(), AllocError>
        requires { IsRun (record { page = page; count = count; block = block; from = from; source = Source.Given }) }
        ensures runs { OnOk result (self.new.runs ≡ self.old.runs ++ (record { page = page; count = count; block = block; from = from; source = Source.Given }) ∷ []) }
        ensures rest { (self.new.moves ≡ self.old.moves) × (self.new.own ≡ self.old.own) }
        ensures err { OnErr result (self.new.runs ≡ self.old.runs) }
        ensures bytes { OnOk result ((given : List ℕ) → from + 4096 * count ≤ length given → HasBytes self.old given → HasBytes self.new given) }
    {
        let run = PageRun::make(page, count, block, from, Source::Given);
        self.runs.push(run)?;
        Ok(())
    }

    /// The same for pages that get their blocks later.
    pub fn add_move(&mut self, page: u64, count: u32, from: u64) -> Result<(), AllocError>
        requires { IsRun (record { page = page; count = count; block = 0; from = from; source = Source.Given }) }
        ensures moves { OnOk result (self.new.moves ≡ self.old.moves ++ (record { page = page; count = count; block = 0; from = from; source = Source.Given }) ∷ []) }
        ensures rest { (self.new.runs ≡ self.old.runs) × (self.new.own ≡ self.old.own) }
        ensures err { OnErr result (self.new.moves ≡ self.old.moves) }
        ensures bytes { OnOk result ((given : List ℕ) → from + 4096 * count ≤ length given → HasBytes self.old given → HasBytes self.new given) }
    {
        let run = PageRun::make(page, count, 0, from, Source::Given);
        self.moves.push(run)?;
        Ok(())
    }

    /// Adds a page with a copy of these bytes, which goes into a block. Where there is no memory the pages are as before.
    pub fn add_own(&mut self, page: u64, block: u32, bytes: &[u8]) -> Result<(), AllocError>
        requires whole { length bytes.now ≡ 4096 }
        requires small { page + 1 < 2 ^ 63 }
        ensures added { OnOk result ((given : List ℕ) → page_writes self.new given ≡ page_writes self.old given ++ (record { page = page; block = block; bytes = bytes.now }) ∷ []) }
        ensures moves { (given : List ℕ) → page_moves self.new given ≡ page_moves self.old given }
        ensures bytes { OnOk result ((given : List ℕ) → HasBytes self.old given → HasBytes self.new given) }
        ensures err { OnErr result ((given : List ℕ) → page_writes self.new given ≡ page_writes self.old given) }
    {
        let from = self.keep(bytes)?;
        self.runs
            .push(PageRun::make(page, 1, block, from, Source::Own))?;
        Ok(())
    }

    /// The same for a page that gets its block later.
    pub fn add_own_move(&mut self, page: u64, bytes: &[u8]) -> Result<(), AllocError>
        requires whole { length bytes.now ≡ 4096 }
        requires small { page + 1 < 2 ^ 63 }
        ensures added { OnOk result ((given : List ℕ) → page_moves self.new given ≡ page_moves self.old given ++ (record { page = page; block = 0; bytes = bytes.now }) ∷ []) }
        ensures writes { (given : List ℕ) → page_writes self.new given ≡ page_writes self.old given }
        ensures bytes { OnOk result ((given : List ℕ) → HasBytes self.old given → HasBytes self.new given) }
        ensures err { OnErr result ((given : List ℕ) → page_moves self.new given ≡ page_moves self.old given) }
    {
        let from = self.keep(bytes)?;
        self.moves
            .push(PageRun::make(page, 1, 0, from, Source::Own))?;
        Ok(())
    }

    // Keeps the bytes of a page, and tells where they begin.
    fn keep(&mut self, bytes: &[u8]) -> Result<u64, AllocError>
        requires { length bytes.now ≡ 4096 }
        ensures from { IfOk result (λ from. from ≡ length self.old.own) }
        ensures small { IfOk result (λ from. from + 4096 < 2 ^ 63) }
        ensures own { OnOk result (self.new.own ≡ self.old.own ++ bytes.now) }
        ensures writes { (given : List ℕ) → page_writes self.new given ≡ page_writes self.old given }
        ensures moves { (given : List ℕ) → page_moves self.new given ≡ page_moves self.old given }
        ensures rest { self.new ≡ record self.old { own = self.new.own } }
        ensures bytes { OnOk result ((given : List ℕ) → HasBytes self.old given → HasBytes self.new given) }
    {
        let _ = &self.runs;
        let from = self.own.len() as u64;
        self.own.extend_from_slice(bytes)?;
        Ok(from)
    }

    /// How many pages get their blocks later; None where they are more than a disk has. Takes no memory.
    pub fn moved(&self) -> Option<u32>
        ensures { IfSome result (λ count. (given : List ℕ) → length (page_moves self.now given) ≡ count) }
    {
        let _ = &self.own;
        count_pages(&self.moves)
    }

    /// Makes room for the pages without a block in so many runs of blocks.
    pub fn reserve(&mut self, extents: u32) -> Result<(), AllocError>
        ensures room { OnOk result (length self.new.runs + length self.new.moves + extents ≤ self.new.room) }
        ensures same { self.new ≡ record self.old { room = self.new.room } }
        ensures bytes { (given : List ℕ) → HasBytes self.old given → HasBytes self.new given }
    {
        let more = self.moves.len() + extents as usize;
        self.runs.reserve(more)?;
        Ok(())
    }

    /// Gives the pages without a block those of runs, in order. Takes no memory.
    pub fn place_all(&mut self, extents: &[Extent])
        requires room { length self.old.runs + length self.old.moves + length extents.now ≤ self.old.room }
        requires blocks { (given : List ℕ) → length (page_moves self.old given) ≡ length (blocks_in extents.now) }
        requires some { AllByRecursion (λ e. 0 < e.count) extents.now }
        requires small { AllByRecursion (λ e. e.start + e.count ≤ 2 ^ 32) extents.now }
        ensures placed { (given : List ℕ) → page_writes self.new given ≡ page_writes self.old given ++ placed (page_moves self.old given) (blocks_in extents.now) }
        ensures none { self.new.moves ≡ [] }
        ensures bytes { (given : List ℕ) → HasBytes self.old given → HasBytes self.new given }
        ensures own { self.new.own ≡ self.old.own }
    {
        place_runs(&mut self.runs, &self.moves, extents);
        self.moves.clear();
    }

    /// The runs that have their blocks.
    pub fn runs(&self) -> &[PageRun]
        ensures { result.now ≡ self.now.runs }
    {
        let _ = &self.moves;
        self.runs.as_slice()
    }

    /// The list's own bytes.
    pub fn own(&self) -> &[u8]
        ensures { result.now ≡ self.now.own }
    {
        let _ = &self.moves;
        self.own.as_slice()
    }
}

// How many pages runs have; None where these are 2^32 or more.
fn count_pages(runs: &[PageRun]) -> Option<u32>
    ensures { IfSome result (λ count. (own given : List ℕ) → length (writes_of own given runs.now) ≡ count) }
{
    let mut count = 0u32;
    for run in runs {
        count = count.checked_add(run.count())?;
    }
    Some(count)
}
