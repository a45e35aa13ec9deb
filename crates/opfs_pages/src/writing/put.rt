//! A put of pages.

ghost use Rattle.std.specs.Prelude.{◌≡◌, ◌+◌, ◌≤◌, ◌<◌, ◌↔◌, ℕ, List, [], true, false, length, is_some, IsTrue, IfOk, OnOk, OnErr, IsErrOf};
ghost use Rattle.std.specs.Bool.{OnTrue, OnFalse};
ghost use Rattle.std.specs.List.{AllByRecursion};
ghost use Rattle.std.specs.Vec.{vec_capacity};
ghost use Rattle.opfs_blocks.specs.Sets.{free_blocks};
ghost use Rattle.opfs_data.specs.Calls.{Reads, Writes};
ghost use Rattle.opfs_data.specs.Pages.{runs_of, LiesIn, IsDataPart};
ghost use Rattle.opfs_data.specs.Rows.{row_of, pages_at};
ghost use Rattle.opfs_data.specs.Writes.{HasBytes, page_writes, page_moves};
ghost use Rattle.opfs_outside.specs.Faults.{Rose};
ghost use Rattle.opfs_pages.specs.Writing.Puts.{HasSamePages, IsReady, IsTaken, IsPlaced, IsPut, IsNotPut, all_writes};

use opfs_base::Extent;
use opfs_data::{DataRefusal, PageWrites, Swap};
use opfs_journal::{DiskFault, Journal};
use opfs_outside::Disk;
use opfs_space::Space;
use std::alloc::{AllocError, Global};

/// Pages of a row that are to be put, with all memory that this takes.
#[derive(Drop)]
pub struct Put {
    /// The pages.
    pub writes: PageWrites,
    /// How many of them get another block.
    pub moves: u32,
    /// The runs of these blocks, once they are taken.
    pub extents: Vec<Extent>,
    /// How many pages the row has afterwards.
    pub pages: u64,
    /// Whether the blocks are taken.
    pub taken: bool,
}

/// How many pages a put leaves a row, and whose it is.
#[derive(Clone, Copy)]
pub struct RowPages {
    pub agent: u32,
    pub row: u32,
    pub pages: u64,
}

// The pages with memory for the runs of new blocks.
fn with_room(alloc: Global, writes: PageWrites, pages: u64) -> Result<Put, AllocError>
    ensures same { IfOk result (λ put. (given : List ℕ) → (page_writes put.writes given ≡ page_writes writes given) × (page_moves put.writes given ≡ page_moves writes given)) }
    ensures bytes { IfOk result (λ put. (given : List ℕ) → HasBytes writes given → HasBytes put.writes given) }
    ensures count { IfOk result (λ put. (given : List ℕ) → length (page_moves put.writes given) ≡ put.moves) }
    ensures places { IfOk result (λ put. length put.writes.runs + length put.writes.moves + put.moves ≤ put.writes.room) }
    ensures room { IfOk result (λ put. put.moves ≤ vec_capacity put.extents) }
    ensures empty { IfOk result (λ put. put.extents.items ≡ []) }
    ensures pages { IfOk result (λ put. put.pages ≡ pages) }
{
    let Some(moves) = writes.moved() else {
        return Err(AllocError);
    };
    let mut writes = writes;
    writes.reserve(moves)?;
    let mut extents = Vec::new(alloc);
    extents.reserve(moves as usize)?;
    Ok(Put {
        writes,
        moves,
        extents,
        pages,
        taken: false,
    })
}

impl Put {
    /// Takes all memory of a put that leaves a row so many pages, and saves the bytes of each page that it writes again in
    /// its own block. The pages are as before.
    pub fn ready<D: Disk>(
        alloc: Global,
        swap: &mut Swap,
        journal: &mut Journal<D>,
        base: u64,
        wanted: &RowPages,
        writes: PageWrites,
    ) -> Result<Put, DataRefusal>
        requires there { is_some (row_of wanted.now.agent wanted.now.row swap.old) ≡ true }
        requires lies { AllByRecursion (λ page. LiesIn base (D.size journal.old.disk) page.block) (pages_at wanted.now.agent wanted.now.row swap.old) }
        requires part { IsDataPart journal.old.areas base }
        ensures pages { HasSamePages wanted.now.agent wanted.now.row swap.old swap.new }
        ensures ready { IfOk result (λ put. IsReady D.tells (D.content journal.new.disk) base swap.new wanted.now.agent wanted.now.row wanted.now.pages put.writes put.moves (vec_capacity put.extents)) }
        ensures same { IfOk result (λ put. (given : List ℕ) → (page_writes put.writes given ≡ page_writes writes given) × (page_moves put.writes given ≡ page_moves writes given)) }
        ensures bytes { IfOk result (λ put. (given : List ℕ) → HasBytes writes given → HasBytes put.writes given) }
        ensures empty { IfOk result (λ put. put.extents.items ≡ []) }
        ensures count { IfOk result (λ put. put.pages ≡ wanted.now.pages) }
        ensures reads { Reads D.Disk journal.old journal.new }
        ensures cause { IsErrOf result DataRefusal.DiskFault → Rose (D.faults journal.old.disk) (D.faults journal.new.disk) }
    {
        let put = with_room(alloc, writes, wanted.pages)?;
        swap.prepare(
            alloc,
            journal,
            base,
            wanted.agent,
            wanted.row,
            wanted.pages,
            &put.writes,
        )?;
        Ok(put)
    }

    /// Takes the blocks for the pages that get another one; false where too few are free. Takes no memory.
    pub fn take(&mut self, space: &mut Space) -> bool
        requires empty { self.old.extents.items ≡ [] }
        requires room { self.old.moves ≤ vec_capacity self.old.extents }
        ensures enough { IsTrue result ↔ (self.old.moves ≤ length (free_blocks space.old.used)) }
        ensures taken { OnTrue result (IsTaken space.old space.new self.old.moves self.new.extents.items) }
        ensures refused { OnFalse result ((space.new ≡ space.old) × (self.new.extents.items ≡ [])) }
        ensures writes { self.new.writes ≡ self.old.writes }
        ensures flag { self.new.taken ≡ result }
        ensures moves { self.new.moves ≡ self.old.moves }
        ensures pages { self.new.pages ≡ self.old.pages }
        ensures capacity { vec_capacity self.old.extents ≤ vec_capacity self.new.extents }
    {
        self.taken = space.allot(self.moves, &mut self.extents);
        self.taken
    }

    /// Puts the pages into their blocks, and leaves the row its pages; new ones that are not named have no block. Where the
    /// disk fails each page of each row reads as before. Takes no memory.
    pub fn write<D: Disk>(
        &mut self,
        swap: &mut Swap,
        journal: &mut Journal<D>,
        base: u64,
        agent: u32,
        row: u32,
        given: &[u8],
    ) -> Result<(), DiskFault>
        requires settled { journal.old.in_doubt ≡ false }
        requires part { IsDataPart journal.old.areas base }
        requires ready { IsReady D.tells (D.content journal.old.disk) base swap.old agent row self.old.pages self.old.writes self.old.moves (vec_capacity self.old.extents) }
        requires bytes { HasBytes self.old.writes given.now }
        requires placed { IsPlaced base (D.size journal.old.disk) swap.old agent row self.old.pages self.old.writes given.now self.old.extents.items }
        ensures put { OnOk result (IsPut D.tells base (D.content journal.old.disk) (D.content journal.new.disk) swap.old swap.new agent row self.old.pages (all_writes self.old.writes given.now self.old.extents.items)) }
        ensures not_put { OnErr result (IsNotPut D.tells base (D.content journal.old.disk) (D.content journal.new.disk) swap.old swap.new agent row) }
        ensures writes { Writes D.Disk base (runs_of (all_writes self.old.writes given.now self.old.extents.items)) journal.old journal.new }
        ensures cause { OnErr result (Rose (D.faults journal.old.disk) (D.faults journal.new.disk)) }
    {
        self.writes.place_all(&self.extents);
        swap.write(journal, base, agent, row, self.pages, &self.writes, given)?;
        Ok(())
    }
}
