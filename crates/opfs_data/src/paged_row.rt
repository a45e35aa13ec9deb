//! The pages of an open row, in blocks.

ghost use Rattle.std.specs.Prelude.{◌≡◌, ◌+◌, ◌*◌, ◌^◌, ◌<◌, ◌≤◌, ℕ, List, None, true, false, length, is_some, IsTrue, count_by, slice_index_or, IfOk, OnOk, OnErr, IsErrOf, MatchOption};
ghost use Rattle.std.specs.List.{AllByRecursion};
ghost use Rattle.opfs_outside.specs.Faults.{Rose};
ghost use Rattle.opfs_data.specs.Calls.{Reads, Writes};
ghost use Rattle.opfs_data.specs.Places.{AllLie};
ghost use Rattle.opfs_data.specs.declared.page.Page.{Page};
ghost use Rattle.opfs_data.specs.Writes.{page_writes, AreWithin};
ghost use Rattle.opfs_data.specs.Pages.{block_bytes, page_of, blank, is_plain, runs_of, resized, with_writes, pages_in, NamesPage, HasAgain, AreOnce, AreSaved, AreNow, AreOwn, IsApart, LiesIn, IsDataPart, ArePlaced};

use crate::page::{Page, SavedPage};
use crate::pages::read_page;
use crate::placing::open_pages;
use crate::row::{save_pages, write_row};
use crate::{DataRefusal, PageWrites};
use opfs_base::Extent;
use opfs_journal::{DiskFault, Journal};
use opfs_outside::Disk;
use std::alloc::{AllocError, Global};
use std::marker::Model;

/// The pages of an open row: which block each one has, and the bytes that are kept of it since a write failed. What is
/// prepared for the next write is the room for pages and the bytes of those that it writes again in their own block.
#[derive(Drop)]
pub struct PagedRow {
    pages: Vec<Page>,
    // how many of them have kept bytes
    kept: u64,
    // so many of the first ones have a block each
    placed: u64,
    saved: Option<Vec<SavedPage>>,
}

impl Model for PagedRow {
    ghost use Rattle.std.specs.Prelude.{◌≡◌, option_map, count_by, is_some};
    ghost use Rattle.std.specs.Vec.{vec_capacity};
    ghost use Rattle.opfs_data.specs.Pages.{RowSeen, ArePlaced};

    ghost Value = { RowSeen };

    ghost view = { λ row. record { pages = row.pages.items; room = vec_capacity row.pages; saved = option_map (λ saved. saved.items) row.saved } };

    ghost invariant = { λ row. (row.kept ≡ count_by (λ page. is_some page.kept) row.pages.items) × ArePlaced row.placed row.pages.items };
}

// How many pages have kept bytes.
fn count_kept(pages: &[Page]) -> u64
    ensures { result ≡ count_by (λ page. is_some page.kept) pages.now }
{
    pages.iter().filter(|page| page.kept.is_some()).count() as u64
}

// The same, at once where nothing was kept before a write that kept nothing.
fn count_left(before: u64, pages: &[Page]) -> u64
    requires { before ≡ 0 → count_by (λ page. is_some page.kept) pages.now ≡ 0 }
    ensures { result ≡ count_by (λ page. is_some page.kept) pages.now }
{
    if before == 0 {
        return 0;
    }
    count_kept(pages)
}

// Whether a page is there and has a block.
fn has_block(pages: &[Page], page: u64) -> bool
    ensures there { IsTrue result → page < length pages.now }
    ensures block { IsTrue result → is_some (slice_index_or pages.now page blank).block ≡ true }
{
    match pages.get(page as usize) {
        Some(page) => page.block.is_some(),
        None => false,
    }
}

// How many of the first pages have a block each, where so many are known to.
fn count_placed(pages: &[Page], known: u64) -> u64
    requires { ArePlaced known pages.now }
    ensures { ArePlaced result pages.now }
{
    let mut count = known;
    while has_block(pages, count) {
        count += 1;
    }
    count
}

impl PagedRow {
    /// Pages that have the blocks of runs in order, and nothing is kept of them.
    pub fn make(alloc: Global, extents: &[Extent]) -> Result<PagedRow, AllocError>
        requires { AllByRecursion (λ extent. extent.start + extent.count ≤ 2 ^ 32) extents.now }
        ensures pages { IfOk result (λ row. row.pages ≡ pages_in extents.now) }
        ensures none { IfOk result (λ row. row.saved ≡ None) }
    {
        let pages = open_pages(alloc, extents)?;
        let kept = count_kept(&pages);
        let placed = count_placed(&pages, 0);
        Ok(PagedRow {
            pages,
            kept,
            placed,
            saved: None,
        })
    }

    /// How many pages there are.
    pub fn len(&self) -> u64
        ensures { result ≡ length self.now.pages }
    {
        self.pages.len() as u64
    }

    /// The number of pages with kept bytes. It is known, and so costs nothing.
    pub fn kept(&self) -> u64
        ensures { result ≡ count_by (λ page. is_some page.kept) self.now.pages }
    {
        self.kept
    }

    /// The pages.
    pub fn pages(&self) -> &[Page]
        ensures { result.now ≡ self.now.pages }
    {
        self.pages.as_slice()
    }

    /// So many of the first pages have a block each, and nothing is kept of them. It is known, and so costs nothing.
    pub fn plain_front(&self) -> u64
        ensures { (i : ℕ) → i < result → is_plain (slice_index_or self.now.pages i blank) ≡ true }
    {
        if self.kept > 0 {
            return 0;
        }
        self.placed
    }

    /// The block of a page; None where it has none.
    pub fn block(&self, page: u64) -> Option<u32>
        requires { page < length self.now.pages }
        ensures { result ≡ (slice_index_or self.now.pages page blank).block }
    {
        self.pages[page as usize].block
    }

    /// Whether nothing is stored of a page: it has neither a block nor kept bytes, or is not there.
    pub fn is_blank(&self, page: u64) -> bool
        ensures { IsTrue result → slice_index_or self.now.pages page blank ≡ blank }
    {
        match self.pages.get(page as usize) {
            Some(page) => page.block.is_none() && page.kept.is_none(),
            None => true,
        }
    }

    /// Whether a page has a block and nothing is kept of it, so that the block has its bytes.
    pub fn is_plain(&self, page: u64) -> bool
        ensures { IsTrue result → is_plain (slice_index_or self.now.pages page blank) ≡ true }
    {
        match self.pages.get(page as usize) {
            Some(page) => page.block.is_some() && page.kept.is_none(),
            None => false,
        }
    }

    /// Reads a page: the bytes that are kept of it, or those of its block, or zeros. Block 0 begins at byte `base` of the
    /// disk. Takes no memory.
    pub fn read<D: Disk>(
        &self,
        journal: &mut Journal<D>,
        base: u64,
        page: u64,
        into: &mut [u8],
    ) -> Result<(), DiskFault>
        requires there { page < length self.now.pages }
        requires whole { length into.old ≡ 4096 }
        requires lies { LiesIn base (D.size journal.old.disk) (slice_index_or self.now.pages page blank).block }
        requires part { IsDataPart journal.old.areas base }
        ensures reads { Reads D.Disk journal.old journal.new }
        ensures read { OnOk result (D.tells → into.new ≡ page_of (D.content journal.old.disk) base (slice_index_or self.now.pages page blank)) }
        ensures cause { OnErr result (Rose (D.faults journal.old.disk) (D.faults journal.new.disk)) }
    {
        read_page(journal, base, &self.pages[page as usize], into)?;
        Ok(())
    }

    /// Takes all memory of a write that leaves so many pages, and saves the bytes of each page that it writes again in its
    /// own block. The pages are as before.
    pub fn prepare<D: Disk>(
        &mut self,
        alloc: Global,
        journal: &mut Journal<D>,
        base: u64,
        pages: u64,
        writes: &PageWrites,
    ) -> Result<(), DataRefusal>
        requires lies { AllByRecursion (λ page. LiesIn base (D.size journal.old.disk) page.block) self.old.pages }
        requires part { IsDataPart journal.old.areas base }
        ensures same { self.new.pages ≡ self.old.pages }
        ensures room { OnOk result (pages ≤ self.new.room) }
        ensures saved { OnOk result (MatchOption self.new.saved ⊥ (λ saved. (given : List ℕ) → AreSaved saved self.new.pages (page_writes writes.now given))) }
        ensures now { OnOk result (D.tells → MatchOption self.new.saved ⊥ (λ saved. AreNow (D.content journal.new.disk) base self.new.pages saved)) }
        ensures reads { Reads D.Disk journal.old journal.new }
        ensures cause { IsErrOf result DataRefusal.DiskFault → Rose (D.faults journal.old.disk) (D.faults journal.new.disk) }
    {
        let missing = (pages as usize).saturating_sub(self.pages.len());
        self.pages.reserve(missing)?;
        let saved = save_pages(alloc, journal, base, &self.pages, writes.runs())?;
        self.saved = Some(saved);
        Ok(())
    }

    /// Writes the pages of a list that is prepared into their blocks, and leaves so many pages; new ones that the list does
    /// not name have no block. Where the disk fails each page reads as before. Nothing is prepared then. Takes no memory.
    pub fn write<D: Disk>(
        &mut self,
        journal: &mut Journal<D>,
        base: u64,
        pages: u64,
        writes: &PageWrites,
        given: &[u8],
    ) -> Result<(), DiskFault>
        requires settled { journal.old.in_doubt ≡ false }
        requires lies { AllLie base (D.size journal.old.disk) (runs_of (page_writes writes.now given.now)) }
        requires part { IsDataPart journal.old.areas base }
        requires within { AreWithin writes.now.own given.now writes.now.runs }
        requires once { AreOnce (page_writes writes.now given.now) }
        requires inside { AllByRecursion (λ w. w.page < pages) (page_writes writes.now given.now) }
        requires room { pages ≤ self.old.room }
        requires saved { MatchOption self.old.saved ⊥ (λ saved. AreSaved saved self.old.pages (page_writes writes.now given.now)) }
        requires now { D.tells → MatchOption self.old.saved ⊥ (λ saved. AreNow (D.content journal.old.disk) base self.old.pages saved) }
        requires own { AreOwn self.old.pages (page_writes writes.now given.now) }
        ensures none { self.new.saved ≡ None }
        ensures pages { OnOk result (self.new.pages ≡ with_writes (page_writes writes.now given.now) (resized pages self.old.pages)) }
        ensures size { OnOk result (length self.new.pages ≡ pages) }
        ensures fresh { OnOk result ((j : ℕ) → length self.old.pages ≤ j → j < pages → (NamesPage (page_writes writes.now given.now) j → ⊥) → slice_index_or self.new.pages j blank ≡ blank) }
        ensures bytes { OnOk result (D.tells → AllByRecursion (λ w. block_bytes (D.content journal.new.disk) base w.block ≡ w.bytes) (page_writes writes.now given.now)) }
        ensures given { OnOk result (D.tells → AllByRecursion (λ w. page_of (D.content journal.new.disk) base (slice_index_or self.new.pages w.page blank) ≡ w.bytes) (page_writes writes.now given.now)) }
        ensures rest { OnOk result (D.tells → (j : ℕ) → j < pages → j < length self.old.pages → (NamesPage (page_writes writes.now given.now) j → ⊥)
            → page_of (D.content journal.new.disk) base (slice_index_or self.new.pages j blank) ≡ page_of (D.content journal.old.disk) base (slice_index_or self.old.pages j blank)) }
        ensures left { OnErr result (D.tells → (j : ℕ) → j < length self.old.pages
            → page_of (D.content journal.new.disk) base (slice_index_or self.new.pages j blank) ≡ page_of (D.content journal.old.disk) base (slice_index_or self.old.pages j blank)) }
        ensures len { OnErr result (length self.new.pages ≡ length self.old.pages) }
        ensures blocks { OnErr result ((j : ℕ) → (slice_index_or self.new.pages j blank).block ≡ (slice_index_or self.old.pages j blank).block) }
        ensures newly { OnErr result ((j : ℕ) → (HasAgain self.old.pages (page_writes writes.now given.now) j → ⊥)
            → slice_index_or self.new.pages j blank ≡ slice_index_or self.old.pages j blank) }
        ensures apart { D.tells → (page : Page) → IsApart page (page_writes writes.now given.now) → page_of (D.content journal.new.disk) base page ≡ page_of (D.content journal.old.disk) base page }
        ensures writes { Writes D.Disk base (runs_of (page_writes writes.now given.now)) journal.old journal.new }
        ensures cause { OnErr result (Rose (D.faults journal.old.disk) (D.faults journal.new.disk)) }
    {
        let Some(saved) = self.saved.take() else {
            unreachable!();
        };
        let count = pages as usize;
        if write_row(journal, base, &mut self.pages, saved, count, writes, given).is_err() {
            self.kept = count_kept(&self.pages);
            return Err(DiskFault);
        }
        self.kept = count_left(self.kept, &self.pages);
        self.placed = count_placed(&self.pages, self.placed.min(pages));
        Ok(())
    }
}
