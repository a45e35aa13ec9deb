//! The pages of all open rows, in blocks.

ghost use Rattle.std.specs.Prelude.{◌≡◌, ◌+◌, ◌*◌, ◌-◌, ◌^◌, ◌<◌, ◌≤◌, ℕ, List, [], ◌∷◌, None, Some, true, false, length, min, is_some, slice_index_or, IfOk, OnOk, OnErr, IsErrOf, IfSome, IfNone, IsTrue, MatchOption, option_map};
ghost use Rattle.std.specs.List.{AllByRecursion, slice_get};
ghost use Rattle.opfs_outside.specs.Faults.{Rose};
ghost use Rattle.opfs_data.specs.Calls.{Reads, Writes};
ghost use Rattle.opfs_data.specs.Places.{AllLie};
ghost use Rattle.opfs_data.specs.declared.page.Page.{Page};
ghost use Rattle.opfs_data.specs.Writes.{page_writes, AreWithin};
ghost use Rattle.opfs_data.specs.Pages.{block_bytes, page_of, blank, is_plain, runs_of, resized, with_writes, pages_in, NamesPage, HasAgain, AreOnce, AreSaved, AreNow, AreOwn, IsApart, LiesIn, IsDataPart};
ghost use Rattle.opfs_data.specs.Rows.{row_of, row_at, pages_at, page_at, kept_in, kept_count, IsOther, OthersStay, AreFree, AreInOrder, rows_behind};

use crate::{DataRefusal, Page, PageWrites, PagedRow};
use opfs_base::Extent;
use opfs_journal::{DiskFault, Journal};
use opfs_outside::Disk;
use std::alloc::{AllocError, Global};
use std::collections::BTreeMap;
use std::marker::Model;
use std::ops::Bound;

/// The pages of all open rows, seen as the list of the rows, each under its agent and its number.
#[derive(Drop)]
pub struct Swap {
    rows: BTreeMap<(u32, u32), PagedRow>,
}

impl Model for Swap {
    ghost use Rattle.opfs_data.specs.Rows.{Rows};

    ghost Value = { Rows };

    ghost view = { λ swap. swap.rows.entries };
}

impl Swap {
    /// No rows. Takes no memory.
    pub fn make(alloc: Global) -> Swap
        ensures { result ≡ [] }
    {
        Swap {
            rows: BTreeMap::new(alloc),
        }
    }

    /// The number of pages with kept bytes, or 2^64 - 1 where there are more. Takes no memory.
    pub fn kept(&self) -> u64
        ensures { result ≡ min (kept_count self.now) (2 ^ 64 - 1) }
    {
        let mut count = 0u64;
        for row in self.rows.values() {
            count = count.saturating_add(row.kept());
        }
        count
    }

    /// How many pages a row has; none where it is not there. Takes no memory.
    pub fn len(&self, agent: u32, row: u32) -> u64
        ensures { result ≡ length (pages_at agent row self.now) }
    {
        match self.rows.get(&(agent, row)) {
            Some(found) => found.len(),
            None => 0,
        }
    }

    /// The pages of a row; none where it is not there. Takes no memory.
    pub fn pages(&self, agent: u32, row: u32) -> &[Page]
        ensures { result.now ≡ pages_at agent row self.now }
    {
        match self.rows.get(&(agent, row)) {
            Some(found) => found.pages(),
            None => &[],
        }
    }

    /// So many of a row's first pages have a block each, and nothing is kept of them. It is known, and so costs one look-up.
    pub fn plain_front(&self, agent: u32, row: u32) -> u64
        ensures { (i : ℕ) → i < result → is_plain (page_at agent row i self.now) ≡ true }
    {
        match self.rows.get(&(agent, row)) {
            Some(found) => found.plain_front(),
            None => 0,
        }
    }

    /// The block of a page; None where it has none. Takes no memory.
    pub fn block(&self, agent: u32, row: u32, page: u64) -> Option<u32>
        requires { page < length (pages_at agent row self.now) }
        ensures { result ≡ (page_at agent row page self.now).block }
    {
        match self.rows.get(&(agent, row)) {
            Some(found) => found.block(page),
            None => unreachable!(),
        }
    }

    /// The least open row behind one of them, or the least of all, and how many pages it has; None where there is none. Takes
    /// no memory.
    pub fn next_row(&self, after: Option<(u32, u32)>) -> Option<(u32, u32, u64)>
        ensures end { IfNone result (rows_behind after self.now ≡ []) }
        ensures next { IfSome result (λ r. rows_behind after self.now ≡ ((r.0, r.1), row_at r.0 r.1 self.now) ∷ rows_behind (Some (r.0, r.1)) self.now) }
        ensures pages { IfSome result (λ r. r.2 ≡ length (pages_at r.0 r.1 self.now)) }
        ensures order { AreInOrder self.now }
    {
        let (key, row) = self.first_behind(after)?;
        let (agent, number) = *key;
        let pages = row.len();
        Some((agent, number, pages))
    }

    // The first row behind one of them.
    fn first_behind(&self, after: Option<(u32, u32)>) -> Option<(&(u32, u32), &PagedRow)>
        ensures first { option_map (λ e. (e.0.now, e.1.now)) result ≡ slice_get (rows_behind after self.now) 0 }
        ensures order { AreInOrder self.now }
    {
        match after {
            None => {
                // That the map is in order.
                let all: (Bound<&(u32, u32)>, Bound<&(u32, u32)>) = (
                    Bound::Unbounded,
                    Bound::Unbounded,
                );
                let _rows = self.rows.range(all);
                self.rows.first_key_value()
            }
            Some(key) => self
                .rows
                .range((Bound::Excluded(&key), Bound::Unbounded))
                .next(),
        }
    }

    /// Whether nothing is stored of a page: it has neither a block nor kept bytes, or is not there. Takes no memory.
    pub fn is_blank(&self, agent: u32, row: u32, page: u64) -> bool
        ensures { IsTrue result → page_at agent row page self.now ≡ blank }
    {
        match self.rows.get(&(agent, row)) {
            Some(found) => found.is_blank(page),
            None => true,
        }
    }

    /// Whether a page has a block and nothing is kept of it, so that the block has its bytes. Takes no memory.
    pub fn is_plain(&self, agent: u32, row: u32, page: u64) -> bool
        ensures { IsTrue result → is_plain (page_at agent row page self.now) ≡ true }
    {
        match self.rows.get(&(agent, row)) {
            Some(found) => found.is_plain(page),
            None => false,
        }
    }

    /// Adds a row whose pages have the blocks of runs in order, and nothing is kept of them. Where there is no memory all
    /// is as before.
    pub fn open(
        &mut self,
        alloc: Global,
        agent: u32,
        row: u32,
        extents: &[Extent],
    ) -> Result<(), AllocError>
        requires absent { row_of agent row self.old ≡ None }
        requires lies { AllByRecursion (λ extent. extent.start + extent.count ≤ 2 ^ 32) extents.now }
        ensures there { OnOk result (is_some (row_of agent row self.new) ≡ true) }
        ensures pages { OnOk result (pages_at agent row self.new ≡ pages_in extents.now) }
        ensures none { OnOk result ((row_at agent row self.new).saved ≡ None) }
        ensures others { OthersStay agent row self.old self.new }
        ensures kept { kept_count self.new ≡ kept_count self.old }
        ensures err { OnErr result (self.new ≡ self.old) }
    {
        let pages = PagedRow::make(alloc, extents)?;
        self.rows.insert((agent, row), pages)?;
        Ok(())
    }

    /// Reads a page: the bytes that are kept of it, or those of its block, or zeros. Block 0 begins at byte `base` of the
    /// disk. Takes no memory.
    pub fn read<D: Disk>(
        &self,
        journal: &mut Journal<D>,
        base: u64,
        agent: u32,
        row: u32,
        page: u64,
        into: &mut [u8],
    ) -> Result<(), DiskFault>
        requires there { page < length (pages_at agent row self.now) }
        requires whole { length into.old ≡ 4096 }
        requires lies { LiesIn base (D.size journal.old.disk) (page_at agent row page self.now).block }
        requires part { IsDataPart journal.old.areas base }
        ensures reads { Reads D.Disk journal.old journal.new }
        ensures read { OnOk result (D.tells → into.new ≡ page_of (D.content journal.old.disk) base (page_at agent row page self.now)) }
        ensures cause { OnErr result (Rose (D.faults journal.old.disk) (D.faults journal.new.disk)) }
    {
        let Some(found) = self.rows.get(&(agent, row)) else {
            unreachable!();
        };
        found.read(journal, base, page, into)?;
        Ok(())
    }

    /// Takes all memory of a write that leaves a row so many pages, and saves the bytes of each page that it writes again
    /// in its own block. All pages are as before.
    pub fn prepare<D: Disk>(
        &mut self,
        alloc: Global,
        journal: &mut Journal<D>,
        base: u64,
        agent: u32,
        row: u32,
        pages: u64,
        writes: &PageWrites,
    ) -> Result<(), DataRefusal>
        requires there { is_some (row_of agent row self.old) ≡ true }
        requires lies { AllByRecursion (λ page. LiesIn base (D.size journal.old.disk) page.block) (pages_at agent row self.old) }
        requires part { IsDataPart journal.old.areas base }
        ensures there { is_some (row_of agent row self.new) ≡ true }
        ensures same { pages_at agent row self.new ≡ pages_at agent row self.old }
        ensures others { OthersStay agent row self.old self.new }
        ensures kept { kept_count self.new ≡ kept_count self.old }
        ensures room { OnOk result (pages ≤ (row_at agent row self.new).room) }
        ensures saved { OnOk result (MatchOption (row_at agent row self.new).saved ⊥ (λ saved. (given : List ℕ) → AreSaved saved (pages_at agent row self.new) (page_writes writes.now given))) }
        ensures now { OnOk result (D.tells → MatchOption (row_at agent row self.new).saved ⊥ (λ saved. AreNow (D.content journal.new.disk) base (pages_at agent row self.new) saved)) }
        ensures reads { Reads D.Disk journal.old journal.new }
        ensures cause { IsErrOf result DataRefusal.DiskFault → Rose (D.faults journal.old.disk) (D.faults journal.new.disk) }
    {
        let Some(found) = self.rows.get_mut(&(agent, row)) else {
            unreachable!();
        };
        found.prepare(alloc, journal, base, pages, writes)?;
        Ok(())
    }

    /// Writes the pages of a list that is prepared for a row into their blocks, and leaves the row so many pages; new ones
    /// that the list does not name have no block. Where the disk fails each page of each row reads as before. Nothing is
    /// prepared for the row then. Takes no memory.
    pub fn write<D: Disk>(
        &mut self,
        journal: &mut Journal<D>,
        base: u64,
        agent: u32,
        row: u32,
        pages: u64,
        writes: &PageWrites,
        given: &[u8],
    ) -> Result<(), DiskFault>
        requires settled { journal.old.in_doubt ≡ false }
        requires lies { AllLie base (D.size journal.old.disk) (runs_of (page_writes writes.now given.now)) }
        requires part { IsDataPart journal.old.areas base }
        requires within { AreWithin writes.now.own given.now writes.now.runs }
        requires once { AreOnce (page_writes writes.now given.now) }
        requires inside { AllByRecursion (λ w. w.page < pages) (page_writes writes.now given.now) }
        requires room { pages ≤ (row_at agent row self.old).room }
        requires saved { MatchOption (row_at agent row self.old).saved ⊥ (λ saved. AreSaved saved (pages_at agent row self.old) (page_writes writes.now given.now)) }
        requires now { D.tells → MatchOption (row_at agent row self.old).saved ⊥ (λ saved. AreNow (D.content journal.old.disk) base (pages_at agent row self.old) saved) }
        requires own { AreOwn (pages_at agent row self.old) (page_writes writes.now given.now) }
        requires free { AreFree agent row self.old (page_writes writes.now given.now) }
        ensures there { is_some (row_of agent row self.new) ≡ true }
        ensures none { (row_at agent row self.new).saved ≡ None }
        ensures others { OthersStay agent row self.old self.new }
        ensures count { kept_count self.new + kept_in (row_at agent row self.old) ≡ kept_count self.old + kept_in (row_at agent row self.new) }
        ensures fewer { OnOk result (kept_count self.new ≤ kept_count self.old) }
        ensures pages { OnOk result (pages_at agent row self.new ≡ with_writes (page_writes writes.now given.now) (resized pages (pages_at agent row self.old))) }
        ensures size { OnOk result (length (pages_at agent row self.new) ≡ pages) }
        ensures fresh { OnOk result ((j : ℕ) → length (pages_at agent row self.old) ≤ j → j < pages → (NamesPage (page_writes writes.now given.now) j → ⊥) → page_at agent row j self.new ≡ blank) }
        ensures bytes { OnOk result (D.tells → AllByRecursion (λ w. block_bytes (D.content journal.new.disk) base w.block ≡ w.bytes) (page_writes writes.now given.now)) }
        ensures given { OnOk result (D.tells → AllByRecursion (λ w. page_of (D.content journal.new.disk) base (page_at agent row w.page self.new) ≡ w.bytes) (page_writes writes.now given.now)) }
        ensures rest { OnOk result (D.tells → (j : ℕ) → j < pages → j < length (pages_at agent row self.old) → (NamesPage (page_writes writes.now given.now) j → ⊥)
            → page_of (D.content journal.new.disk) base (page_at agent row j self.new) ≡ page_of (D.content journal.old.disk) base (page_at agent row j self.old)) }
        ensures left { OnErr result (D.tells → (a r j : ℕ) → j < length (pages_at a r self.old)
            → page_of (D.content journal.new.disk) base (page_at a r j self.new) ≡ page_of (D.content journal.old.disk) base (page_at a r j self.old)) }
        ensures len { OnErr result (length (pages_at agent row self.new) ≡ length (pages_at agent row self.old)) }
        ensures blocks { OnErr result ((j : ℕ) → (page_at agent row j self.new).block ≡ (page_at agent row j self.old).block) }
        ensures newly { OnErr result ((j : ℕ) → (HasAgain (pages_at agent row self.old) (page_writes writes.now given.now) j → ⊥)
            → page_at agent row j self.new ≡ page_at agent row j self.old) }
        ensures others_read { D.tells → (a r : ℕ) → IsOther agent row a r → (j : ℕ) → j < length (pages_at a r self.old)
            → page_of (D.content journal.new.disk) base (page_at a r j self.new) ≡ page_of (D.content journal.old.disk) base (page_at a r j self.old) }
        ensures apart { D.tells → (page : Page) → IsApart page (page_writes writes.now given.now) → page_of (D.content journal.new.disk) base page ≡ page_of (D.content journal.old.disk) base page }
        ensures writes { Writes D.Disk base (runs_of (page_writes writes.now given.now)) journal.old journal.new }
        ensures cause { OnErr result (Rose (D.faults journal.old.disk) (D.faults journal.new.disk)) }
    {
        let Some(found) = self.rows.get_mut(&(agent, row)) else {
            unreachable!();
        };
        found.write(journal, base, pages, writes, given)?;
        Ok(())
    }

    /// Takes out a row, if it is there. Takes no memory.
    pub fn drop_row(&mut self, agent: u32, row: u32)
        ensures gone { row_of agent row self.new ≡ None }
        ensures others { OthersStay agent row self.old self.new }
        ensures kept { kept_count self.new + kept_in (row_at agent row self.old) ≡ kept_count self.old }
    {
        let _ = self.rows.remove(&(agent, row));
    }
}
