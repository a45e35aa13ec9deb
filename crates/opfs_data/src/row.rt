//! The pages of a row, saved and written.

ghost use Rattle.std.specs.Prelude.{◌≡◌, ◌+◌, ◌*◌, ◌^◌, ◌<◌, ◌≤◌, ◌++◌, ◌∷◌, [], ℕ, List, false, length, slice_index_or, IfOk, OnOk, OnErr, IsErrOf};
ghost use Rattle.std.specs.Bool.{OnTrue, OnFalse};
ghost use Rattle.std.specs.List.{AllByRecursion};
ghost use Rattle.std.specs.Vec.{vec_capacity};
ghost use Rattle.opfs_outside.specs.Faults.{Rose};
ghost use Rattle.opfs_data.specs.Calls.{Reads, Writes};
ghost use Rattle.opfs_data.specs.Places.{AllLie};
ghost use Rattle.opfs_data.specs.declared.page.Page.{Page};
ghost use Rattle.opfs_data.specs.Writes.{PageWrite, page_writes, writes_of, run_writes, AreWithin};
ghost use Rattle.opfs_data.specs.Pages.{block_bytes, page_of, blank, runs_of, resized, with_writes, AreOnce, NamesPage, IsAgain, HasAgain, AreSaved, AreNow, AreOwn, IsApart, LiesIn, IsDataPart};

use crate::page::{Page, PageBytes, SavedPage};
use crate::page_run::PageRun;
use crate::pages::{put_pages, read_page};
use crate::placing::{keep_saved, place_writes, resize};
use crate::{DataRefusal, PageWrites};
use opfs_journal::{DiskFault, Journal};
use opfs_outside::Disk;
use std::alloc::{AllocError, Global};

/// Writes the pages of a list, and leaves so many pages. Where the disk fails, what was saved is kept, and each page
/// reads as before.
pub fn write_row<D: Disk>(
    journal: &mut Journal<D>,
    base: u64,
    pages: &mut Vec<Page>,
    saved: Vec<SavedPage>,
    count: usize,
    writes: &PageWrites,
    given: &[u8],
) -> Result<(), DiskFault>
    requires settled { journal.old.in_doubt ≡ false }
    requires lies { AllLie base (D.size journal.old.disk) (runs_of (page_writes writes.now given.now)) }
    requires part { IsDataPart journal.old.areas base }
    requires once { AreOnce (page_writes writes.now given.now) }
    requires within { AreWithin writes.now.own given.now writes.now.runs }
    requires inside { AllByRecursion (λ w. w.page < count) (page_writes writes.now given.now) }
    requires room { count ≤ vec_capacity pages.old }
    requires saved { AreSaved saved.items pages.old.items (page_writes writes.now given.now) }
    requires now { D.tells → AreNow (D.content journal.old.disk) base pages.old.items saved.items }
    requires own { AreOwn pages.old.items (page_writes writes.now given.now) }
    ensures writes { Writes D.Disk base (runs_of (page_writes writes.now given.now)) journal.old journal.new }
    ensures written { OnOk result (pages.new.items ≡ with_writes (page_writes writes.now given.now) (resized count pages.old.items)) }
    ensures bytes { OnOk result (D.tells → AllByRecursion (λ w. block_bytes (D.content journal.new.disk) base w.block ≡ w.bytes) (page_writes writes.now given.now)) }
    ensures given { OnOk result (D.tells → AllByRecursion (λ w. page_of (D.content journal.new.disk) base (slice_index_or pages.new.items w.page blank) ≡ w.bytes) (page_writes writes.now given.now)) }
    ensures rest { OnOk result (D.tells → (j : ℕ) → j < count → j < length pages.old.items → (NamesPage (page_writes writes.now given.now) j → ⊥)
        → page_of (D.content journal.new.disk) base (slice_index_or pages.new.items j blank) ≡ page_of (D.content journal.old.disk) base (slice_index_or pages.old.items j blank)) }
    ensures left { OnErr result (D.tells → (j : ℕ) → j < length pages.old.items
        → page_of (D.content journal.new.disk) base (slice_index_or pages.new.items j blank) ≡ page_of (D.content journal.old.disk) base (slice_index_or pages.old.items j blank)) }
    ensures len { OnErr result (length pages.new.items ≡ length pages.old.items) }
    ensures blocks { OnErr result ((j : ℕ) → (slice_index_or pages.new.items j blank).block ≡ (slice_index_or pages.old.items j blank).block) }
    ensures newly { OnErr result ((j : ℕ) → (HasAgain pages.old.items (page_writes writes.now given.now) j → ⊥)
        → slice_index_or pages.new.items j blank ≡ slice_index_or pages.old.items j blank) }
    ensures apart { D.tells → (page : Page) → IsApart page (page_writes writes.now given.now) → page_of (D.content journal.new.disk) base page ≡ page_of (D.content journal.old.disk) base page }
    ensures cause { OnErr result (Rose (D.faults journal.old.disk) (D.faults journal.new.disk)) }
{
    if put_list(journal, base, writes, given).is_err() {
        keep_saved(pages, saved);
        return Err(DiskFault);
    }
    resize(pages, count);
    place_list(pages, writes);
    Ok(())
}

// Writes the pages of a list into their blocks.
fn put_list<D: Disk>(
    journal: &mut Journal<D>,
    base: u64,
    writes: &PageWrites,
    given: &[u8],
) -> Result<(), DiskFault>
    requires settled { journal.old.in_doubt ≡ false }
    requires lies { AllLie base (D.size journal.old.disk) (runs_of (page_writes writes.now given.now)) }
    requires part { IsDataPart journal.old.areas base }
    requires once { AreOnce (page_writes writes.now given.now) }
    requires within { AreWithin writes.now.own given.now writes.now.runs }
    ensures writes { Writes D.Disk base (runs_of (page_writes writes.now given.now)) journal.old journal.new }
    ensures written { OnOk result (D.tells → AllByRecursion (λ w. block_bytes (D.content journal.new.disk) base w.block ≡ w.bytes) (page_writes writes.now given.now)) }
    ensures cause { OnErr result (Rose (D.faults journal.old.disk) (D.faults journal.new.disk)) }
{
    put_pages(journal, base, writes.runs(), writes.own(), given)?;
    Ok(())
}

// Gives the pages of a list their blocks.
fn place_list(pages: &mut Vec<Page>, writes: &PageWrites)
    requires { AllByRecursion (λ w. w.page < length pages.old.items) (writes_of [] [] writes.now.runs) }
    ensures { (given : List ℕ) → pages.new.items ≡ with_writes (page_writes writes.now given) pages.old.items }
{
    place_writes(pages, writes.runs());
}

// Whether a page is to be written again in its own block.
fn is_again(pages: &[Page], page: u64, block: u32) -> bool
    ensures yes { OnTrue result (IsAgain pages.now (record { page = page; block = block; bytes = [] })) }
    ensures no { OnFalse result (IsAgain pages.now (record { page = page; block = block; bytes = [] }) → ⊥) }
{
    page < pages.len() as u64 && pages[page as usize].block == Some(block)
}

// The bytes of a page, in new memory.
fn read_saved<D: Disk>(
    alloc: Global,
    journal: &mut Journal<D>,
    base: u64,
    page: &Page,
) -> Result<PageBytes, DataRefusal>
    requires lies { LiesIn base (D.size journal.old.disk) page.now.block }
    requires part { IsDataPart journal.old.areas base }
    ensures reads { Reads D.Disk journal.old journal.new }
    ensures read { IfOk result (λ bytes. D.tells → bytes ≡ page_of (D.content journal.old.disk) base page.now) }
    ensures cause { IsErrOf result DataRefusal.DiskFault → Rose (D.faults journal.old.disk) (D.faults journal.new.disk) }
{
    let mut bytes = vec![in alloc; 0u8; 4096]?;
    read_page(journal, base, page, &mut bytes)?;
    Ok(PageBytes::from_vec(bytes))
}

fn add_saved(saved: &mut Vec<SavedPage>, page: u64, bytes: PageBytes) -> Result<(), AllocError>
    ensures { OnOk result (saved.new.items ≡ saved.old.items ++ (record { page = page; bytes = bytes }) ∷ []) }
{
    saved.push(SavedPage { page, bytes })?;
    Ok(())
}

// Saves a page where it is to be written again in its own block.
fn save_page<D: Disk>(
    alloc: Global,
    journal: &mut Journal<D>,
    base: u64,
    pages: &[Page],
    page: u64,
    block: u32,
    saved: &mut Vec<SavedPage>,
) -> Result<(), DataRefusal>
    requires lies { AllByRecursion (λ page. LiesIn base (D.size journal.old.disk) page.block) pages.now }
    requires part { IsDataPart journal.old.areas base }
    ensures reads { Reads D.Disk journal.old journal.new }
    ensures saved { OnOk result ((ws : List PageWrite) (bytes : List ℕ) → AreSaved saved.old.items pages.now ws → AreSaved saved.new.items pages.now (ws ++ (record { page = page; block = block; bytes = bytes }) ∷ [])) }
    ensures now { OnOk result (D.tells → AreNow (D.content journal.old.disk) base pages.now saved.old.items → AreNow (D.content journal.old.disk) base pages.now saved.new.items) }
    ensures cause { IsErrOf result DataRefusal.DiskFault → Rose (D.faults journal.old.disk) (D.faults journal.new.disk) }
{
    if !is_again(pages, page, block) {
        return Ok(());
    }
    let bytes = read_saved(alloc, journal, base, &pages[page as usize])?;
    add_saved(saved, page, bytes)?;
    Ok(())
}

// Saves the pages of a run that are to be written again in their own blocks.
fn save_run<D: Disk>(
    alloc: Global,
    journal: &mut Journal<D>,
    base: u64,
    pages: &[Page],
    run: &PageRun,
    saved: &mut Vec<SavedPage>,
) -> Result<(), DataRefusal>
    requires lies { AllByRecursion (λ page. LiesIn base (D.size journal.old.disk) page.block) pages.now }
    requires part { IsDataPart journal.old.areas base }
    ensures reads { Reads D.Disk journal.old journal.new }
    ensures saved { OnOk result ((ws : List PageWrite) (own given : List ℕ) → AreSaved saved.old.items pages.now ws → AreSaved saved.new.items pages.now (ws ++ run_writes own given run.now)) }
    ensures now { OnOk result (D.tells → AreNow (D.content journal.old.disk) base pages.now saved.old.items → AreNow (D.content journal.old.disk) base pages.now saved.new.items) }
    ensures cause { IsErrOf result DataRefusal.DiskFault → Rose (D.faults journal.old.disk) (D.faults journal.new.disk) }
{
    let first = run.page();
    let start = run.block();
    for k in 0..run.count() {
        save_page(
            alloc,
            journal,
            base,
            pages,
            first + u64::from(k),
            start + k,
            saved,
        )?;
    }
    Ok(())
}

/// Saves each page that is to be written again in its own block.
pub fn save_pages<D: Disk>(
    alloc: Global,
    journal: &mut Journal<D>,
    base: u64,
    pages: &[Page],
    runs: &[PageRun],
) -> Result<Vec<SavedPage>, DataRefusal>
    requires lies { AllByRecursion (λ page. LiesIn base (D.size journal.old.disk) page.block) pages.now }
    requires part { IsDataPart journal.old.areas base }
    ensures reads { Reads D.Disk journal.old journal.new }
    ensures saved { IfOk result (λ saved. (own given : List ℕ) → AreSaved saved.items pages.now (writes_of own given runs.now)) }
    ensures now { IfOk result (λ saved. D.tells → AreNow (D.content journal.old.disk) base pages.now saved.items) }
    ensures cause { IsErrOf result DataRefusal.DiskFault → Rose (D.faults journal.old.disk) (D.faults journal.new.disk) }
{
    let mut saved = Vec::new(alloc);
    for run in runs {
        save_run(alloc, journal, base, pages, run, &mut saved)?;
    }
    Ok(saved)
}
