//! Changes of a row's pages that take no memory.

ghost use Rattle.std.specs.Prelude.{◌≡◌, ◌+◌, ◌-◌, ◌^◌, ◌<◌, ◌≤◌, ◌++◌, [], ℕ, List, length, slice_index_or, replicate, IfOk, OnOk};
ghost use Rattle.std.specs.List.{AllByRecursion};
ghost use Rattle.std.specs.Vec.{vec_capacity};
ghost use Rattle.opfs_data.specs.Writes.{writes_of, run_writes};
ghost use Rattle.opfs_data.specs.Pages.{with_kept, with_writes, resized, blank, pages_from, pages_in};

use crate::page::{Page, SavedPage};
use crate::page_run::PageRun;
use opfs_base::Extent;
use std::alloc::{AllocError, Global};

/// Keeps the bytes that were saved, the last ones first.
pub fn keep_saved(pages: &mut Vec<Page>, saved: Vec<SavedPage>)
    requires { AllByRecursion (λ s. s.page < length pages.old.items) saved.items }
    ensures kept { pages.new.items ≡ with_kept saved.items pages.old.items }
    ensures capacity { vec_capacity pages.old ≤ vec_capacity pages.new }
{
    let mut saved = saved;
    while let Some(last) = saved.pop() {
        let page = &mut pages[last.page as usize];
        page.kept = Some(last.bytes);
    }
}

/// Leaves so many pages: those that stay, and new ones without a block.
pub fn resize(pages: &mut Vec<Page>, count: usize)
    requires { count ≤ vec_capacity pages.old }
    ensures { pages.new.items ≡ resized count pages.old.items }
{
    pages.truncate(count);
    let missing = count - pages.len();
    for _ in 0..missing {
        pages
            .push(Page {
                block: None,
                kept: None,
            })
            .unwrap();
    }
}

/// Gives the pages of runs their blocks, with nothing kept of them.
pub fn place_writes(pages: &mut Vec<Page>, runs: &[PageRun])
    requires { AllByRecursion (λ w. w.page < length pages.old.items) (writes_of [] [] runs.now) }
    ensures { (own given : List ℕ) → pages.new.items ≡ with_writes (writes_of own given runs.now) pages.old.items }
{
    for run in runs {
        place_pages(pages, run);
    }
}

// The same for one run.
fn place_pages(pages: &mut Vec<Page>, run: &PageRun)
    requires { AllByRecursion (λ w. w.page < length pages.old.items) (run_writes [] [] run.now) }
    ensures written { (own given : List ℕ) → pages.new.items ≡ with_writes (run_writes own given run.now) pages.old.items }
    ensures length { length pages.new.items ≡ length pages.old.items }
{
    let first = run.page() as usize;
    let start = run.block();
    for k in 0..run.count() {
        pages[first + k as usize] = Page {
            block: Some(start + k),
            kept: None,
        };
    }
}

// Adds a page for each block of a run.
fn add_run(pages: &mut Vec<Page>, extent: Extent) -> Result<(), AllocError>
    requires { extent.start + extent.count ≤ 2 ^ 32 }
    ensures { OnOk result (pages.new.items ≡ pages.old.items ++ pages_from extent.start extent.count) }
{
    for k in 0..extent.count {
        let block = Some(extent.start + k);
        pages.push(Page { block, kept: None })?;
    }
    Ok(())
}

/// A page for each block of the runs, in order.
pub fn open_pages(alloc: Global, extents: &[Extent]) -> Result<Vec<Page>, AllocError>
    requires { AllByRecursion (λ extent. extent.start + extent.count ≤ 2 ^ 32) extents.now }
    ensures { IfOk result (λ pages. pages.items ≡ pages_in extents.now) }
{
    let mut pages = Vec::new(alloc);
    for extent in extents {
        add_run(&mut pages, *extent)?;
    }
    Ok(pages)
}
