// The blocks of a row's pages, as those of a content.
ghost use Rattle.std.specs.Prelude.{◌≡◌, [], ℕ, ◌+◌, ◌*◌, ◌^◌, ◌<◌, ◌≤◌, true, List, Some, IsTrue, length, slice_index_or, take};
ghost use Rattle.std.specs.List.{AllByRecursion};
ghost use Rattle.std.specs.Vec.{vec_capacity};
ghost use Rattle.opfs_base.specs.Blocks.{blocks};
ghost use Rattle.opfs_base.specs.Texts.{Text};
ghost use Rattle.opfs_blocks.specs.Sets.{blocks_of};
ghost use Rattle.opfs_data.specs.Pages.{blank, page_of};
ghost use Rattle.opfs_data.specs.Places.{bytes_of};
ghost use Rattle.opfs_data.specs.Rows.{pages_at, page_at};
ghost use Rattle.opfs_pages.specs.Copies.{IsBegun};
ghost use Rattle.opfs_records.specs.Replay.Built.{block_count, has_block, is_once};
ghost use Rattle.opfs_pages.specs.RowCalls.Rows.{ArePlain};
ghost use Rattle.opfs_space.specs.Holders.{HasPage};
ghost use Rattle.opfs_space.specs.Spaces.{page_blocks};

use opfs_base::Extent;
use opfs_data::{Page, Swap};

/// Collects the blocks of a row's first pages into runs, neighbours joined: no block twice, and where these are all pages, each in
/// its block, they have the row's bytes. Takes no memory.
pub fn collect_blocks(swap: &Swap, agent: u32, row: u32, pages: u64, into: &mut Vec<Extent>)
    requires empty { into.old.items ≡ [] }
    requires room { pages ≤ vec_capacity into.old }
    requires there { pages ≤ length (pages_at agent row swap.now) }
    requires small { (i b : ℕ) → (page_at agent row i swap.now).block ≡ Some b → b + 1 < 2 ^ 32 }
    ensures of_row { (b : ℕ) → has_block (blocks_of into.new.items) b ≡ true → (i : ℕ) × HasPage swap.now agent row i b }
    ensures once { ((i j b : ℕ) → HasPage swap.now agent row i b → HasPage swap.now agent row j b → i ≡ j) → IsTrue (is_once (blocks_of into.new.items)) }
    ensures some { AllByRecursion (λ e. 0 < e.count) into.new.items }
    ensures below { (size : ℕ) → ((i b : ℕ) → HasPage swap.now agent row i b → b < size) → AllByRecursion (λ e. e.start + e.count ≤ size) into.new.items }
    ensures few { length into.new.items ≤ pages }
    ensures count { ArePlain swap.now agent row pages → block_count into.new.items ≡ pages }
    ensures bytes { ArePlain swap.now agent row pages → (c : List ℕ) (base : ℕ) (bytes : Text) → pages ≡ blocks (length bytes)
        → ((i : ℕ) → 4096 * i < length bytes → IsBegun bytes i (page_of c base (page_at agent row i swap.now))) → bytes_of c base into.new.items (length bytes) ≡ bytes }
{
    add_pages(swap.pages(agent, row), pages, into);
}

// The blocks of the first pages, one run after another.
fn add_pages(row: &[Page], pages: u64, into: &mut Vec<Extent>)
    requires empty { into.old.items ≡ [] }
    requires room { pages ≤ vec_capacity into.old }
    requires there { pages ≤ length row.now }
    requires small { (i b : ℕ) → (slice_index_or row.now i blank).block ≡ Some b → b + 1 < 2 ^ 32 }
    ensures blocks { blocks_of into.new.items ≡ page_blocks (take pages row.now) }
    ensures some { AllByRecursion (λ e. 0 < e.count) into.new.items }
    ensures few { length into.new.items ≤ pages }
{
    let mut page = 0;
    while page < pages {
        page = add_run(row, page, pages, into);
    }
}

// The block of a page; None where it has none.
fn block_of(row: &[Page], page: u64) -> Option<u32>
    requires { page < length row.now }
    ensures { result ≡ (slice_index_or row.now page blank).block }
{
    row[page as usize].block
}

// Adds the run of blocks that begins at a page, if it has a block, and gives the page behind it.
fn add_run(row: &[Page], page: u64, pages: u64, into: &mut Vec<Extent>) -> u64
    requires inside { page < pages }
    requires there { pages ≤ length row.now }
    requires room { pages ≤ vec_capacity into.old }
    requires small { (i b : ℕ) → (slice_index_or row.now i blank).block ≡ Some b → b + 1 < 2 ^ 32 }
    requires few { length into.old.items ≤ page }
    requires some { AllByRecursion (λ e. 0 < e.count) into.old.items }
    ensures behind { page < result }
    ensures within { result ≤ pages }
    ensures blocks { blocks_of into.old.items ≡ page_blocks (take page row.now) → blocks_of into.new.items ≡ page_blocks (take result row.now) }
    ensures some { AllByRecursion (λ e. 0 < e.count) into.new.items }
    ensures few { length into.new.items ≤ result }
    ensures capacity { vec_capacity into.old ≤ vec_capacity into.new }
{
    let Some(start) = block_of(row, page) else {
        return page + 1;
    };
    let count = run_length(row, page, pages, start);
    into.push(Extent { start, count }).unwrap();
    page + u64::from(count)
}

// How many pages from one on have neighbouring blocks.
fn run_length(row: &[Page], page: u64, pages: u64, start: u32) -> u32
    requires inside { page < pages }
    requires there { pages ≤ length row.now }
    requires begins { (slice_index_or row.now page blank).block ≡ Some start }
    requires small { (i b : ℕ) → (slice_index_or row.now i blank).block ≡ Some b → b + 1 < 2 ^ 32 }
    ensures some { 0 < result }
    ensures within { page + result ≤ pages }
    ensures run { (k : ℕ) → k < result → (slice_index_or row.now (page + k) blank).block ≡ Some (start + k) }
{
    let mut count = 1;
    while goes_on(row, page, pages, start, count) {
        count += 1;
    }
    count
}

// Whether the block behind so many is that of the page behind them.
fn goes_on(row: &[Page], page: u64, pages: u64, start: u32, count: u32) -> bool
    requires within { page + count ≤ pages }
    requires there { pages ≤ length row.now }
    ensures below { IsTrue result → page + count < pages }
    ensures block { IsTrue result → (slice_index_or row.now (page + count) blank).block ≡ Some (start + count) }
{
    let next = page + u64::from(count);
    if next >= pages {
        return false;
    }
    let Some(block) = start.checked_add(count) else {
        return false;
    };
    block_of(row, next) == Some(block)
}
