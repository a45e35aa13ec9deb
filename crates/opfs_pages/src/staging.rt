// Pages of a row as a write leaves them, with all memory and reads before anything changes.
ghost use Rattle.std.specs.Prelude.{◌≡◌, ◌⊎◌, ℕ, ◌+◌, ◌-◌, ◌*◌, ◌^◌, ◌<◌, ◌≤◌, true, Some, [], ◌∷◌, unwrap_or, List, length, OnOk, OnErr, IsErrOf};
ghost use Rattle.opfs_outside.specs.Faults.{Rose};
ghost use Rattle.opfs_data.specs.Calls.{Reads};
ghost use Rattle.opfs_data.specs.Pages.{page_of, LiesIn, IsDataPart};
ghost use Rattle.opfs_data.specs.Rows.{pages_at, page_at as swap_page};
ghost use Rattle.opfs_data.specs.Writes.{HasBytes, run_pages};
ghost use Rattle.opfs_work.specs.Pages.{page_at, is_far};
ghost use Rattle.opfs_pages.specs.Copies.{IsPageOf, IsCopy, IsHeld, IsNamed, IsRight, HasMore, HasSame};
ghost use Rattle.opfs_pages.specs.Stages.{changed};

use crate::row_calls::page_after;
use crate::row_put::{PagePut, PageSource, RowSource};
use opfs_base::BLOCK_SIZE;
use opfs_data::{DataRefusal, PageWrites};
use opfs_journal::Journal;
use opfs_outside::Disk;
use std::alloc::AllocError;

/// Adds a page of a row, as a write at a position and then a new size leave it, to those that are to be written: into a block,
/// or into one that it gets later. The page's bytes are put together in a buffer. All memory and all reads come before the list
/// changes; where one of them fails the list has the same pages.
pub(crate) fn stage_page<D: Disk>(
    source: &PageSource<'_>,
    put: &PagePut<'_>,
    journal: &mut Journal<D>,
    page: u64,
    block: Option<u32>,
    buffer: &mut [u8],
    writes: &mut PageWrites,
) -> Result<(), DataRefusal>
    requires buffer { length buffer.old ≡ 4096 }
    requires page { page < 2 ^ 51 }
    requires end { put.now.at + length put.now.given.now < 2 ^ 63 }
    requires held { is_far (page_at source.now.work.now.pages page) ≡ true → page < length (pages_at put.now.agent put.now.row source.now.swap.now) }
    requires lies { is_far (page_at source.now.work.now.pages page) ≡ true → LiesIn source.now.base (D.size journal.old.disk) (swap_page put.now.agent put.now.row page source.now.swap.now).block }
    requires part { IsDataPart journal.old.areas source.now.base }
    ensures reads { Reads D.Disk journal.old journal.new }
    ensures right { OnOk result (D.tells → (bytes : List ℕ) → IsCopy bytes source.now.work.now
        → IsHeld bytes source.now.work.now page (page_of (D.content journal.old.disk) source.now.base (swap_page put.now.agent put.now.row page source.now.swap.now))
        → IsRight (changed bytes put.now.at put.now.given.now put.now.size) writes.old put.now.given.now → IsRight (changed bytes put.now.at put.now.given.now put.now.size) writes.new put.now.given.now) }
    ensures named { OnOk result ((p : ℕ) → (p ≡ page) ⊎ IsNamed writes.old put.now.given.now p → IsNamed writes.new put.now.given.now p) }
    ensures bytes { OnOk result (HasBytes writes.old put.now.given.now → HasBytes writes.new put.now.given.now) }
    ensures added { OnOk result (HasMore block ((record { page = page; block = unwrap_or block 0; bytes = buffer.new }) ∷ []) writes.old writes.new put.now.given.now) }
    ensures same { OnErr result (HasSame writes.old writes.new put.now.given.now) }
    ensures buffer { length buffer.new ≡ 4096 }
    ensures cause { IsErrOf result DataRefusal.DiskFault → Rose (D.faults journal.old.disk) (D.faults journal.new.disk) }
{
    let row = RowSource {
        agent: put.agent,
        row: put.row,
        work: source.work,
        swap: source.swap,
        base: source.base,
    };
    page_after(&row, put, page, journal, buffer)?;
    add_page(writes, page, block, buffer)?;
    Ok(())
}

// Adds a page with its bytes.
fn add_page(
    writes: &mut PageWrites,
    page: u64,
    block: Option<u32>,
    bytes: &[u8],
) -> Result<(), AllocError>
    requires whole { length bytes.now ≡ 4096 }
    requires small { page + 1 < 2 ^ 63 }
    ensures right { OnOk result ((row given : List ℕ) → IsPageOf row page bytes.now → IsRight row writes.old given → IsRight row writes.new given) }
    ensures named { OnOk result ((given : List ℕ) (p : ℕ) → (p ≡ page) ⊎ IsNamed writes.old given p → IsNamed writes.new given p) }
    ensures bytes { OnOk result ((given : List ℕ) → HasBytes writes.old given → HasBytes writes.new given) }
    ensures added { OnOk result ((given : List ℕ) → HasMore block ((record { page = page; block = unwrap_or block 0; bytes = bytes.now }) ∷ []) writes.old writes.new given) }
    ensures same { OnErr result ((given : List ℕ) → HasSame writes.old writes.new given) }
{
    match block {
        Some(block) => writes.add_own(page, block, bytes)?,
        None => writes.add_own_move(page, bytes)?,
    }
    Ok(())
}

/// Adds pages that a write covers whole, with the bytes of the call themselves: no read and no copy. They go into blocks from
/// one on, or into ones that they get later. Where there is no memory the list has the same pages.
pub(crate) fn stage_whole(
    put: &PagePut<'_>,
    page: u64,
    count: u32,
    block: Option<u32>,
    writes: &mut PageWrites,
) -> Result<(), AllocError>
    requires some { 0 < count }
    requires begins { put.now.at ≤ 4096 * page }
    requires ends { 4096 * (page + count) ≤ put.now.at + length put.now.given.now }
    requires end { put.now.at + length put.now.given.now < 2 ^ 63 }
    requires stays { 4096 * (page + count) ≤ put.now.size }
    requires blocks { (b : ℕ) → block ≡ Some b → b + count ≤ 2 ^ 32 }
    ensures right { OnOk result ((old : List ℕ) → IsRight (changed old put.now.at put.now.given.now put.now.size) writes.old put.now.given.now → IsRight (changed old put.now.at put.now.given.now put.now.size) writes.new put.now.given.now) }
    ensures named { OnOk result ((p : ℕ) → ((page ≤ p) × (p < page + count)) ⊎ IsNamed writes.old put.now.given.now p → IsNamed writes.new put.now.given.now p) }
    ensures bytes { OnOk result (HasBytes writes.old put.now.given.now → HasBytes writes.new put.now.given.now) }
    ensures added { OnOk result (HasMore block (run_pages put.now.given.now page (unwrap_or block 0) (4096 * page - put.now.at) count) writes.old writes.new put.now.given.now) }
    ensures same { OnErr result (HasSame writes.old writes.new put.now.given.now) }
{
    let from = page * BLOCK_SIZE - put.at;
    match block {
        Some(block) => writes.add(page, count, block, from)?,
        None => writes.add_move(page, count, from)?,
    }
    Ok(())
}
