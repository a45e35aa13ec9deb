// The pages of a row as a write, a new size or a content leaves them.
ghost use Rattle.std.specs.Prelude.{ℕ, ◌≡◌, ◌+◌, ◌^◌, ◌<◌, ◌≤◌, [], max, true, length, IfOk, OnOk, IsErrOf};
ghost use Rattle.opfs_base.specs.Blocks.{blocks};
ghost use Rattle.opfs_outside.specs.Faults.{Rose};
ghost use Rattle.opfs_data.specs.Calls.{Reads};
ghost use Rattle.opfs_data.specs.Pages.{is_plain};
ghost use Rattle.opfs_data.specs.Rows.{page_at as swap_page};
ghost use Rattle.opfs_work.specs.Works.{IsStored};
ghost use Rattle.opfs_pages.specs.Stages.{IsUnwritten, IsWhole, IsReadyFor, Stages, IsStaged, stage_of};

use crate::bytes::zeros;
use crate::row_put::{PagePut, PageSource};
use crate::stages::stage_range;
use opfs_base::BLOCK_SIZE;
use opfs_data::{DataRefusal, PageWrites};
use opfs_journal::Journal;
use opfs_outside::Disk;
use opfs_work::sizes::blocks;
use std::alloc::Global;

// The pages that a call touches lie between two numbers.
fn touched_pages(length: u64, at: u64, len: u64, size: u64) -> (u64, u64)
    requires size { size < 2 ^ 63 }
    requires stays { at + len ≤ size }
    ensures order { result.0 ≤ result.1 }
    ensures within { result.1 ≤ blocks size }
    ensures before { (page : ℕ) → page < result.0 → IsUnwritten at len page × IsWhole length size page × (page < blocks length) }
    ensures behind { (page : ℕ) → result.1 ≤ page → page < blocks size → IsUnwritten at len page × IsWhole length size page × (page < blocks length) }
{
    let from = if len == 0 { length } else { length.min(at) };
    let to = if length < size { size } else { at + len };
    if to <= from {
        return (0, 0);
    }
    (from / BLOCK_SIZE, blocks(to))
}

// The pages that were changed before lie between two numbers; and of a content, those that may want a block with their bytes.
fn changed_pages(source: &PageSource<'_>, put: &PagePut<'_>, end: u64) -> (u64, u64)
    ensures stored { (i : ℕ) → i < end → (result.0 ≤ i → i < result.1 → ⊥) → IsStored source.now.work.now i }
    ensures plain { (i : ℕ) → i < end → (result.0 ≤ i → i < result.1 → ⊥) → put.now.whole ≡ true → is_plain (swap_page put.now.agent put.now.row i source.now.swap.now) ≡ true }
{
    let from = source.work.changed_from();
    let to = source.work.changed_to();
    if !put.whole {
        return (from, to);
    }
    let plain = source.swap.plain_front(put.agent, put.row);
    if plain >= end {
        return (from, to);
    }
    if to <= from {
        return (plain, end);
    }
    (from.min(plain), end)
}

// Stages the pages that a write at a position and then a new size leave changed, or that a content wants. The walk goes over
// these and those that were changed before.
fn walk_changes<D: Disk>(
    source: &PageSource<'_>,
    put: &PagePut<'_>,
    journal: &mut Journal<D>,
    buffer: &mut [u8],
    writes: &mut PageWrites,
) -> Result<(), DataRefusal>
    requires buffer { length buffer.old ≡ 4096 }
    requires size { put.now.size < 2 ^ 63 }
    requires stays { put.now.at + length put.now.given.now ≤ put.now.size }
    requires ready { IsReadyFor source.now put.now (D.size journal.old.disk) journal.old.areas }
    ensures reads { Reads D.Disk journal.old journal.new }
    ensures staged { OnOk result (Stages D.tells (stage_of source.now put.now (D.content journal.old.disk)) 0 (blocks put.now.size) writes.old writes.new) }
    ensures cause { IsErrOf result DataRefusal.DiskFault → Rose (D.faults journal.old.disk) (D.faults journal.new.disk) }
{
    let end = blocks(put.size);
    let work = source.work;
    let _pages = work.pages();
    let (begins, ends) = changed_pages(source, put, end);
    let (first, last) = touched_pages(work.size(), put.at, put.given.len() as u64, put.size);
    let from = begins.min(first);
    let mid = ends.min(first).max(from);
    let next = begins.max(last).min(end);
    let to = ends.min(end).max(next);
    stage_range(source, put, journal, from, mid, buffer, writes)?;
    stage_range(source, put, journal, first, last, buffer, writes)?;
    stage_range(source, put, journal, next, to, buffer, writes)?;
    Ok(())
}

/// The pages that a write at a position and then a new size leave changed, with all memory and all reads: nothing is written
/// yet. Whole pages of the write are the call's own bytes. Of a content they are the pages that it wants beside those that the
/// store has: those that were changed, and one for each that has no block with its bytes.
pub fn stage_changes<D: Disk>(
    alloc: Global,
    source: &PageSource<'_>,
    put: &PagePut<'_>,
    journal: &mut Journal<D>,
) -> Result<PageWrites, DataRefusal>
    requires size { put.now.size < 2 ^ 63 }
    requires stays { put.now.at + length put.now.given.now ≤ put.now.size }
    requires ready { IsReadyFor source.now put.now (D.size journal.old.disk) journal.old.areas }
    ensures reads { Reads D.Disk journal.old journal.new }
    ensures staged { IfOk result (IsStaged D.tells (stage_of source.now put.now (D.content journal.old.disk))) }
    ensures cause { IsErrOf result DataRefusal.DiskFault → Rose (D.faults journal.old.disk) (D.faults journal.new.disk) }
{
    let mut writes = PageWrites::make(alloc);
    let mut buffer = zeros(alloc, BLOCK_SIZE as usize)?;
    walk_changes(source, put, journal, &mut buffer, &mut writes)?;
    Ok(writes)
}
