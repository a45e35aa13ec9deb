// The pages of a row that a call leaves changed, one after another.
ghost use Rattle.std.specs.Prelude.{ℕ, Bool, List, ◌≡◌, ◌+◌, ◌*◌, ◌^◌, ◌<◌, ◌≤◌, true, Some, length, OnOk, IsErrOf, IfOk, IsFalse, IsTrue};
ghost use Rattle.opfs_outside.specs.Faults.{Rose};
ghost use Rattle.opfs_data.specs.Calls.{Reads};
ghost use Rattle.opfs_data.specs.Pages.{is_plain};
ghost use Rattle.opfs_data.specs.Rows.{pages_at, page_at as swap_page};
ghost use Rattle.opfs_space.specs.Holders.{AreAllBelow};
ghost use Rattle.opfs_pages.specs.Stages.{Stages, IsAtRestIn, IsUnwritten, IsWhole, IsSpared, IsReadyFor, stage_of};

use crate::row_put::{PagePut, PageSource};
use crate::staging::{stage_page, stage_whole};
use opfs_base::BLOCK_SIZE;
use opfs_data::{DataRefusal, PageWrites};
use opfs_journal::Journal;
use opfs_outside::Disk;

// Whether a page has to be written though the call writes none of its bytes: it was changed, or it is all zeros and something
// else is stored of it; and where each page has to have a block with its bytes, one that has none.
fn needs(source: &PageSource<'_>, put: &PagePut<'_>, page: u64) -> bool
    ensures rest { IsFalse result → IsAtRestIn source.now.work.now (pages_at put.now.agent put.now.row source.now.swap.now) page }
    ensures block { IsFalse result → put.now.whole ≡ true → is_plain (swap_page put.now.agent put.now.row page source.now.swap.now) ≡ true }
{
    if page >= source.work.pages() {
        return put.whole || !source.swap.is_blank(put.agent, put.row, page);
    }
    if source.work.is_zero(page) {
        return put.whole || !source.swap.is_blank(put.agent, put.row, page);
    }
    source.work.is_changed(page) || (put.whole && !source.swap.is_plain(put.agent, put.row, page))
}

// Whether a call writes no byte of a page, and does not go on where the old bytes end in it.
fn is_spared(length: u64, at: u64, len: u64, size: u64, page: u64) -> bool
    requires page { page < 2 ^ 51 }
    requires end { at + len < 2 ^ 63 }
    ensures unwritten { IsTrue result → IsUnwritten at len page }
    ensures whole { IsTrue result → IsWhole length size page }
{
    let start = page * BLOCK_SIZE;
    let end = start + BLOCK_SIZE;
    if at.max(start) < (at + len).min(end) {
        return false;
    }
    size <= length || length <= start || end <= length
}

// How many whole pages from one on a call writes, at most so many.
fn whole_pages(at: u64, len: u64, page: u64, most: u64) -> u32
    requires end { at + len < 2 ^ 63 }
    requires page { page < 2 ^ 51 }
    ensures most { result ≤ most }
    ensures begins { 0 < result → at ≤ 4096 * page }
    ensures ends { 0 < result → 4096 * (page + result) ≤ at + len }
{
    if page * BLOCK_SIZE < at {
        return 0;
    }
    let count = ((at + len) / BLOCK_SIZE).saturating_sub(page).min(most);
    count.min(u64::from(u32::MAX)) as u32
}

// Stages a page into its own block, or among those that get one later.
fn stage_one<D: Disk>(
    source: &PageSource<'_>,
    put: &PagePut<'_>,
    journal: &mut Journal<D>,
    page: u64,
    buffer: &mut [u8],
    writes: &mut PageWrites,
) -> Result<(), DataRefusal>
    requires buffer { length buffer.old ≡ 4096 }
    requires page { page < 2 ^ 51 }
    requires end { put.now.at + length put.now.given.now < 2 ^ 63 }
    requires ready { IsReadyFor source.now put.now (D.size journal.old.disk) journal.old.areas }
    ensures reads { Reads D.Disk journal.old journal.new }
    ensures staged { OnOk result (Stages D.tells (stage_of source.now put.now (D.content journal.old.disk)) page (page + 1) writes.old writes.new) }
    ensures buffer { length buffer.new ≡ 4096 }
    ensures cause { IsErrOf result DataRefusal.DiskFault → Rose (D.faults journal.old.disk) (D.faults journal.new.disk) }
{
    let block = source
        .space
        .own_block(source.swap, put.agent, put.row, page);
    stage_page(source, put, journal, page, block, buffer, writes)?;
    Ok(())
}

// Stages a page that a call spares, where it has to be written.
fn stage_spared<D: Disk>(
    source: &PageSource<'_>,
    put: &PagePut<'_>,
    journal: &mut Journal<D>,
    page: u64,
    buffer: &mut [u8],
    writes: &mut PageWrites,
) -> Result<(), DataRefusal>
    requires buffer { length buffer.old ≡ 4096 }
    requires page { page < 2 ^ 51 }
    requires end { put.now.at + length put.now.given.now < 2 ^ 63 }
    requires ready { IsReadyFor source.now put.now (D.size journal.old.disk) journal.old.areas }
    requires spared { IsSpared (stage_of source.now put.now (D.content journal.old.disk)) page }
    ensures reads { Reads D.Disk journal.old journal.new }
    ensures staged { OnOk result (Stages D.tells (stage_of source.now put.now (D.content journal.old.disk)) page (page + 1) writes.old writes.new) }
    ensures buffer { length buffer.new ≡ 4096 }
    ensures cause { IsErrOf result DataRefusal.DiskFault → Rose (D.faults journal.old.disk) (D.faults journal.new.disk) }
{
    if !needs(source, put, page) {
        return Ok(());
    }
    stage_one(source, put, journal, page, buffer, writes)?;
    Ok(())
}

// Stages pages that a call writes whole, as many as go alike, and gives the page behind them.
fn stage_run(
    source: &PageSource<'_>,
    put: &PagePut<'_>,
    page: u64,
    most: u32,
    writes: &mut PageWrites,
) -> Result<u64, DataRefusal>
    requires some { 0 < most }
    requires begins { put.now.at ≤ 4096 * page }
    requires ends { 4096 * (page + most) ≤ put.now.at + length put.now.given.now }
    requires end { put.now.at + length put.now.given.now < 2 ^ 63 }
    requires stays { put.now.at + length put.now.given.now ≤ put.now.size }
    requires below { AreAllBelow (length source.now.space.now.used) source.now.swap.now }
    ensures next { IfOk result (λ next. (page < next) × (next ≤ page + most)) }
    ensures staged { IfOk result (λ next. (content : List ℕ) → Stages (Unit {0}) (stage_of source.now put.now content) page next writes.old writes.new) }
    ensures memory { IsErrOf result DataRefusal.DiskFault → ⊥ }
{
    let count = source
        .space
        .alike(source.swap, put.agent, put.row, page, most);
    let block = source
        .space
        .own_block(source.swap, put.agent, put.row, page);
    stage_whole(put, page, count, block, writes)?;
    Ok(page + u64::from(count))
}

// Stages the next pages of a range, and gives the page behind them.
fn stage_next<D: Disk>(
    source: &PageSource<'_>,
    put: &PagePut<'_>,
    journal: &mut Journal<D>,
    page: u64,
    to: u64,
    buffer: &mut [u8],
    writes: &mut PageWrites,
) -> Result<u64, DataRefusal>
    requires buffer { length buffer.old ≡ 4096 }
    requires some { page < to }
    requires pages { to ≤ 2 ^ 51 }
    requires end { put.now.at + length put.now.given.now < 2 ^ 63 }
    requires stays { put.now.at + length put.now.given.now ≤ put.now.size }
    requires ready { IsReadyFor source.now put.now (D.size journal.old.disk) journal.old.areas }
    ensures next { IfOk result (λ next. (page < next) × (next ≤ to)) }
    ensures reads { Reads D.Disk journal.old journal.new }
    ensures staged { IfOk result (λ next. Stages D.tells (stage_of source.now put.now (D.content journal.old.disk)) page next writes.old writes.new) }
    ensures buffer { length buffer.new ≡ 4096 }
    ensures cause { IsErrOf result DataRefusal.DiskFault → Rose (D.faults journal.old.disk) (D.faults journal.new.disk) }
{
    let len = put.given.len() as u64;
    let most = whole_pages(put.at, len, page, to - page);
    if most > 0 {
        let next = stage_run(source, put, page, most, writes)?;
        return Ok(next);
    }
    if is_spared(source.work.size(), put.at, len, put.size, page) {
        stage_spared(source, put, journal, page, buffer, writes)?;
        return Ok(page + 1);
    }
    stage_one(source, put, journal, page, buffer, writes)?;
    Ok(page + 1)
}

// Stages the pages of a range.
pub(crate) fn stage_range<D: Disk>(
    source: &PageSource<'_>,
    put: &PagePut<'_>,
    journal: &mut Journal<D>,
    from: u64,
    to: u64,
    buffer: &mut [u8],
    writes: &mut PageWrites,
) -> Result<(), DataRefusal>
    requires buffer { length buffer.old ≡ 4096 }
    requires order { from ≤ to }
    requires pages { to ≤ 2 ^ 51 }
    requires end { put.now.at + length put.now.given.now < 2 ^ 63 }
    requires stays { put.now.at + length put.now.given.now ≤ put.now.size }
    requires ready { IsReadyFor source.now put.now (D.size journal.old.disk) journal.old.areas }
    ensures reads { Reads D.Disk journal.old journal.new }
    ensures staged { OnOk result (Stages D.tells (stage_of source.now put.now (D.content journal.old.disk)) from to writes.old writes.new) }
    ensures buffer { length buffer.new ≡ 4096 }
    ensures cause { IsErrOf result DataRefusal.DiskFault → Rose (D.faults journal.old.disk) (D.faults journal.new.disk) }
{
    let mut page = from;
    while page < to {
        page = stage_next(source, put, journal, page, to, buffer, writes)?;
    }
    Ok(())
}
