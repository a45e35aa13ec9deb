//! The bytes of an open row that a call reads, and a page beside them.

ghost use Rattle.std.specs.Prelude.{◌≡◌, ℕ, ◌-◌, ◌/◌, ◌%◌, ◌<◌, ◌≤◌, List, length, slice_index, IfOk, OnErr, IsErrOf, IsFalse};
ghost use Rattle.opfs_store.specs.Copies.Copies.{IsPaged};
ghost use Rattle.opfs_data.specs.Calls.{Reads};
ghost use Rattle.opfs_data.specs.Pages.{IsDataPart};
ghost use Rattle.opfs_desk_bytes.specs.Reading.Sources.{MayReadRow, HoldsOfRow, IsRowRead};
ghost use Rattle.opfs_desk_bytes.specs.Reading.Words.{end_of_read};
ghost use Rattle.opfs_outside.specs.Faults.{Rose};
ghost use Rattle.opfs_pages.specs.Copies.{IsCopy, IsPageOf};

use opfs_base::Bytes;
use opfs_data::DataRefusal;
use opfs_journal::{DiskFault, Journal};
use opfs_outside::Disk;
use opfs_pages::{RowSource, bring_near, cut_page, fill_page, read_row};
use opfs_work::Work;
use std::alloc::{AllocError, Global};

// The bytes of a page.
const PAGE: u64 = 4096;

/// Bytes that were read, twice: for the reply and for its entry; where the cursor is behind them, and a page beside them, with its
/// number: their last one, or that of the cursor.
#[derive(Drop)]
pub(crate) struct RowRead {
    pub bytes: Bytes,
    pub copy: Bytes,
    pub cursor: u64,
    pub beside: u64,
    pub page: Vec<u8>,
}

/// The same, with the page in a buffer.
#[derive(Drop)]
struct BytesRead {
    bytes: Bytes,
    copy: Bytes,
    cursor: u64,
    beside: u64,
}

// So many zeros.
fn zeros(alloc: Global, len: usize) -> Result<Vec<u8>, AllocError>
    ensures { IfOk result (λ bytes. length bytes.items ≡ len) }
{
    let mut bytes = Vec::new(alloc);
    bytes.resize(len, 0)?;
    Ok(bytes)
}

// Whether the page of the cursor is read beside the bytes, and not their last one kept: nothing was read, or the read went on from
// the cursor and ends where a page begins, so that the next one wants it.
fn reads_ahead(position: u64, start: u64, cursor: u64) -> bool
    ensures { IsFalse result → start < cursor }
{
    if cursor <= start {
        return true;
    }
    start == position && cursor % PAGE == 0
}

// Makes a buffer, which has the last page that was read, the page beside the bytes, filled up with 0; and tells its number. Takes no
// memory.
fn fill_beside<D: Disk>(
    source: &RowSource<'_>,
    journal: &mut Journal<D>,
    start: u64,
    cursor: u64,
    into: &mut [u8],
) -> Result<u64, DiskFault>
    requires whole { length into.old ≡ 4096 }
    requires far { MayReadRow source.now (D.size journal.old.disk) }
    requires part { IsDataPart journal.old.areas source.now.base }
    requires last { start < cursor → D.tells → HoldsOfRow source.now (D.content journal.old.disk) (λ bytes. IsPageOf bytes ((cursor - 1) / 4096) into.old) }
    ensures reads { Reads D.Disk journal.old journal.new }
    ensures whole { length into.new ≡ 4096 }
    ensures tail { IfOk result (λ beside. (i : ℕ) → source.now.work.now.length ≤ i → i / 4096 ≡ beside → slice_index into.new (i % 4096) ≡ 0) }
    ensures read { IfOk result (λ beside. D.tells → HoldsOfRow source.now (D.content journal.old.disk) (λ bytes. IsPageOf bytes beside into.new)) }
    ensures cause { OnErr result (Rose (D.faults journal.old.disk) (D.faults journal.new.disk)) }
{
    if reads_ahead(source.work.position(), start, cursor) {
        let beside = cursor / PAGE;
        fill_page(source, journal, beside, into)?;
        cut_page(into, beside, source.work.size());
        return Ok(beside);
    }
    let beside = (cursor - 1) / PAGE;
    cut_page(into, beside, source.work.size());
    Ok(beside)
}

// Reads bytes of an open row from a place on, as many as there are, and a page beside them into a buffer.
fn read_beside<D: Disk>(
    alloc: Global,
    source: &RowSource<'_>,
    journal: &mut Journal<D>,
    start: u64,
    len: u64,
    page: &mut [u8],
) -> Result<BytesRead, DataRefusal>
    requires whole { length page.old ≡ 4096 }
    requires far { MayReadRow source.now (D.size journal.old.disk) }
    requires part { IsDataPart journal.old.areas source.now.base }
    ensures reads { Reads D.Disk journal.old journal.new }
    ensures whole { length page.new ≡ 4096 }
    ensures read { IfOk result (λ read. IsRowRead D.tells source.now (D.content journal.old.disk) start len read.bytes read.copy read.cursor read.beside page.new) }
    ensures cause { IsErrOf result DataRefusal.DiskFault → Rose (D.faults journal.old.disk) (D.faults journal.new.disk) }
{
    let bytes = read_row(alloc, source, journal, start, len, page)?;
    let copy = bytes.copy(alloc)?;
    let cursor = cursor_behind(source.work.size(), start, len);
    let beside = fill_beside(source, journal, start, cursor, page)?;
    Ok(BytesRead {
        bytes,
        copy,
        cursor,
        beside,
    })
}

/// Reads bytes of an open row from a place on, as many as there are. A page comes beside them: their last one, which was read with
/// them; or that of the cursor, where the read went on from the cursor and ends where that page begins. Nothing else is changed.
pub(crate) fn read_open_row<D: Disk>(
    alloc: Global,
    source: &RowSource<'_>,
    journal: &mut Journal<D>,
    start: u64,
    len: u64,
) -> Result<RowRead, DataRefusal>
    requires far { MayReadRow source.now (D.size journal.old.disk) }
    requires part { IsDataPart journal.old.areas source.now.base }
    ensures reads { Reads D.Disk journal.old journal.new }
    ensures read { IfOk result (λ read. IsRowRead D.tells source.now (D.content journal.old.disk) start len read.bytes read.copy read.cursor read.beside read.page.items) }
    ensures cause { IsErrOf result DataRefusal.DiskFault → Rose (D.faults journal.old.disk) (D.faults journal.new.disk) }
{
    let mut page = zeros(alloc, PAGE as usize)?;
    let read = read_beside(alloc, source, journal, start, len, &mut page)?;
    let BytesRead {
        bytes,
        copy,
        cursor,
        beside,
    } = read;
    Ok(RowRead {
        bytes,
        copy,
        cursor,
        beside,
        page,
    })
}

// Where a read leaves the cursor.
fn cursor_behind(size: u64, start: u64, len: u64) -> u64
    ensures { result ≡ end_of_read size start len }
{
    let from = start.min(size);
    from + len.min(size - from)
}

/// Leaves the cursor at a place, with a page in memory. Takes no memory.
pub(crate) fn leave_cursor(work: &mut Work, cursor: u64, beside: u64, page: &[u8])
    requires whole { length page.now ≡ 4096 }
    requires tail { (i : ℕ) → work.old.length ≤ i → i / 4096 ≡ beside → slice_index page.now (i % 4096) ≡ 0 }
    ensures copy { (bytes : List ℕ) → IsCopy bytes work.old → IsPageOf bytes beside page.now → IsCopy bytes work.new }
    ensures rest { work.new ≡ record work.old { pages = work.new.pages; position = cursor } }
    ensures paged { IsPaged work.new }
{
    work.seek(cursor);
    bring_near(work, beside, page);
    let _pages = work.pages();
}
