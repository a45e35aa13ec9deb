// The working copy that is left when the store has a row's pages, with the page of its position in memory.
ghost use Rattle.std.specs.Prelude.{◌≡◌, ℕ, ◌⊎◌, ◌+◌, ◌*◌, ◌/◌, ◌%◌, ◌^◌, ◌<◌, ◌≤◌, max, true, false, List, length, slice_index, IsTrue, OnOk, OnErr};
ghost use Rattle.opfs_base.specs.Blocks.{blocks};
ghost use Rattle.opfs_data.specs.Calls.{Reads};
ghost use Rattle.opfs_data.specs.Pages.{page_of, LiesIn, IsDataPart};
ghost use Rattle.opfs_data.specs.Rows.{pages_at, page_at as swap_page};
ghost use Rattle.opfs_outside.specs.Faults.{Rose};
ghost use Rattle.opfs_pages.specs.Copies.{IsCopy, IsPageOf, IsHeld};
ghost use Rattle.opfs_pages.specs.Stages.{changed, IsCovered};
ghost use Rattle.opfs_splice.specs.Splicing.{resize};
ghost use Rattle.opfs_work.specs.Pages.{page_at, is_far, near_count};
ghost use Rattle.opfs_work.specs.Works.{IsStored};

use crate::{PagePut, RowSource, cut_page, fill_page, overlay};
use opfs_base::BLOCK_SIZE;
use opfs_journal::{DiskFault, Journal};
use opfs_outside::Disk;
use opfs_work::Work;

// Whether a put writes each byte that its row then has in a page.
fn is_covered(wanted: &PagePut<'_>, page: u64) -> bool
    requires page { page < 2 ^ 51 }
    requires end { wanted.now.at + length wanted.now.given.now < 2 ^ 63 }
    ensures { IsTrue result → IsCovered wanted.now page }
{
    let start = page * BLOCK_SIZE;
    let end = (start + BLOCK_SIZE).min(wanted.size);
    if end <= start {
        return true;
    }
    wanted.at <= start && end <= wanted.at + wanted.given.len() as u64
}

// Makes a page of a row that of the row after a put.
fn change(buffer: &mut [u8], page: u64, wanted: &PagePut<'_>)
    requires whole { length buffer.old ≡ 4096 }
    requires page { page < 2 ^ 51 }
    requires end { wanted.now.at + length wanted.now.given.now < 2 ^ 63 }
    ensures after { (old : List ℕ) → IsPageOf old page buffer.old → IsPageOf (changed old wanted.now.at wanted.now.given.now wanted.now.size) page buffer.new }
    ensures tail { (i : ℕ) → wanted.now.size ≤ i → i / 4096 ≡ page → slice_index buffer.new (i % 4096) ≡ 0 }
    ensures whole { length buffer.new ≡ 4096 }
{
    overlay(buffer, page, wanted.at, wanted.given);
    cut(buffer, page, wanted.size);
}

/// Reads a page of a row as a write at a position and then a new size leave it, filled up with 0. It is not read where the write
/// gives all bytes that the row then has in it. Takes no memory.
pub fn page_after<D: Disk>(
    source: &RowSource<'_>,
    wanted: &PagePut<'_>,
    page: u64,
    journal: &mut Journal<D>,
    buffer: &mut [u8],
) -> Result<(), DiskFault>
    requires buffer { length buffer.old ≡ 4096 }
    requires page { page < 2 ^ 51 }
    requires end { wanted.now.at + length wanted.now.given.now < 2 ^ 63 }
    requires held { is_far (page_at source.now.work.now.pages page) ≡ true → page < length (pages_at source.now.agent source.now.row source.now.swap.now) }
    requires lies { is_far (page_at source.now.work.now.pages page) ≡ true → LiesIn source.now.base (D.size journal.old.disk) (swap_page source.now.agent source.now.row page source.now.swap.now).block }
    requires part { IsDataPart journal.old.areas source.now.base }
    ensures reads { Reads D.Disk journal.old journal.new }
    ensures read { OnOk result (D.tells → (bytes : List ℕ) → IsCopy bytes source.now.work.now
        → IsHeld bytes source.now.work.now page (page_of (D.content journal.old.disk) source.now.base (swap_page source.now.agent source.now.row page source.now.swap.now)) → IsPageOf (changed bytes wanted.now.at wanted.now.given.now wanted.now.size) page buffer.new) }
    ensures tail { OnOk result ((i : ℕ) → wanted.now.size ≤ i → i / 4096 ≡ page → slice_index buffer.new (i % 4096) ≡ 0) }
    ensures buffer { length buffer.new ≡ 4096 }
    ensures cause { OnErr result (Rose (D.faults journal.old.disk) (D.faults journal.new.disk)) }
{
    if is_covered(wanted, page) {
        change(buffer, page, wanted);
        return Ok(());
    }
    fill_page(source, journal, page, buffer)?;
    change(buffer, page, wanted);
    Ok(())
}

// Cuts or extends a page of a row, and clears what stands behind the end.
fn cut(buffer: &mut [u8], page: u64, size: u64)
    requires whole { length buffer.old ≡ 4096 }
    requires page { page < 2 ^ 52 }
    ensures cut { (old : List ℕ) → IsPageOf old page buffer.old → IsPageOf (resize old size) page buffer.new }
    ensures tail { (i : ℕ) → size ≤ i → i / 4096 ≡ page → slice_index buffer.new (i % 4096) ≡ 0 }
    ensures whole { length buffer.new ≡ 4096 }
{
    cut_page(buffer, page, size);
}

/// Brings a page that is elsewhere into memory. Where there is no room, all pages go there, whose bytes the store has. Takes no
/// memory.
pub fn bring_near(work: &mut Work, page: u64, bytes: &[u8])
    requires size { length bytes.now ≡ 4096 }
    requires tail { (i : ℕ) → work.old.length ≤ i → i / 4096 ≡ page → slice_index bytes.now (i % 4096) ≡ 0 }
    ensures copy { (row : List ℕ) → IsCopy row work.old → IsPageOf row page bytes.now → IsCopy row work.new }
    ensures near { is_far (page_at work.new.pages page) ≡ false }
    ensures stored { (k : ℕ) → IsStored work.old k → IsStored work.new k }
    ensures rest { work.new ≡ record work.old { pages = work.new.pages } }
    ensures pages { length work.new.pages ≡ length work.old.pages }
{
    if page >= work.pages() || !work.is_far(page) {
        return;
    }
    make_way(work, page);
    work.bring(page, bytes);
}

// Sends all pages far where there is no room for one more.
fn make_way(work: &mut Work, page: u64)
    requires far { is_far (page_at work.old.pages page) ≡ true }
    ensures few { near_count work.new.pages < 256 }
    ensures far { is_far (page_at work.new.pages page) ≡ true }
    ensures others { (k : ℕ) → (is_far (page_at work.new.pages k) ≡ true) ⊎ (page_at work.new.pages k ≡ page_at work.old.pages k) }
    ensures size { length work.new.pages ≡ length work.old.pages }
    ensures rest { work.new ≡ record work.old { pages = work.new.pages } }
{
    if work.resident() < 256 {
        return;
    }
    let pages = work.pages();
    work.forget(0, pages);
}
