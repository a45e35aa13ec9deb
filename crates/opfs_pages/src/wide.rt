// Bytes of an open row, wherever its pages are.
ghost use Rattle.std.specs.Prelude.{◌≡◌, ℕ, ◌+◌, ◌-◌, ◌*◌, ◌/◌, ◌^◌, ◌<◌, ◌≤◌, List, length, slice_index, OnOk, OnErr};
ghost use Rattle.opfs_base.specs.Blocks.{blocks};
ghost use Rattle.opfs_outside.specs.Faults.{Rose};
ghost use Rattle.opfs_splice.specs.Splicing.{window};
ghost use Rattle.opfs_data.specs.Calls.{Reads};
ghost use Rattle.opfs_data.specs.Pages.{page_of, LiesIn, IsDataPart};
ghost use Rattle.opfs_data.specs.Rows.{pages_at, page_at as swap_page};
ghost use Rattle.opfs_pages.specs.Copies.{IsCopy, IsPageOf, IsBegun, AreHeld, HasFar};

use crate::bytes::copy_into;
use crate::reading::read_page;
use crate::row_put::{RowSource, StoredRow};
use opfs_base::BLOCK_SIZE;
use opfs_journal::{DiskFault, Journal};
use opfs_outside::Disk;

/// Reads bytes of an open row from a position on: from its working copy, or from the store. A buffer has each page,
/// and at last that of the last byte. Takes no memory.
pub fn read_bytes<D: Disk>(
    source: &RowSource<'_>,
    journal: &mut Journal<D>,
    at: u64,
    buffer: &mut [u8],
    into: &mut [u8],
) -> Result<(), DiskFault>
    requires buffer { length buffer.old ≡ 4096 }
    requires within { at + length into.old ≤ source.now.work.now.length }
    requires far { HasFar source.now.work.now source.now.base (D.size journal.old.disk) (pages_at source.now.agent source.now.row source.now.swap.now) }
    requires part { IsDataPart journal.old.areas source.now.base }
    ensures reads { Reads D.Disk journal.old journal.new }
    ensures read { OnOk result (D.tells → (bytes : List ℕ) → IsCopy bytes source.now.work.now → AreHeld bytes source.now.work.now (D.content journal.old.disk) source.now.base (pages_at source.now.agent source.now.row source.now.swap.now)
        → into.new ≡ window bytes at (length into.old)) }
    ensures buffer { length buffer.new ≡ 4096 }
    ensures last { OnOk result (D.tells → (bytes : List ℕ) → IsCopy bytes source.now.work.now → AreHeld bytes source.now.work.now (D.content journal.old.disk) source.now.base (pages_at source.now.agent source.now.row source.now.swap.now)
        → 0 < length into.old → IsPageOf bytes ((at + length into.old - 1) / 4096) buffer.new) }
    ensures cause { OnErr result (Rose (D.faults journal.old.disk) (D.faults journal.new.disk)) }
{
    let _pages = source.work.pages();
    let size = source.work.size();
    let len = into.len() as u64;
    let mut done = 0;
    while done < len {
        let place = at + done;
        prove!(place < size);
        read_page(source, journal, place / BLOCK_SIZE, buffer)?;
        done += copy_part(buffer, place % BLOCK_SIZE, into, done);
    }
    Ok(())
}

/// Reads bytes of an open row from a position on where the store has each page, as it has those of an access handle. A buffer
/// has each page. Takes no memory.
pub fn read_stored<D: Disk>(
    stored: &StoredRow<'_>,
    journal: &mut Journal<D>,
    at: u64,
    buffer: &mut [u8],
    into: &mut [u8],
) -> Result<(), DiskFault>
    requires buffer { length buffer.old ≡ 4096 }
    requires small { at + length into.old < 2 ^ 63 }
    requires there { blocks (at + length into.old) ≤ length (pages_at stored.now.agent stored.now.row stored.now.swap.now) }
    requires lies { (i : ℕ) → LiesIn stored.now.base (D.size journal.old.disk) (swap_page stored.now.agent stored.now.row i stored.now.swap.now).block }
    requires part { IsDataPart journal.old.areas stored.now.base }
    ensures reads { Reads D.Disk journal.old journal.new }
    ensures read { OnOk result (D.tells → (bytes : List ℕ) → at + length into.old ≤ length bytes → ((i : ℕ) → 4096 * i < length bytes → IsBegun bytes i (page_of (D.content journal.old.disk) stored.now.base (swap_page stored.now.agent stored.now.row i stored.now.swap.now)))
        → into.new ≡ window bytes at (length into.old)) }
    ensures cause { OnErr result (Rose (D.faults journal.old.disk) (D.faults journal.new.disk)) }
{
    let len = into.len() as u64;
    let mut done = 0;
    while done < len {
        let place = at + done;
        let page = place / BLOCK_SIZE;
        stored.swap.read(journal, stored.base, stored.agent, stored.row, page, buffer)?;
        done += copy_part(buffer, place % BLOCK_SIZE, into, done);
    }
    Ok(())
}

// Copies what a page has from an offset on to a place among bytes, and tells how many bytes these are.
fn copy_part(page: &[u8], offset: u64, into: &mut [u8], done: u64) -> u64
    requires page { length page.now ≡ 4096 }
    requires offset { offset < 4096 }
    requires some { done < length into.old }
    ensures some { 0 < result }
    ensures within { done + result ≤ length into.old }
    ensures inside { offset + result ≤ 4096 }
    ensures copied { (k : ℕ) → done ≤ k → k < done + result → slice_index into.new k ≡ slice_index page.now (offset + (k - done)) }
    ensures before { (k : ℕ) → k < done → slice_index into.new k ≡ slice_index into.old k }
    ensures size { length into.new ≡ length into.old }
{
    let count = (BLOCK_SIZE - offset).min(into.len() as u64 - done);
    let chunk = &page[offset as usize..(offset + count) as usize];
    copy_into(into, done as usize, chunk);
    count
}
