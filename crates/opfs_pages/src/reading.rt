// A page of an open row, wherever it is.
ghost use Rattle.std.specs.Prelude.{◌≡◌, ℕ, ◌+◌, ◌*◌, ◌<◌, ◌≤◌, true, List, length, OnOk, OnErr};
ghost use Rattle.opfs_outside.specs.Faults.{Rose};
ghost use Rattle.opfs_data.specs.Calls.{Reads};
ghost use Rattle.opfs_data.specs.Pages.{page_of, LiesIn, IsDataPart};
ghost use Rattle.opfs_data.specs.Rows.{pages_at, page_at as swap_page};
ghost use Rattle.opfs_work.specs.Pages.{page_at, is_far};
ghost use Rattle.opfs_pages.specs.Copies.{IsPageOf, IsCopy, IsHeld};

use crate::bytes::cut_page;
use crate::row_put::RowSource;
use opfs_journal::{DiskFault, Journal};
use opfs_outside::Disk;

/// Reads a page of an open row, filled up with 0: from its working copy, or from the store. Takes no memory.
pub fn read_page<D: Disk>(
    source: &RowSource<'_>,
    journal: &mut Journal<D>,
    page: u64,
    into: &mut [u8],
) -> Result<(), DiskFault>
    requires there { page < length source.now.work.now.pages }
    requires whole { length into.old ≡ 4096 }
    requires held { is_far (page_at source.now.work.now.pages page) ≡ true → page < length (pages_at source.now.agent source.now.row source.now.swap.now) }
    requires lies { is_far (page_at source.now.work.now.pages page) ≡ true → LiesIn source.now.base (D.size journal.old.disk) (swap_page source.now.agent source.now.row page source.now.swap.now).block }
    requires part { IsDataPart journal.old.areas source.now.base }
    ensures reads { Reads D.Disk journal.old journal.new }
    ensures read { OnOk result (D.tells → (bytes : List ℕ) → IsCopy bytes source.now.work.now
        → IsHeld bytes source.now.work.now page (page_of (D.content journal.old.disk) source.now.base (swap_page source.now.agent source.now.row page source.now.swap.now)) → IsPageOf bytes page into.new) }
    ensures whole { length into.new ≡ 4096 }
    ensures cause { OnErr result (Rose (D.faults journal.old.disk) (D.faults journal.new.disk)) }
{
    let _pages = source.work.pages();
    if let Some(near) = source.work.near_page(page) {
        into.copy_from_slice(near);
        return Ok(());
    }
    if source.work.is_zero(page) {
        into.fill(0);
        return Ok(());
    }
    source
        .swap
        .read(journal, source.base, source.agent, source.row, page, into)?;
    cut_page(into, page, source.work.size());
    Ok(())
}

/// The same for any page, and zeros past the row's last one.
pub fn fill_page<D: Disk>(
    source: &RowSource<'_>,
    journal: &mut Journal<D>,
    page: u64,
    buffer: &mut [u8],
) -> Result<(), DiskFault>
    requires buffer { length buffer.old ≡ 4096 }
    requires held { is_far (page_at source.now.work.now.pages page) ≡ true → page < length (pages_at source.now.agent source.now.row source.now.swap.now) }
    requires lies { is_far (page_at source.now.work.now.pages page) ≡ true → LiesIn source.now.base (D.size journal.old.disk) (swap_page source.now.agent source.now.row page source.now.swap.now).block }
    requires part { IsDataPart journal.old.areas source.now.base }
    ensures reads { Reads D.Disk journal.old journal.new }
    ensures read { OnOk result (D.tells → (bytes : List ℕ) → IsCopy bytes source.now.work.now
        → IsHeld bytes source.now.work.now page (page_of (D.content journal.old.disk) source.now.base (swap_page source.now.agent source.now.row page source.now.swap.now)) → IsPageOf bytes page buffer.new) }
    ensures buffer { length buffer.new ≡ 4096 }
    ensures cause { OnErr result (Rose (D.faults journal.old.disk) (D.faults journal.new.disk)) }
{
    if page >= source.work.pages() {
        buffer.fill(0);
        return Ok(());
    }
    read_page(source, journal, page, buffer)?;
    Ok(())
}
