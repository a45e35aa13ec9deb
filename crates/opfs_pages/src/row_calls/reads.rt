// Bytes of open rows, read whole.
ghost use Rattle.std.specs.Prelude.{◌≡◌, ℕ, ◌+◌, ◌-◌, ◌*◌, ◌/◌, ◌^◌, ◌<◌, ◌≤◌, min, List, length, slice_index, IfOk, OnOk, IsErrOf};
ghost use Rattle.opfs_base.specs.Blocks.{blocks};
ghost use Rattle.opfs_data.specs.Calls.{Reads};
ghost use Rattle.opfs_data.specs.Pages.{page_of, LiesIn, IsDataPart};
ghost use Rattle.opfs_data.specs.Rows.{pages_at, page_at as swap_page};
ghost use Rattle.opfs_outside.specs.Faults.{Rose};
ghost use Rattle.opfs_pages.specs.Copies.{IsCopy, IsPageOf, IsBegun, AreHeld, HasFar};
ghost use Rattle.opfs_splice.specs.Splicing.{window};

use crate::bytes::zeros;
use crate::{RowSource, StoredRow, read_bytes, read_stored};
use opfs_base::{BLOCK_SIZE, Bytes};
use opfs_data::DataRefusal;
use opfs_journal::Journal;
use opfs_outside::Disk;
use std::alloc::Global;

/// Reads bytes of an open row from a position on, as many as there are: from its working copy, or from the store. A buffer
/// has each page, and at last that of the last byte.
pub fn read_row<D: Disk>(
    alloc: Global,
    source: &RowSource<'_>,
    journal: &mut Journal<D>,
    at: u64,
    len: u64,
    buffer: &mut [u8],
) -> Result<Bytes, DataRefusal>
    requires buffer { length buffer.old ≡ 4096 }
    requires far { HasFar source.now.work.now source.now.base (D.size journal.old.disk) (pages_at source.now.agent source.now.row source.now.swap.now) }
    requires part { IsDataPart journal.old.areas source.now.base }
    ensures reads { Reads D.Disk journal.old journal.new }
    ensures size { IfOk result (λ bytes. length bytes ≡ min len (source.now.work.now.length - at)) }
    ensures read { IfOk result (λ bytes. D.tells → (row_bytes : List ℕ) → IsCopy row_bytes source.now.work.now → AreHeld row_bytes source.now.work.now (D.content journal.old.disk) source.now.base (pages_at source.now.agent source.now.row source.now.swap.now) → bytes ≡ window row_bytes at len) }
    ensures buffer { length buffer.new ≡ 4096 }
    ensures last { OnOk result (D.tells → (row_bytes : List ℕ) → IsCopy row_bytes source.now.work.now → AreHeld row_bytes source.now.work.now (D.content journal.old.disk) source.now.base (pages_at source.now.agent source.now.row source.now.swap.now)
        → 0 < min len (source.now.work.now.length - at) → IsPageOf row_bytes ((at + min len (source.now.work.now.length - at) - 1) / 4096) buffer.new) }
    ensures cause { IsErrOf result DataRefusal.DiskFault → Rose (D.faults journal.old.disk) (D.faults journal.new.disk) }
{
    let size = source.work.size();
    let start = at.min(size);
    let len = len.min(size - start);
    let mut bytes = zeros(alloc, len as usize)?;
    read_bytes(source, journal, start, buffer, &mut bytes)?;
    Ok(Bytes::from_vec(bytes))
}

/// Reads all bytes of an open row where the store has each page, as it has those of an access handle.
pub fn read_handle<D: Disk>(
    alloc: Global,
    stored: &StoredRow<'_>,
    journal: &mut Journal<D>,
    size: u64,
) -> Result<Bytes, DataRefusal>
    requires small { size < 2 ^ 63 }
    requires there { blocks size ≤ length (pages_at stored.now.agent stored.now.row stored.now.swap.now) }
    requires lies { (i : ℕ) → LiesIn stored.now.base (D.size journal.old.disk) (swap_page stored.now.agent stored.now.row i stored.now.swap.now).block }
    requires part { IsDataPart journal.old.areas stored.now.base }
    ensures reads { Reads D.Disk journal.old journal.new }
    ensures size { IfOk result (λ bytes. length bytes ≡ size) }
    ensures read { IfOk result (λ bytes. D.tells → (row_bytes : List ℕ) → length row_bytes ≡ size
        → ((i : ℕ) → 4096 * i < length row_bytes → IsBegun row_bytes i (page_of (D.content journal.old.disk) stored.now.base (swap_page stored.now.agent stored.now.row i stored.now.swap.now))) → bytes ≡ row_bytes) }
    ensures cause { IsErrOf result DataRefusal.DiskFault → Rose (D.faults journal.old.disk) (D.faults journal.new.disk) }
{
    let mut buffer = zeros(alloc, BLOCK_SIZE as usize)?;
    let mut bytes = zeros(alloc, size as usize)?;
    read_stored(stored, journal, 0, &mut buffer, &mut bytes)?;
    Ok(Bytes::from_vec(bytes))
}
