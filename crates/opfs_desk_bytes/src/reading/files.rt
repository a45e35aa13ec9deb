//! The present bytes of a file: those of the row of the access handle that may write it, else those of the file's blocks.

ghost use Rattle.std.specs.Prelude.{◌≡◌, ℕ, ◌+◌, ◌*◌, ◌^◌, ◌<◌, ◌≤◌, true, false, length, List, IfOk, IfSome, IfNone, IsErrOf};
ghost use Rattle.opfs_base.specs.Places.{place_of};
ghost use Rattle.opfs_data.specs.Calls.{Reads};
ghost use Rattle.opfs_data.specs.Pages.{LiesIn, IsDataPart};
ghost use Rattle.opfs_data.specs.Rows.{page_at};
ghost use Rattle.opfs_desk_bytes.specs.Reading.Files.{is_writer, has_writer, AreOfAgents, IsPresent, MayReadFile};
ghost use Rattle.opfs_locks.specs.declared.LockValue.TheVariants as value;
ghost use Rattle.opfs_outside.specs.Faults.{Rose};
ghost use Rattle.opfs_state.specs.Verdicts.Callers.{IsAgent};

use opfs_base::{Bytes, Locator};
use opfs_data::{DataRefusal, Swap, load};
use opfs_hist::Mode;
use opfs_journal::Journal;
use opfs_locks::LockValue;
use opfs_outside::Disk;
use opfs_pages::{StoredRow, read_handle};
use opfs_state::State;
use opfs_tree::FileRow;
use std::alloc::Global;

// Whether a row is that of an access handle that may write the file.
fn writes_file(state: &State, agent: u32, row: u32, file: &Locator) -> bool
    requires { IsAgent state.now.store.machine agent }
    ensures { result ≡ is_writer state.now.store.machine (place_of file.now) (agent, row) }
{
    match state.handle(agent, row) {
        Some(handle) => {
            handle.mode == Mode::ReadWrite
                && handle.file.0 == file.key
                && handle.file.1 == file.path
        }
        None => false,
    }
}

// The row of the access handle that may write a file, if one is open.
fn find_writer(state: &State, swap: &Swap, file: &Locator) -> Option<(u32, u32)>
    requires agents { AreOfAgents state.now.store.machine swap.now }
    ensures some { IfSome result (λ r. is_writer state.now.store.machine (place_of file.now) (r.0, r.1) ≡ true) }
    ensures none { IfNone result (has_writer state.now.store.machine (place_of file.now) swap.now ≡ false) }
{
    let mut next = swap.next_row(None);
    while let Some((agent, row, _)) = next {
        if writes_file(state, agent, row, file) {
            return Some((agent, row));
        }
        next = swap.next_row(Some((agent, row)));
    }
    None
}

// The same, by the file's lock.
fn writer_of(state: &State, swap: &Swap, file: &Locator, found: &FileRow) -> Option<(u32, u32)>
    requires agents { AreOfAgents state.now.store.machine swap.now }
    ensures some { IfSome result (λ r. is_writer state.now.store.machine (place_of file.now) (r.0, r.1) ≡ true) }
    ensures none { IfNone result (found.now.lock.0 ≡ value.Exclusive → has_writer state.now.store.machine (place_of file.now) swap.now ≡ false) }
{
    match found.lock.value() {
        LockValue::Exclusive => find_writer(state, swap, file),
        _ => None,
    }
}

/// Reads the present bytes of a file. Nothing else is changed.
pub(crate) fn read_file<D: Disk>(
    alloc: Global,
    state: &State,
    swap: &Swap,
    journal: &mut Journal<D>,
    base: u64,
    file: &Locator,
    found: &FileRow,
) -> Result<Bytes, DataRefusal>
    requires agents { AreOfAgents state.now.store.machine swap.now }
    requires may { MayReadFile state.now.store.machine (place_of file.now) found.now swap.now base (D.size journal.old.disk) }
    requires lies { (k n i : ℕ) → LiesIn base (D.size journal.old.disk) (page_at k n i swap.now).block }
    requires part { IsDataPart journal.old.areas base }
    ensures reads { Reads D.Disk journal.old journal.new }
    ensures size { IfOk result (λ bytes. length bytes ≡ found.now.present) }
    ensures read { IfOk result (λ bytes. D.tells → (present : List ℕ) → IsPresent state.now.store.machine (place_of file.now) found.now swap.now (D.content journal.old.disk) base present → bytes ≡ present) }
    ensures cause { IsErrOf result DataRefusal.DiskFault → Rose (D.faults journal.old.disk) (D.faults journal.new.disk) }
{
    match writer_of(state, swap, file, found) {
        Some((agent, row)) => {
            let stored = StoredRow {
                agent,
                row,
                swap,
                base,
            };
            read_handle(alloc, &stored, journal, found.present)
        }
        None => load(
            alloc,
            journal,
            base,
            found.extents.as_slice(),
            found.present,
        ),
    }
}
