//! Pages in blocks, and a write that fails.

ghost use Rattle.std.specs.Prelude.{◌≡◌, [], ◌∷◌, ℕ, List, length, IfOk};
ghost use Rattle.opfs_data.specs.Writes.{page_writes, AreWithin};
ghost use Rattle.opfs_storage_tests.specs.Data.OneRow.{IsReady};

use crate::data::disks::{BASE, begun};
use opfs_base::Extent;
use opfs_data::{DataRefusal, PageWrites, PagedRow};
use opfs_journal::Journal;
use opfs_memory::MemDisk;
use std::alloc::{AllocError, Global};
use std::test::Fail;

// One page that goes into block 0.
pub fn one_page(alloc: Global, bytes: &[u8]) -> Result<PageWrites, AllocError>
    requires { length bytes.now ≡ 4096 }
    ensures pages { IfOk result (λ writes. (given : List ℕ) → page_writes writes given ≡ (record { page = 0; block = 0; bytes = bytes.now }) ∷ []) }
    ensures bytes { IfOk result (λ writes. (given : List ℕ) → AreWithin writes.own given writes.runs) }
{
    let mut writes = PageWrites::make(alloc);
    writes.add_own(0, 0, bytes)?;
    Ok(writes)
}

// What is seen of a page: its first and last byte, its block, how many pages are kept, and how many there are.
type Seen = ([u8; 2], Option<u32>, u64, u64);

// Writes the first page of a row, and looks at it.
fn write_and_look(alloc: Global, journal: &mut Journal<MemDisk>) -> Result<Seen, DataRefusal>
    requires { IsReady journal.old }
{
    let mut row = PagedRow::make(alloc, &[])?;
    let bytes = vec![in alloc; 65u8; 4096]?;
    let writes = one_page(alloc, &bytes)?;
    row.prepare(alloc, journal, BASE, 1, &writes)?;
    row.write(journal, BASE, 1, &writes, &[])?;
    let mut into = [0; 4096];
    row.read(journal, BASE, 0, &mut into)?;
    Ok(([into[0], into[4095]], row.block(0), row.kept(), row.len()))
}

#[test]
fn a_page_is_written_and_read(rt: HostRuntime) -> Result<(), Fail> {
    let mut journal = begun(rt.alloc(), &[])?;
    let seen = write_and_look(rt.alloc(), &mut journal)?;
    assert_eq!(rt; seen, ([65, 65], Some(0), 0, 1));
    Ok(())
}

#[test]
fn a_row_has_the_blocks_of_its_runs(rt: HostRuntime) -> Result<(), Fail> {
    let alloc = rt.alloc();
    let runs = [Extent { start: 2, count: 1 }, Extent { start: 0, count: 2 }];
    let row = PagedRow::make(alloc, &runs)?;
    assert_eq!(rt; row.len(), 3);
    assert_eq!(rt; row.block(0), Some(2));
    assert_eq!(rt; row.block(2), Some(1));
    Ok(())
}
