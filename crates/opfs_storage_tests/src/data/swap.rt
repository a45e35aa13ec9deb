//! A page of one row, written three times, the second time onto a disk that fails.

ghost use Rattle.std.specs.Prelude.{◌≡◌, [], ◌∷◌, ◌≤◌, length, IfOk, OnOk};
ghost use Rattle.opfs_storage_tests.specs.Data.OneRow.{HasNone, HasOne, IsReady};

use crate::data::disks::{BASE, begun};
use crate::data::pages::one_page;
use opfs_base::Extent;
use opfs_data::{DataRefusal, Swap};
use opfs_journal::{DiskFault, Journal};
use opfs_memory::MemDisk;
use std::alloc::{AllocError, Global};
use std::test::Fail;

// A swap with the first row of agent 1, which has no pages.
fn one_row(alloc: Global) -> Result<Swap, AllocError>
    ensures { IfOk result (λ swap. HasNone swap) }
{
    let mut swap = Swap::make(alloc);
    swap.open(alloc, 1, 1, &[])?;
    Ok(swap)
}

// Writes the row's first page.
fn put_first(
    alloc: Global,
    swap: &mut Swap,
    journal: &mut Journal<MemDisk>,
    byte: u8,
) -> Result<(), DataRefusal>
    requires none { HasNone swap.old }
    requires ready { IsReady journal.old }
    ensures one { OnOk result (HasOne swap.new) }
    ensures ready { OnOk result (IsReady journal.new) }
{
    let bytes = vec![in alloc; byte; 4096]?;
    let writes = one_page(alloc, &bytes)?;
    swap.prepare(alloc, journal, BASE, 1, 1, 1, &writes)?;
    swap.write(journal, BASE, 1, 1, 1, &writes, &[])?;
    Ok(())
}

// Writes the page again, and tells whether the write itself was done.
fn put_again(
    alloc: Global,
    swap: &mut Swap,
    journal: &mut Journal<MemDisk>,
    byte: u8,
) -> Result<bool, DataRefusal>
    requires one { HasOne swap.old }
    requires ready { IsReady journal.old }
    ensures one { OnOk result (HasOne swap.new) }
    ensures ready { OnOk result (IsReady journal.new) }
{
    let bytes = vec![in alloc; byte; 4096]?;
    let writes = one_page(alloc, &bytes)?;
    swap.prepare(alloc, journal, BASE, 1, 1, 1, &writes)?;
    if swap.write(journal, BASE, 1, 1, 1, &writes, &[]).is_err() {
        return Ok(false);
    }
    Ok(true)
}

// What is seen of the page: how many are kept, its block, and its first and last byte.
#[derive(Debug, PartialEq, Drop)]
struct PageView {
    kept: u64,
    block: Option<u32>,
    ends: (u8, u8),
}

fn look(swap: &Swap, journal: &mut Journal<MemDisk>) -> Result<PageView, DiskFault>
    requires one { HasOne swap.now }
    requires ready { IsReady journal.old }
    ensures { OnOk result (IsReady journal.new) }
{
    let mut into = [0; 4096];
    swap.read(journal, BASE, 1, 1, 0, &mut into)?;
    Ok(PageView {
        kept: swap.kept(),
        block: swap.block(1, 1, 0),
        ends: (into[0], into[4095]),
    })
}

// The views after each of the writes, and whether the second and the third were done.
fn three_writes(
    alloc: Global,
    swap: &mut Swap,
    journal: &mut Journal<MemDisk>,
) -> Result<([PageView; 3], [bool; 2]), DataRefusal>
    requires none { HasNone swap.old }
    requires ready { IsReady journal.old }
{
    put_first(alloc, swap, journal, 65)?;
    let first = look(swap, journal)?;
    let failed = put_again(alloc, swap, journal, 66)?;
    let second = look(swap, journal)?;
    let done = put_again(alloc, swap, journal, 66)?;
    let third = look(swap, journal)?;
    Ok(([first, second, third], [failed, done]))
}

fn seen(kept: u64, byte: u8) -> PageView {
    PageView {
        kept,
        block: Some(0),
        ends: (byte, byte),
    }
}

#[test]
fn a_write_that_fails_keeps_the_page(rt: HostRuntime) -> Result<(), Fail> {
    // To begin takes four calls of the disk, each write and each read one, and the second write reads before: its put is the eighth call.
    let mut journal = begun(rt.alloc(), &[8])?;
    let mut swap = one_row(rt.alloc())?;
    let (views, done) = three_writes(rt.alloc(), &mut swap, &mut journal)?;
    assert_eq!(rt; done, [false, true]);
    assert_eq!(rt; views, [seen(0, 65), seen(1, 65), seen(0, 66)]);
    Ok(())
}

// The block of the one page of agent 2's row, before and after another row with the same number is dropped, and then that
// of the other row, opened again.
fn two_rows(alloc: Global) -> Result<[Option<u32>; 3], AllocError> {
    let mut swap = Swap::make(alloc);
    swap.open(alloc, 1, 7, &[Extent { start: 5, count: 2 }])?;
    swap.open(alloc, 2, 7, &[Extent { start: 8, count: 1 }])?;
    let before = swap.block(2, 7, 0);
    swap.drop_row(1, 7);
    let after = swap.block(2, 7, 0);
    swap.open(alloc, 1, 7, &[Extent { start: 3, count: 1 }])?;
    Ok([before, after, swap.block(1, 7, 0)])
}

#[test]
fn a_dropped_row_leaves_the_others(rt: HostRuntime) -> Result<(), Fail> {
    let blocks = two_rows(rt.alloc())?;
    assert_eq!(rt; blocks, [Some(8), Some(8), Some(3)]);
    Ok(())
}
