//! Pages read from their blocks, and written into them.

ghost use Rattle.std.specs.Prelude.{◌≡◌, ◌+◌, ◌*◌, ◌^◌, ◌<◌, ◌≤◌, ℕ, List, Some, None, false, length, slice_index_or, OnOk, OnErr};
ghost use Rattle.std.specs.List.{AllByRecursion};
ghost use Rattle.opfs_outside.specs.Faults.{Rose};
ghost use Rattle.opfs_data.specs.Calls.{Reads, Writes};
ghost use Rattle.opfs_data.specs.Places.{AllLie};
ghost use Rattle.opfs_data.specs.Writes.{writes_of, AreWithin};
ghost use Rattle.opfs_data.specs.Pages.{block_bytes, page_of, runs_of, AreOnce, LiesIn, IsDataPart};

use crate::page::Page;
use crate::page_run::PageRun;
use opfs_base::BLOCK_SIZE;
use opfs_journal::{DiskFault, Journal};
use opfs_outside::Disk;

// The byte where a block begins.
fn place_of(base: u64, block: u32) -> u64
    requires { base < 2 ^ 63 }
    ensures { result ≡ base + 4096 * block }
{
    base + u64::from(block) * BLOCK_SIZE
}

/// Reads a page: the bytes that are kept of it, or those of its block, or zeros.
pub fn read_page<D: Disk>(
    journal: &mut Journal<D>,
    base: u64,
    page: &Page,
    into: &mut [u8],
) -> Result<(), DiskFault>
    requires whole { length into.old ≡ 4096 }
    requires lies { LiesIn base (D.size journal.old.disk) page.now.block }
    requires part { IsDataPart journal.old.areas base }
    ensures reads { Reads D.Disk journal.old journal.new }
    ensures read { OnOk result (D.tells → into.new ≡ page_of (D.content journal.old.disk) base page.now) }
    ensures cause { OnErr result (Rose (D.faults journal.old.disk) (D.faults journal.new.disk)) }
{
    if let Some(kept) = &page.kept {
        into.copy_from_slice(kept.as_slice());
        return Ok(());
    }
    let Some(block) = page.block else {
        into.fill(0);
        return Ok(());
    };
    journal.get(place_of(base, block), into)?;
    Ok(())
}

/// Writes the pages of runs into their blocks, by one put for each run.
pub fn put_pages<D: Disk>(
    journal: &mut Journal<D>,
    base: u64,
    runs: &[PageRun],
    own: &[u8],
    given: &[u8],
) -> Result<(), DiskFault>
    requires settled { journal.old.in_doubt ≡ false }
    requires lies { AllLie base (D.size journal.old.disk) (runs_of (writes_of own.now given.now runs.now)) }
    requires part { IsDataPart journal.old.areas base }
    requires once { AreOnce (writes_of own.now given.now runs.now) }
    requires within { AreWithin own.now given.now runs.now }
    ensures writes { Writes D.Disk base (runs_of (writes_of own.now given.now runs.now)) journal.old journal.new }
    ensures written { OnOk result (D.tells → AllByRecursion (λ w. block_bytes (D.content journal.new.disk) base w.block ≡ w.bytes) (writes_of own.now given.now runs.now)) }
    ensures cause { OnErr result (Rose (D.faults journal.old.disk) (D.faults journal.new.disk)) }
{
    // No gate is in doubt, so this calls no disk.
    journal.settle()?;
    for run in runs {
        journal.put(place_of(base, run.block()), run.bytes(own, given))?;
    }
    Ok(())
}
