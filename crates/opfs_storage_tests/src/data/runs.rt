//! Bytes in runs of blocks.

ghost use Rattle.opfs_storage_tests.specs.Data.OneRow.{IsReady};

use crate::data::disks::{BASE, begun};
use opfs_base::Extent;
use opfs_data::{DataRefusal, load, store};
use opfs_journal::{DiskFault, Journal};
use opfs_memory::MemDisk;
use std::alloc::Global;
use std::test::Fail;

// Block 3, and then blocks 0 and 1.
const RUNS: [Extent; 2] = [Extent { start: 3, count: 1 }, Extent { start: 0, count: 2 }];

// Stores two blocks and a part of a third, and says whether all of it is loaded, and a front that ends within the second block.
fn store_and_load(alloc: Global, journal: &mut Journal<MemDisk>) -> Result<[bool; 2], DataRefusal>
    requires { IsReady journal.old }
{
    let mut bytes = vec![in alloc; 7u8; 4096]?;
    bytes.resize(9000, 9)?;
    store(journal, BASE, &RUNS, &bytes)?;
    let all = load(alloc, journal, BASE, &RUNS, 9000)?;
    let same = all.as_slice() == bytes.as_slice();
    let front = load(alloc, journal, BASE, &RUNS, 4098)?;
    let is_front = bytes.get(..4098) == Some(front.as_slice());
    Ok([same, is_front])
}

// Whether the disk behind a journal has five blocks, the first bytes in the last one and the last bytes in the third.
fn holds_all(journal: Journal<MemDisk>) -> [bool; 3] {
    let disk = journal.give_back();
    let content = disk.content();
    [
        content.len() == 20480,
        content.get(16383..16386) == Some([0, 7, 7].as_slice()),
        content.get(8998..9002) == Some([9, 9, 0, 0].as_slice()),
    ]
}

#[test]
fn bytes_are_stored_run_after_run(rt: HostRuntime) -> Result<(), Fail> {
    let mut journal = begun(rt.alloc(), &[])?;
    assert_eq!(rt; store_and_load(rt.alloc(), &mut journal)?, [true; 2]);
    assert_eq!(rt; holds_all(journal), [true; 3]);
    Ok(())
}

#[test]
fn a_failing_disk_stores_and_loads_nothing(rt: HostRuntime) -> Result<(), Fail> {
    let alloc = rt.alloc();
    let mut journal = begun(alloc, &[5, 6])?;
    assert_eq!(rt; store(&mut journal, BASE, &RUNS, &[1]), Err(DiskFault));
    let found = load(alloc, &mut journal, BASE, &RUNS, 1);
    assert_eq!(rt; found.err(), Some(DataRefusal::DiskFault));
    Ok(())
}
