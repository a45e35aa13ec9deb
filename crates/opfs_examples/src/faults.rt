//! Examples of faults of the disk.

ghost use Rattle.opfs_examples.specs.Faults.{ADiskFaultLeavesTheStreamOpen, AFaultStoresNothing};

/// A close that the disk refuses stores nothing and leaves the stream open.
pub fn a_disk_fault_leaves_the_stream_open()
    ensures { ADiskFaultLeavesTheStreamOpen }
{}

/// A close that the disk refuses stores nothing, nor does the abort after it.
pub fn a_fault_stores_nothing()
    ensures { AFaultStoresNothing }
{}
