//! Refusals of images, as they print.

use opfs_image::ImageRefusal;
use std::alloc::{AllocError, Global};
use std::test::Fail;

// Two refusals with their numbers, as they print.
fn printed(alloc: Global) -> Result<(String, String), AllocError> {
    let record = ImageRefusal::BadRecord(4096);
    let full = ImageRefusal::Overfull(4924, 4096);
    Ok((format!(in alloc; "{record}")?, format!(in alloc; "{full}")?))
}

#[test]
fn refusals_print_their_numbers(rt: HostRuntime) -> Result<(), Fail> {
    let (record, full) = printed(rt.alloc())?;
    assert_eq!(rt; record.as_str(), "a bad record at byte 4096");
    assert_eq!(rt;
        full.as_str(),
        "a charge of 4924 passes an area of 4096 bytes"
    );
    Ok(())
}
