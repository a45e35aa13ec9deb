//! Pipes over a disk in memory.

use crate::pipe::checks::{LARGE, refuses, sends, sends_all};
use std::test::Fail;

#[test]
fn a_range_is_the_content_of_the_target(rt: HostRuntime) -> Result<(), Fail> {
    assert!(rt; sends(&rt, 1, 8_193, 8_193)?);
    assert!(rt; sends(&rt, 10_000, 5, 0)?);
    Ok(())
}

#[test]
fn a_full_quota_leaves_a_front(rt: HostRuntime) -> Result<(), Fail> {
    assert!(rt; refuses(&rt)?);
    Ok(())
}

#[test]
fn sixty_four_mebibytes_go_over(rt: HostRuntime) -> Result<(), Fail> {
    assert!(rt; sends_all(&rt, LARGE, 50_331_648, 16_777_216)?);
    Ok(())
}
