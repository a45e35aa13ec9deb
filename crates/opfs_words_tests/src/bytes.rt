//! Bytes by position.

use opfs_splice::{patch, resize, window, window_of};
use std::alloc::{AllocError, Global};

// `abc` after a write.
fn patched(alloc: Global, position: u64, new: &[u8]) -> Result<Vec<u8>, AllocError> {
    let mut bytes = Vec::with_capacity(alloc, 16)?;
    bytes.extend_from_slice(b"abc")?;
    if position <= 8 && new.len() <= 8 {
        bytes.reserve(16)?;
        patch(&mut bytes, position, new);
    }
    Ok(bytes)
}

// Whether `abc` is so after a write.
fn is_patched(alloc: Global, position: u64, new: &[u8], wanted: &[u8]) -> Result<bool, AllocError> {
    let bytes = patched(alloc, position, new)?;
    Ok(bytes.as_slice() == wanted)
}

#[test]
fn writes_stand_at_their_position(rt: HostRuntime) -> Result<(), AllocError> {
    let cases: [(u64, &[u8], &[u8]); 6] = [
        (0, b"xy", b"xyc"),
        (2, b"xy", b"abxy"),
        (3, b"x", b"abcx"),
        (5, b"x", b"abc\0\0x"),
        (5, b"", b"abc\0\0"),
        (1, b"", b"abc"),
    ];
    for (position, new, wanted) in cases {
        assert!(rt;
            is_patched(rt.alloc(), position, new, wanted)?,
            "{position}"
        );
    }
    Ok(())
}

// `abc` of another size.
fn resized(alloc: Global, size: u64) -> Result<Vec<u8>, AllocError> {
    let mut bytes = Vec::with_capacity(alloc, 16)?;
    bytes.extend_from_slice(b"abc")?;
    bytes.reserve(16)?;
    if size <= 8 {
        resize(&mut bytes, size);
    }
    Ok(bytes)
}

// Whether `abc` is so in another size.
fn is_resized(alloc: Global, size: u64, wanted: &[u8]) -> Result<bool, AllocError> {
    let bytes = resized(alloc, size)?;
    Ok(bytes.as_slice() == wanted)
}

#[test]
fn sizes_cut_and_fill(rt: HostRuntime) -> Result<(), AllocError> {
    let cases: [(u64, &[u8]); 4] = [(0, b""), (2, b"ab"), (3, b"abc"), (5, b"abc\0\0")];
    for (size, wanted) in cases {
        assert!(rt; is_resized(rt.alloc(), size, wanted)?, "{size}");
    }
    Ok(())
}

// Whether a window of `abcd` is so, copied and borrowed.
fn are_windows(
    alloc: Global,
    start: u64,
    len: u64,
    wanted: &[u8],
) -> Result<[bool; 2], AllocError> {
    let copied = window(alloc, b"abcd", start, len)?;
    let borrowed = window_of(b"abcd", start, len);
    Ok([copied.as_slice() == wanted, borrowed == wanted])
}

#[test]
fn windows_end_at_the_end(rt: HostRuntime) -> Result<(), AllocError> {
    let cases: [(u64, u64, &[u8]); 5] = [
        (2, 9, b"cd"),
        (0, 2, b"ab"),
        (4, 1, b""),
        (9, 1, b""),
        (1, u64::MAX, b"bcd"),
    ];
    for (start, len, wanted) in cases {
        assert_eq!(rt;
            are_windows(rt.alloc(), start, len, wanted)?,
            [true; 2],
            "{start}"
        );
    }
    Ok(())
}
