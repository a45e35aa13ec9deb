//! Changes are read and written.

ghost use Rattle.std.specs.Prelude.{◌≡◌};
ghost use Rattle.opfs_codec.specs.Spelling.{IsChange};
ghost use Rattle.opfs_codec.specs.Fields.{plain};
ghost use Rattle.opfs_codec.specs.declared.change.Format.TheVariants.{New};

use opfs_codec::{Change, ChangeRef, charge, read, read_old, write};
use std::alloc::{AllocError, Global};
use std::test::Fail;

// The same change, borrowed.
#[tactic(auto, unfolding(opfs_codec::specs::Fields::plain))]
fn borrowed(change: &Change) -> ChangeRef<'_>
    ensures { plain result ≡ change.now }
{
    match change {
        Change::MakeRoot(unit) => ChangeRef::MakeRoot(unit),
        Change::MakeDir(unit, path) => ChangeRef::MakeDir(unit, path),
        Change::MakeFile(unit, path, stamp) => ChangeRef::MakeFile(unit, path, *stamp),
        Change::Remove(unit, path) => ChangeRef::Remove(unit, path),
        Change::Content(unit, path, stamp, size, extents) => {
            ChangeRef::Content(unit, path, *stamp, *size, extents)
        }
        Change::Persist(unit) => ChangeRef::Persist(unit),
        Change::Evict(unit) => ChangeRef::Evict(unit),
    }
}

// A change's charge and its bytes.
#[tactic(auto, using(opfs_codec::proofs::WritingLemmas::change_fits))]
fn written(alloc: Global, change: &Change) -> Result<(u64, Vec<u8>), AllocError>
    requires { IsChange New change.now }
{
    let change = borrowed(change);
    let mut bytes = Vec::new(alloc);
    write(&change, &mut bytes)?;
    Ok((charge(&change), bytes))
}

// Two lists of bytes, one behind the other.
fn joined(alloc: Global, front: &[u8], rest: &[u8]) -> Result<Vec<u8>, AllocError> {
    let mut bytes = Vec::from_slice(alloc, front)?;
    bytes.extend_from_slice(rest)?;
    Ok(bytes)
}

// Whether a change of format 2 begins in the bytes.
fn begins(alloc: Global, bytes: &[u8]) -> Result<bool, AllocError> {
    Ok(read(alloc, bytes, 0)?.is_some())
}

// Whether a change of format 1 begins in the bytes.
fn begins_old(alloc: Global, bytes: &[u8]) -> Result<bool, AllocError> {
    Ok(read_old(alloc, bytes, 0)?.is_some())
}

// Whether a change makes the root of a unit.
fn is_root(change: &Change, text: &str) -> bool {
    match change {
        Change::MakeRoot(unit) => unit.as_str() == text,
        _ => false,
    }
}

#[test]
fn a_root_is_read_at_every_cut(rt: HostRuntime) -> Result<(), Fail> {
    let alloc = rt.alloc();
    let bytes: &[u8] = b"\x01\x11\x00https://a.example\x07default";
    assert_eq!(rt; bytes.len(), 28);
    for end in 0..28 {
        assert!(rt; !begins(alloc, &bytes[..end])?, "at {end}");
    }
    match read(alloc, bytes, 0)? {
        Some((change, end)) => {
            assert!(rt; is_root(&change, "https://a.example"));
            assert_eq!(rt; end, 28);
        }
        None => assert!(rt; false, "no root"),
    }
    assert!(rt; read(alloc, bytes, 28)?.is_none());
    assert!(rt; read(alloc, bytes, 29)?.is_none());
    Ok(())
}

#[test]
fn an_old_root_is_read_at_every_cut(rt: HostRuntime) -> Result<(), Fail> {
    let alloc = rt.alloc();
    let bytes: &[u8] = b"\x01\x11\x00https://a.example";
    assert_eq!(rt; bytes.len(), 20);
    for end in 0..20 {
        assert!(rt; !begins_old(alloc, &bytes[..end])?, "at {end}");
    }
    match read_old(alloc, bytes, 0)? {
        Some((change, end)) => {
            assert!(rt; is_root(&change, "https://a.example"));
            assert_eq!(rt; end, 20);
        }
        None => assert!(rt; false, "no root"),
    }
    assert!(rt; !begins(alloc, bytes)?);
    Ok(())
}

// Reads a change of format 2, and gives its place behind, its charge and its bytes written again.
fn again(alloc: Global, bytes: &[u8]) -> Result<Option<(u64, u64, Vec<u8>)>, AllocError> {
    match read(alloc, bytes, 0)? {
        Some((change, end)) => {
            let (charge, bytes) = written(alloc, &change)?;
            Ok(Some((end, charge, bytes)))
        }
        None => Ok(None),
    }
}

#[test]
fn each_kind_is_read_and_written(rt: HostRuntime) -> Result<(), Fail> {
    let alloc = rt.alloc();
    let unit: &[u8] = b"\x11\x00https://a.example\x07default";
    let cases: [(u8, &[u8], u64); 7] = [
        (1, b"", 28),
        (2, b"\x01\x04note", 34),
        (3, b"\x01\x04note\x07\0\0\0\0\0\0\0", 42),
        (4, b"\x01\x04note", 34),
        (
            5,
            b"\x01\x04note\x07\0\0\0\0\0\0\0\x05\0\0\0\0\0\0\0\x01\0\0\0\x03\0\0\0\x01\0\0\0",
            62,
        ),
        (6, b"", 28),
        (7, b"", 28),
    ];
    for (kind, fields, charge) in cases {
        let front = joined(alloc, &[kind], unit)?;
        let bytes = joined(alloc, front.as_slice(), fields)?;
        let more = joined(alloc, bytes.as_slice(), b"\x01")?;
        match again(alloc, more.as_slice())? {
            Some((end, charged, back)) => {
                assert_eq!(rt; end, charge, "kind {kind}");
                assert_eq!(rt; charged, charge, "kind {kind}");
                assert_eq!(rt; back.as_slice(), bytes.as_slice(), "kind {kind}");
            }
            None => assert!(rt; false, "kind {kind}"),
        }
    }
    Ok(())
}

#[test]
fn other_bytes_are_no_change(rt: HostRuntime) -> Result<(), Fail> {
    let alloc = rt.alloc();
    let cases: [&[u8]; 12] = [
        b"\x00\x11\x00https://a.example\x07default",
        b"\x08\x11\x00https://a.example\x07default",
        b"\x01\x00\x11https://a.example\x07default",
        b"\x01\x00\x00\x07default",
        b"\x01\x11\x00https://a#example\x07default",
        b"\x01\x11\x00https://a.ex\xffmple\x07default",
        b"\x01\x11\x00https://a.example\x07Default",
        b"\x01\x11\x00https://a.example\x00",
        b"\x02\x11\x00https://a.example\x07default\x01\x02..",
        b"\x02\x11\x00https://a.example\x07default\x01\x03a/b",
        b"\x02\x11\x00https://a.example\x07default\x01\x00",
        b"\x02\x11\x00https://a.example\x07default\x02\x04note",
    ];
    for bytes in cases {
        assert!(rt; !begins(alloc, bytes)?, "{bytes:?}");
    }
    assert!(rt; begins_old(alloc, b"\x01\x11\x00https://a#example")?);
    Ok(())
}

// A content of 65,536 blocks in so many extents of so many blocks.
fn content(alloc: Global, extents: u32, blocks: u32) -> Result<Vec<u8>, AllocError> {
    let unit: &[u8] = b"\x05\x11\x00https://a.example\x07default\x01\x04note";
    let mut bytes = joined(alloc, unit, &1_u64.to_le_bytes())?;
    bytes.extend_from_slice(&268_435_456_u64.to_le_bytes())?;
    bytes.extend_from_slice(&extents.to_le_bytes())?;
    let mut start: u32 = 0;
    for _ in 0..extents {
        bytes.extend_from_slice(&start.to_le_bytes())?;
        bytes.extend_from_slice(&blocks.to_le_bytes())?;
        start = start.wrapping_add(blocks);
    }
    Ok(bytes)
}

#[test]
fn a_large_content_is_read_and_written(rt: HostRuntime) -> Result<(), Fail> {
    let alloc = rt.alloc();
    for (extents, blocks, len) in [(1, 65_536, 62), (65_536, 1, 524_342)] {
        let bytes = content(alloc, extents, blocks)?;
        assert_eq!(rt; bytes.len(), len);
        match again(alloc, bytes.as_slice())? {
            Some((end, charge, back)) => {
                assert_eq!(rt; end, len as u64);
                assert_eq!(rt; charge, 524_342);
                assert!(rt; back == bytes);
            }
            None => assert!(rt; false, "no content"),
        }
    }
    Ok(())
}
