//! Files with few records, as they are answered, as they are stored, and as they are refused.

use crate::kv::steps::{Step, is_value, ops_of};
use crate::kv::visits::{Ending, Visit, bytes_in, list_keys, run_visit, use_example, with_bytes};
use crate::pipe::running::{SIZES, image};
use opfs_base::{Bytes, Data};
use opfs_kv::{KvReply, KvStop};
use opfs_memory::RamDisk;
use std::alloc::AllocError;
use std::sync::Wait;
use std::test::Fail;

/// The disk after steps on the store's file, and what they are answered.
pub fn after<R: AllocGlobal + Wait>(
    rt: &R,
    disk: RamDisk,
    steps: &[Step],
    ending: Ending,
) -> Result<(RamDisk, Vec<KvReply>), AllocError> {
    let ops = ops_of(rt.alloc(), steps)?;
    let Ok(Visit { disk, found, .. }) = run_visit(rt, disk, &ops, ending) else {
        return Err(AllocError);
    };
    match found {
        Ok(replies) => Ok((disk, replies.list)),
        Err(_) => Err(AllocError),
    }
}

/// Whether the store's file has these bytes, and the disk.
pub fn has_bytes<R: AllocGlobal + Wait>(
    rt: &R,
    disk: RamDisk,
    bytes: &[u8],
) -> Result<(RamDisk, bool), AllocError> {
    let Ok(Visit { disk, found, .. }) = bytes_in(rt, disk) else {
        return Err(AllocError);
    };
    match found {
        Ok(found) => Ok((disk, found.as_slice() == bytes)),
        Err(_) => Err(AllocError),
    }
}

// What the example finds of a key to which it gives this value, and whether that was there when it was taken out.
fn example<R: AllocGlobal + Wait>(rt: &R) -> Result<bool, AllocError> {
    let disk = image(rt.alloc(), SIZES)?;
    let key = Bytes::copy_of(rt.alloc(), b"a")?;
    let value = Bytes::copy_of(rt.alloc(), b"1")?;
    let Ok(Visit { found, .. }) = use_example(rt, disk, &key, &value) else {
        return Err(AllocError);
    };
    match found {
        Ok((found, was)) => Ok(is_value(Some(&KvReply::Value(found)), Some("1")) && was),
        Err(_) => Ok(false),
    }
}

#[test]
fn a_value_is_put_read_and_taken_out(rt: HostRuntime) -> Result<(), Fail> {
    assert!(rt; example(&rt)?);
    Ok(())
}

// Two puts of one key make two records; written anew there is one.
fn packs<R: AllocGlobal + Wait>(rt: &R) -> Result<bool, AllocError> {
    let steps = [
        Step::Put("a", "1"),
        Step::Put("a", "2"),
        Step::Delete("b"),
        Step::Get("a"),
    ];
    let disk = image(rt.alloc(), SIZES)?;
    let (disk, replies) = after(rt, disk, &steps, Ending::Close)?;
    let two = b"\x01\x01a\x01\x00\x00\x001\x01\x01a\x01\x00\x00\x002";
    let (disk, long) = has_bytes(rt, disk, two)?;
    let (disk, _) = after(rt, disk, &[Step::Compact], Ending::Close)?;
    let (_, short) = has_bytes(rt, disk, b"\x01\x01a\x01\x00\x00\x002")?;
    Ok(answers(&replies) && long && short)
}

// Whether replies are to two puts, the delete of a key that is not there, and the get of the value 2.
fn answers(replies: &[KvReply]) -> bool {
    match replies {
        [KvReply::Done, KvReply::Done, KvReply::Was(false), value] => {
            is_value(Some(value), Some("2"))
        }
        _ => false,
    }
}

#[test]
fn a_compact_leaves_one_record_a_key(rt: HostRuntime) -> Result<(), Fail> {
    assert!(rt; packs(&rt)?);
    Ok(())
}

// Of what was put before a flush and behind it, the first is there when the file is given up.
fn stops_behind_a_flush<R: AllocGlobal + Wait>(rt: &R) -> Result<bool, AllocError> {
    let steps = [Step::Put("a", "2"), Step::Flush, Step::Put("c", "3")];
    let disk = image(rt.alloc(), SIZES)?;
    let (disk, _) = after(rt, disk, &steps, Ending::GiveUp)?;
    let (_, replies) = after(rt, disk, &[Step::Get("a"), Step::Get("c")], Ending::Close)?;
    Ok(is_value(replies.first(), Some("2")) && is_value(replies.last(), None))
}

#[test]
fn what_was_flushed_is_there(rt: HostRuntime) -> Result<(), Fail> {
    assert!(rt; stops_behind_a_flush(&rt)?);
    Ok(())
}

// The disk of a store whose file has these few bytes.
fn written<R: AllocGlobal + Wait>(rt: &R, bytes: &[u8]) -> Result<RamDisk, AllocError> {
    if bytes.len() > 64 {
        return Err(AllocError);
    }
    let alloc = rt.alloc();
    let data = Data::given(alloc, Bytes::copy_of(alloc, bytes)?)?;
    match with_bytes(rt, image(alloc, SIZES)?, &data) {
        Ok(visit) => Ok(visit.disk),
        Err(_) => Err(AllocError),
    }
}

// The place at which a file of these bytes is refused; None where it opens as the empty map.
fn refused<R: AllocGlobal + Wait>(rt: &R, bytes: &[u8]) -> Result<Option<u64>, AllocError> {
    let alloc = rt.alloc();
    let disk = written(rt, bytes)?;
    let ops = ops_of(alloc, &[Step::Get("a")])?;
    let Ok(Visit { found, .. }) = run_visit(rt, disk, &ops, Ending::Close) else {
        return Err(AllocError);
    };
    match found {
        Err(KvStop::BadFile(place)) => Ok(Some(place)),
        Ok(replies) if is_value(replies.list.first(), None) => Ok(None),
        _ => Err(AllocError),
    }
}

#[test]
fn files_that_are_no_records_are_refused(rt: HostRuntime) -> Result<(), Fail> {
    let rows: [(&[u8], Option<u64>); 3] = [(b"\x03", Some(0)), (b"\x01\x01", Some(0)), (b"", None)];
    for (bytes, wanted) in rows {
        assert_eq!(rt; refused(&rt, bytes)?, wanted);
    }
    Ok(())
}

// Whether just this key is listed.
fn is_alone(keys: &[Bytes], key: &Bytes) -> bool {
    match keys {
        [only] => only.as_slice() == key.as_slice(),
        _ => false,
    }
}

// The keys "a" and "b" are put, and those from "b" on are listed.
fn lists<R: AllocGlobal + Wait>(rt: &R) -> Result<bool, AllocError> {
    let alloc = rt.alloc();
    let disk = image(alloc, SIZES)?;
    let key = Bytes::copy_of(alloc, b"a")?;
    let other = Bytes::copy_of(alloc, b"b")?;
    let value = Bytes::copy_of(alloc, b"1")?;
    let Ok(Visit { found, .. }) = list_keys(rt, disk, &key, &other, &value) else {
        return Err(AllocError);
    };
    match found {
        Ok((did, keys, count)) => Ok(!did && count == 2 && is_alone(keys.as_slice(), &other)),
        Err(_) => Err(AllocError),
    }
}

#[test]
fn keys_are_listed_from_one_on(rt: HostRuntime) -> Result<(), Fail> {
    assert!(rt; lists(&rt)?);
    Ok(())
}
