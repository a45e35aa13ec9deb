//! A file with many records: each get adds one entry at most.

use crate::kv::visits::{Ending, Visit, run_visit};
use crate::pipe::running::{SIZES, image};
use opfs_base::Bytes;
use opfs_kv::{KvOp, KvReply};
use opfs_memory::RamDisk;
use std::alloc::{AllocError, Global};
use std::sync::Wait;
use std::test::Fail;

const COUNT: u32 = 10_000;

// The value of a number's key: 100 bytes.
fn value_of(alloc: Global, number: u32) -> Result<Bytes, AllocError> {
    let bytes = vec![in alloc; (number % 251) as u8; 100]?;
    Ok(Bytes::from_vec(bytes))
}

// The put or the get of a number's key.
fn op_of(alloc: Global, number: u32, puts: bool) -> Result<KvOp, AllocError> {
    let key = Bytes::copy_of(alloc, &number.to_be_bytes())?;
    if !puts {
        return Ok(KvOp::Get(key));
    }
    let value = value_of(alloc, number)?;
    Ok(KvOp::Put(key, value))
}

// The puts or the gets of so many numbers.
fn ops_of(alloc: Global, count: u32, puts: bool) -> Result<Vec<KvOp>, AllocError> {
    let mut ops = Vec::new(alloc);
    for number in 0..count {
        ops.push(op_of(alloc, number, puts)?)?;
    }
    Ok(ops)
}

// The visit of so many puts or gets.
fn visit_of<R: AllocGlobal + Wait>(
    rt: &R,
    disk: RamDisk,
    count: u32,
    puts: bool,
) -> Result<(RamDisk, usize, Vec<KvReply>), AllocError> {
    let ops = ops_of(rt.alloc(), count, puts)?;
    let Ok(visit) = run_visit(rt, disk, &ops, Ending::Close) else {
        return Err(AllocError);
    };
    let Visit {
        disk,
        entries,
        found,
    } = visit;
    match found {
        Ok(replies) => Ok((disk, entries, replies.list)),
        Err(_) => Err(AllocError),
    }
}

// Whether replies are the values of numbers, in their order.
fn are_values(replies: &[KvReply]) -> bool {
    for (number, reply) in replies.iter().enumerate() {
        let byte = (number % 251) as u8;
        match reply {
            KvReply::Value(Some(value)) if value.as_slice() == [byte; 100].as_slice() => {}
            _ => return false,
        }
    }
    true
}

// Whether all that was put is got, and each get adds one entry at most.
fn finds_all<R: AllocGlobal + Wait>(rt: &R) -> Result<bool, AllocError> {
    let disk = image(rt.alloc(), SIZES)?;
    let (disk, _, puts) = visit_of(rt, disk, COUNT, true)?;
    let (disk, none, _) = visit_of(rt, disk, 0, false)?;
    let (_, some, gets) = visit_of(rt, disk, COUNT, false)?;
    let all = puts.len() == 10_000 && gets.len() == 10_000;
    Ok(all && are_values(&gets) && some <= none.saturating_add(10_000))
}

#[test]
fn many_records_are_found(rt: HostRuntime) -> Result<(), Fail> {
    assert!(rt; finds_all(&rt)?);
    Ok(())
}
