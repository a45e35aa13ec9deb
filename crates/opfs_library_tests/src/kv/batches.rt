//! Changes that are made as one, on a file that compacts at a flush.

ghost use Rattle.std.specs.Prelude.{◌↔◌, IsTrue};
ghost use Rattle.opfs_kv.specs.Records.Records.{IsKey, IsValue};
ghost use Rattle.opfs_notebook.specs.Ready.{Goes, HasMade, HoldsNotes, IsIdle};

use crate::kv::cases::{after, has_bytes};
use crate::kv::steps::{Step, is_value};
use crate::kv::visits::{Ending, Visit, run_batch};
use crate::pipe::running::{SIZES, image};
use opfs_agent::Agent;
use opfs_base::Bytes;
use opfs_hall::Hall;
use opfs_kv::{Batch, Kv, KvReply, KvStop};
use opfs_memory::RamDisk;
use opfs_notebook::notes::{give_up, open, store, write};
use opfs_store::Store;
use std::alloc::{AllocError, Global};
use std::sync::Wait;
use std::test::Fail;

// Makes changes as one, and stores the file for good.
fn apply_and_flush<S: Store, R: Wait>(
    rt: &R,
    court: &Hall<S>,
    agent: &mut Agent<S>,
    kv: &mut Kv,
    batch: &Batch,
) -> Result<(), KvStop>
    requires holds { HoldsNotes S.tells court.now agent.old kv.old }
    requires few { HasMade agent.old 45000000 }
    ensures holds { HoldsNotes S.tells court.now agent.new kv.new }
    ensures goes { Goes agent.old agent.new 8 }
{
    write(rt, court, agent, kv, batch)?;
    store(rt, court, agent, kv)
}

/// The same with the store's file, which compacts at the flush and is given up then.
pub fn use_batch<S: Store, R: Wait>(
    rt: &R,
    court: &Hall<S>,
    agent: &mut Agent<S>,
    batch: &Batch,
) -> Result<(), KvStop>
    requires { IsIdle court.now agent.old 1 0 }
    ensures { IsIdle court.now agent.new 1 500000 }
{
    let mut kv = open(rt, court, agent, "store")?;
    let done = apply_and_flush(rt, court, agent, &mut kv, batch);
    give_up(rt, court, agent, kv);
    done
}

// The visit of a batch, where there is memory.
fn visit<R: AllocGlobal + Wait>(
    rt: &R,
    disk: RamDisk,
    batch: &Batch,
) -> Result<(RamDisk, usize, Result<(), KvStop>), AllocError> {
    let Ok(visit) = run_batch(rt, disk, batch) else {
        return Err(AllocError);
    };
    let Visit {
        disk,
        entries,
        found,
    } = visit;
    Ok((disk, entries, found))
}

// Whether bytes are as many as a key may have.
fn is_key(key: &Bytes) -> bool
    ensures { IsTrue result ↔ IsKey key.now }
{
    !key.is_empty() && key.len() <= 255
}

// Whether they are as many as a value may have.
fn fits(value: &Bytes) -> bool
    ensures { IsTrue result ↔ IsValue value.now }
{
    value.len() <= 65_536
}

// Adds to a batch that a key gets a value.
fn add_put(batch: &mut Batch, key: Bytes, value: Bytes) -> Result<(), AllocError> {
    if !is_key(&key) {
        return Err(AllocError);
    }
    if !fits(&value) {
        return Err(AllocError);
    }
    batch.put(key, value)
}

// Adds to it that a key is taken out.
fn add_delete(batch: &mut Batch, key: Bytes) -> Result<(), AllocError> {
    if !is_key(&key) {
        return Err(AllocError);
    }
    batch.delete(key)
}

// Adds a step to it.
fn add(alloc: Global, batch: &mut Batch, step: Step) -> Result<(), AllocError> {
    match step {
        Step::Put(key, value) => {
            let key = Bytes::copy_of(alloc, key.as_bytes())?;
            add_put(batch, key, Bytes::copy_of(alloc, value.as_bytes())?)
        }
        Step::Delete(key) => add_delete(batch, Bytes::copy_of(alloc, key.as_bytes())?),
        _ => Err(AllocError),
    }
}

// The batch of steps.
fn batch_of(alloc: Global, steps: &[Step]) -> Result<Batch, AllocError> {
    let mut batch = Batch::empty(alloc);
    for step in steps {
        add(alloc, &mut batch, *step)?;
    }
    Ok(batch)
}

// Adds to a batch that the key "k" gets so many zeros.
fn add_zeros(alloc: Global, batch: &mut Batch, count: usize) -> Result<(), AllocError> {
    let key = Bytes::copy_of(alloc, b"k")?;
    let zeros = vec![in alloc; 0u8; count]?;
    add_put(batch, key, Bytes::from_vec(zeros))
}

// A batch whose records take 16,713,472 bytes and so many.
fn long_batch(alloc: Global, last: usize) -> Result<Batch, AllocError> {
    let mut batch = Batch::empty(alloc);
    for _number in 0..255u32 {
        add_zeros(alloc, &mut batch, 65_536)?;
    }
    add_zeros(alloc, &mut batch, last)?;
    Ok(batch)
}

// Whether replies are these values of three keys.
fn are(replies: &[KvReply], values: [Option<&str>; 3]) -> bool {
    match replies {
        [first, second, third] => {
            is_value(Some(first), values[0])
                && is_value(Some(second), values[1])
                && is_value(Some(third), values[2])
        }
        _ => false,
    }
}

const LOOKS: [Step; 3] = [Step::Get("a"), Step::Get("b"), Step::Get("c")];

// Four changes are stored one behind another, with as many entries as one change has.
fn stores_all<R: AllocGlobal + Wait>(rt: &R) -> Result<bool, AllocError> {
    let alloc = rt.alloc();
    let steps = [
        Step::Put("a", "1"),
        Step::Put("b", "2"),
        Step::Delete("a"),
        Step::Put("c", "3"),
    ];
    let one = batch_of(alloc, &[Step::Put("a", "1")])?;
    let (_, few, _) = visit(rt, image(alloc, SIZES)?, &one)?;
    let (disk, entries, done) = visit(rt, image(alloc, SIZES)?, &batch_of(alloc, &steps)?)?;
    let log =
        b"\x01\x01a\x01\x00\x00\x001\x01\x01b\x01\x00\x00\x002\x02\x01a\x01\x01c\x01\x00\x00\x003";
    let (disk, stored) = has_bytes(rt, disk, log)?;
    let (_, replies) = after(rt, disk, &LOOKS, Ending::Close)?;
    let found = are(&replies, [None, Some("2"), Some("3")]);
    Ok(done.is_ok() && entries == few && stored && found)
}

#[test]
fn a_batch_is_stored_as_one(rt: HostRuntime) -> Result<(), Fail> {
    assert!(rt; stores_all(&rt)?);
    Ok(())
}

// How a batch ends beside a record of 8 bytes, and whether this record and no other one is stored then.
fn beside<R: AllocGlobal + Wait>(
    rt: &R,
    last: usize,
) -> Result<(Result<(), KvStop>, bool), AllocError> {
    let alloc = rt.alloc();
    let batch = long_batch(alloc, last)?;
    let (disk, _) = after(
        rt,
        image(alloc, SIZES)?,
        &[Step::Put("a", "1")],
        Ending::Close,
    )?;
    let (disk, _, done) = visit(rt, disk, &batch)?;
    let (_, alone) = has_bytes(rt, disk, b"\x01\x01a\x01\x00\x00\x001")?;
    Ok((done, alone))
}

#[test]
fn a_batch_without_room_changes_nothing(rt: HostRuntime) -> Result<(), Fail> {
    let (full, alone) = beside(&rt, 63_737)?;
    assert!(rt; full == Err(KvStop::Full(8, 16_777_209)) && alone);
    let (done, alone) = beside(&rt, 63_736)?;
    assert!(rt; done == Ok(()) && !alone);
    Ok(())
}

// Whether the file has these bytes behind a batch and its flush.
fn leaves<R: AllocGlobal + Wait>(rt: &R, steps: &[Step], bytes: &[u8]) -> Result<bool, AllocError> {
    let alloc = rt.alloc();
    let (disk, _, done) = visit(rt, image(alloc, SIZES)?, &batch_of(alloc, steps)?)?;
    let (_, left) = has_bytes(rt, disk, bytes)?;
    Ok(done.is_ok() && left)
}

#[test]
fn a_flush_compacts_where_more_than_half_is_dead(rt: HostRuntime) -> Result<(), Fail> {
    let steps = [
        Step::Put("a", "1"),
        Step::Put("a", "2"),
        Step::Put("a", "3"),
    ];
    let two = b"\x01\x01a\x01\x00\x00\x001\x01\x01a\x01\x00\x00\x002";
    assert!(rt; leaves(&rt, &steps[..2], two)?);
    assert!(rt; leaves(&rt, &steps, b"\x01\x01a\x01\x00\x00\x003")?);
    Ok(())
}
