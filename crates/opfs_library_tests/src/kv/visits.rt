//! One agent that comes to a store over a disk, uses a file of it, and goes: what it found, and the disk.

ghost use Rattle.std.specs.Prelude.{◌≡◌, ◌≤◌, [], All, length, true, IfOk};
ghost use Rattle.opfs_hall.specs.Seen.{new_pass};
ghost use Rattle.opfs_kv.specs.Commands.Runs.{IsOp};
ghost use Rattle.opfs_kv.specs.Records.Records.{IsKey, IsValue};
ghost use Rattle.opfs_library_tests.specs.Kv.Sessions.{IsBegun};
ghost use Rattle.opfs_notebook.specs.Ready.{Goes, HasMade, Holds, HoldsNotes, IsIdle, IsReady};
ghost use Rattle.opfs_store.specs.Acts.Asking.{IsSmallData};

use crate::kv::batches::use_batch;
use crate::kv::example::{Session, begin, desk_over, end};
use crate::kv::kvs::{keys_on, put_and_get, put_tidily, take_out};
use opfs_agent::Agent;
use opfs_agent::handle_calls::SyncHandle;
use opfs_base::{Bytes, Data};
use opfs_desk::Desk;
use opfs_hall::{Hall, Pass};
use opfs_kv::{Batch, Kv, KvOp, KvReplies, KvStop, Tidying, kv_run};
use opfs_notebook::agents::origin_of;
use opfs_notebook::files::discard;
use opfs_notebook::notes::{self, give_up, handle_of};
use opfs_outside::Disk;
use opfs_store::Store;
use opfs_sync_files::{close, read, write};
use opfs_turns::Stop;
use std::sync::Wait;

/// The disk behind a visit, how many entries the history has, and what was found.
#[derive(Drop)]
pub struct Visit<D, T> {
    pub disk: D,
    pub entries: usize,
    pub found: T,
}

/// How a visit to a key-value file ends.
#[derive(Clone, Copy)]
pub enum Ending {
    /// The file is closed.
    Close,
    /// The file is given up.
    GiveUp,
}

// Comes to a store over a disk.
fn enter<D: Disk, R: AllocGlobal>(rt: &R, disk: D) -> Result<Session<Desk<D>>, D>
    ensures { IfOk result (λ session. IsBegun session.court session.owner session.agent) }
{
    let alloc = rt.alloc();
    let Ok(key) = origin_of(alloc, "https://a.example") else {
        return Err(disk);
    };
    let desk = desk_over(alloc, disk, &key)?;
    match begin(rt, desk, key) {
        Ok(session) => Ok(session),
        Err(desk) => Err(desk.leave()),
    }
}

// Goes, with what was found.
fn leave<D: Disk, R: Wait, T>(
    rt: &R,
    court: Hall<Desk<D>>,
    owner: Pass<Desk<D>>,
    agent: Agent<Desk<D>>,
    found: T,
) -> Visit<D, T>
    requires owner { owner ≡ new_pass court 0 [] }
    requires one { court.agents ≡ 1 }
    requires idle { IsIdle court agent 1 500000 }
{
    let desk = end(rt, court, owner, agent);
    let (disk, history, _) = desk.finish();
    Visit {
        disk,
        entries: history.len(),
        found,
    }
}

// Ends the use of a file.
fn end_kv<S: Store, R: Wait>(
    rt: &R,
    court: &Hall<S>,
    agent: &mut Agent<S>,
    kv: Kv,
    ending: Ending,
) -> Result<(), KvStop>
    requires holds { HoldsNotes S.tells court.now agent.old kv }
    requires few { HasMade agent.old 50000000 }
    ensures ready { IsReady court.now agent.new 0 }
    ensures goes { Goes agent.old agent.new 3 }
{
    match ending {
        Ending::Close => notes::close(rt, court, agent, kv),
        Ending::GiveUp => {
            give_up(rt, court, agent, kv);
            Ok(())
        }
    }
}

// Whether a command has a key and a value of a length that a file may have.
fn is_fine(op: &KvOp) -> bool
    ensures { result ≡ true → IsOp op.now }
{
    match op {
        KvOp::Put(key, value) => !key.is_empty() && key.len() <= 255 && value.len() <= 65_536,
        KvOp::Delete(key) => !key.is_empty() && key.len() <= 255,
        _ => true,
    }
}

// Whether all commands have.
fn are_fine(ops: &[KvOp]) -> bool
    ensures { result ≡ true → All IsOp ops.now }
{
    for op in ops {
        if !is_fine(op) {
            return false;
        }
    }
    true
}

// Runs commands on an open file.
fn run_ops<S: Store, R: Wait>(
    rt: &R,
    court: &Hall<S>,
    agent: &mut Agent<S>,
    kv: &mut Kv,
    ops: &[KvOp],
) -> Result<KvReplies, KvStop>
    requires holds { HoldsNotes S.tells court.now agent.old kv.old }
    requires few { HasMade agent.old 50000000 }
    requires ops { All IsOp ops.now }
    requires many { length ops.now ≤ 100000 }
    ensures holds { HoldsNotes S.tells court.now agent.new kv.new }
    ensures goes { Goes agent.old agent.new 400000 }
{
    agent.know_kept();
    let ran = kv_run(rt, court, agent, kv, ops);
    agent.know_kept();
    match ran {
        Ok(replies) => Ok(replies),
        Err(_) => Err(KvStop::Agent(Stop::NoMemory)),
    }
}

// The same of a file by its name, whose use ends.
fn run_file<S: Store, R: Wait>(
    rt: &R,
    court: &Hall<S>,
    agent: &mut Agent<S>,
    ops: &[KvOp],
    ending: Ending,
) -> Result<KvReplies, KvStop>
    requires idle { IsIdle court.now agent.old 1 0 }
    requires ops { All IsOp ops.now }
    requires many { length ops.now ≤ 100000 }
    ensures { IsIdle court.now agent.new 1 500000 }
{
    let mut kv = notes::open_with(rt, court, agent, "store", Tidying::Never)?;
    let replies = run_ops(rt, court, agent, &mut kv, ops);
    let _stored = end_kv(rt, court, agent, kv, ending);
    replies
}

// The same where the commands are fine.
fn run_fine<S: Store, R: Wait>(
    rt: &R,
    court: &Hall<S>,
    agent: &mut Agent<S>,
    ops: &[KvOp],
    ending: Ending,
) -> Result<KvReplies, KvStop>
    requires idle { IsIdle court.now agent.old 1 0 }
    ensures { IsIdle court.now agent.new 1 500000 }
{
    if ops.len() > 100_000 {
        return Err(KvStop::Agent(Stop::NoMemory));
    }
    if !are_fine(ops) {
        return Err(KvStop::Agent(Stop::NoMemory));
    }
    run_file(rt, court, agent, ops, ending)
}

/// What commands on the store's file are answered.
pub fn run_visit<D: Disk, R: AllocGlobal + Wait>(
    rt: &R,
    disk: D,
    ops: &[KvOp],
    ending: Ending,
) -> Result<Visit<D, Result<KvReplies, KvStop>>, D> {
    let Session {
        court,
        owner,
        mut agent,
    } = enter(rt, disk)?;
    let found = run_fine(rt, &court, &mut agent, ops, ending);
    Ok(leave(rt, court, owner, agent, found))
}

// Closes a file, or discards it where that is refused.
fn close_file<S: Store, R: Wait>(
    rt: &R,
    court: &Hall<S>,
    agent: &mut Agent<S>,
    handle: SyncHandle,
) -> Result<(), Stop>
    requires holds { Holds S.tells court.now agent.old handle }
    requires few { HasMade agent.old 50000000 }
    ensures ready { IsReady court.now agent.new 0 }
    ensures goes { Goes agent.old agent.new 2 }
{
    agent.know_kept();
    let done = close(rt, court, agent, handle);
    agent.know_kept();
    match done {
        Ok(_) => Ok(()),
        Err((handle, stop)) => {
            discard(rt, court, agent, handle);
            Err(stop)
        }
    }
}

// Writes bytes at the start of a file.
fn write_first<S: Store, R: Wait>(
    rt: &R,
    court: &Hall<S>,
    agent: &mut Agent<S>,
    handle: &mut SyncHandle,
    bytes: &Data,
) -> Result<(), Stop>
    requires holds { Holds S.tells court.now agent.old handle.old }
    requires few { HasMade agent.old 50000000 }
    requires bytes { IsSmallData bytes.now }
    ensures holds { Holds S.tells court.now agent.new handle.new }
    ensures goes { Goes agent.old agent.new 1 }
{
    agent.know_kept();
    let done = write(rt, court, agent, handle, bytes, 0);
    agent.know_kept();
    done
}

// Writes bytes into the store's file.
fn write_file<S: Store, R: Wait>(
    rt: &R,
    court: &Hall<S>,
    agent: &mut Agent<S>,
    bytes: &Data,
) -> Result<(), Stop>
    requires idle { IsIdle court.now agent.old 1 0 }
    requires bytes { IsSmallData bytes.now }
    ensures { IsIdle court.now agent.new 1 500000 }
{
    let mut handle = handle_of(rt, court, agent, "store")?;
    let written = write_first(rt, court, agent, &mut handle, bytes);
    let closed = close_file(rt, court, agent, handle);
    written.and(closed)
}

/// The disk with a store whose file has these bytes.
pub fn with_bytes<D: Disk, R: AllocGlobal + Wait>(
    rt: &R,
    disk: D,
    bytes: &Data,
) -> Result<Visit<D, Result<(), Stop>>, D>
    requires { IsSmallData bytes.now }
{
    let Session {
        court,
        owner,
        mut agent,
    } = enter(rt, disk)?;
    let found = write_file(rt, &court, &mut agent, bytes);
    Ok(leave(rt, court, owner, agent, found))
}

// The first 64 bytes of a file.
fn read_first<S: Store, R: Wait>(
    rt: &R,
    court: &Hall<S>,
    agent: &mut Agent<S>,
    handle: &mut SyncHandle,
) -> Result<Bytes, Stop>
    requires holds { Holds S.tells court.now agent.old handle.old }
    requires few { HasMade agent.old 50000000 }
    ensures holds { Holds S.tells court.now agent.new handle.new }
    ensures goes { Goes agent.old agent.new 1 }
{
    agent.know_kept();
    let bytes = read(rt, court, agent, handle, 64, 0);
    agent.know_kept();
    bytes
}

// The same of the store's file.
fn read_file<S: Store, R: Wait>(
    rt: &R,
    court: &Hall<S>,
    agent: &mut Agent<S>,
) -> Result<Bytes, Stop>
    requires { IsIdle court.now agent.old 1 0 }
    ensures { IsIdle court.now agent.new 1 500000 }
{
    let mut handle = handle_of(rt, court, agent, "store")?;
    let bytes = read_first(rt, court, agent, &mut handle);
    discard(rt, court, agent, handle);
    bytes
}

/// The first 64 bytes of the store's file.
pub fn bytes_in<D: Disk, R: AllocGlobal + Wait>(
    rt: &R,
    disk: D,
) -> Result<Visit<D, Result<Bytes, Stop>>, D> {
    let Session {
        court,
        owner,
        mut agent,
    } = enter(rt, disk)?;
    let found = read_file(rt, &court, &mut agent);
    Ok(leave(rt, court, owner, agent, found))
}

// Uses a file of the store as an example, and closes it.
fn use_file<S: Store, R: Wait>(
    rt: &R,
    court: &Hall<S>,
    agent: &mut Agent<S>,
    key: &Bytes,
    value: &Bytes,
) -> Result<(Option<Bytes>, bool), KvStop>
    requires idle { IsIdle court.now agent.old 1 0 }
    requires key { IsKey key.now }
    requires value { IsValue value.now }
    ensures { IsIdle court.now agent.new 1 500000 }
{
    let mut kv = notes::open_with(rt, court, agent, "store", Tidying::Never)?;
    let found = put_and_get(rt, court, agent, &mut kv, key, value);
    let was = take_out(rt, court, agent, &mut kv, key);
    let _closed = notes::close(rt, court, agent, kv);
    Ok((found?, was?))
}

/// What the example of a key-value file finds of a key, and whether the key was there when it was taken out.
pub fn use_example<D: Disk, R: AllocGlobal + Wait>(
    rt: &R,
    disk: D,
    key: &Bytes,
    value: &Bytes,
) -> Result<Visit<D, Result<(Option<Bytes>, bool), KvStop>>, D>
    requires key { IsKey key.now }
    requires value { IsValue value.now }
{
    let Session {
        court,
        owner,
        mut agent,
    } = enter(rt, disk)?;
    let found = use_file(rt, &court, &mut agent, key, value);
    Ok(leave(rt, court, owner, agent, found))
}

// Gives two keys a value, compacts where more than half is dead, and lists the keys from one on; then closes the file.
fn use_keys<S: Store, R: Wait>(
    rt: &R,
    court: &Hall<S>,
    agent: &mut Agent<S>,
    key: &Bytes,
    other: &Bytes,
    value: &Bytes,
) -> Result<(bool, Vec<Bytes>, usize), KvStop>
    requires idle { IsIdle court.now agent.old 1 0 }
    requires key { IsKey key.now }
    requires other { IsKey other.now }
    requires value { IsValue value.now }
    ensures { IsIdle court.now agent.new 1 500000 }
{
    let mut kv = notes::open_with(rt, court, agent, "store", Tidying::Never)?;
    let put = put_and_get(rt, court, agent, &mut kv, key, value);
    let did = put_tidily(rt, court, agent, &mut kv, other, value);
    let listed = keys_on(agent, &kv, other);
    let _closed = notes::close(rt, court, agent, kv);
    put?;
    let (keys, count) = listed?;
    Ok((did?, keys, count))
}

/// Whether a second put compacts the file, what keys there are then from the second on, and how many in all.
pub fn list_keys<D: Disk, R: AllocGlobal + Wait>(
    rt: &R,
    disk: D,
    key: &Bytes,
    other: &Bytes,
    value: &Bytes,
) -> Result<Visit<D, Result<(bool, Vec<Bytes>, usize), KvStop>>, D>
    requires key { IsKey key.now }
    requires other { IsKey other.now }
    requires value { IsValue value.now }
{
    let Session {
        court,
        owner,
        mut agent,
    } = enter(rt, disk)?;
    let found = use_keys(rt, &court, &mut agent, key, other, value);
    Ok(leave(rt, court, owner, agent, found))
}

/// How a batch ends on the store's file, which compacts at the flush behind it and is given up then.
pub fn run_batch<D: Disk, R: AllocGlobal + Wait>(
    rt: &R,
    disk: D,
    batch: &Batch,
) -> Result<Visit<D, Result<(), KvStop>>, D> {
    let Session {
        court,
        owner,
        mut agent,
    } = enter(rt, disk)?;
    let found = use_batch(rt, &court, &mut agent, batch);
    Ok(leave(rt, court, owner, agent, found))
}
