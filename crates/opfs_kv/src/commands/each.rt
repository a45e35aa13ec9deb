//! One command on a key-value file.

ghost use Rattle.std.specs.Prelude.{◌≡◌};
ghost use Rattle.opfs_kv.specs.Records.Records.{IsKey, IsValue};
ghost use Rattle.opfs_kv.specs.Seen.{HasPlaces, Stands};
ghost use Rattle.opfs_kv.specs.Commands.Runs.{IsOp, IsRun};
ghost use Rattle.opfs_kv.specs.declared.commands.commands.KvOp.TheVariants as op;

use crate::Kv;
use crate::commands::commands::{KvOp, KvReply};
use opfs_agent::Agent;
use opfs_base::Bytes;
use opfs_hall::Hall;
use opfs_store::Store;
use std::sync::Wait;

// What a get answers.
fn get<S: Store, R: Wait>(
    rt: &R,
    court: &Hall<S>,
    agent: &mut Agent<S>,
    kv: &mut Kv,
    key: &Bytes,
) -> KvReply
    requires own { agent.old.pass.hall ≡ court.now }
    requires few { HasPlaces agent.old }
    requires stands { Stands S.tells agent.old kv.old }
    ensures { IsRun S.tells agent.old agent.new kv.old kv.new (op.Get key.now) result }
{
    match kv.get(rt, court, agent, key) {
        Ok(value) => KvReply::Value(value),
        Err(stop) => KvReply::No(stop),
    }
}

// What a put answers.
fn put<S: Store, R: Wait>(
    rt: &R,
    court: &Hall<S>,
    agent: &mut Agent<S>,
    kv: &mut Kv,
    key: &Bytes,
    value: &Bytes,
) -> KvReply
    requires own { agent.old.pass.hall ≡ court.now }
    requires few { HasPlaces agent.old }
    requires stands { Stands S.tells agent.old kv.old }
    requires key { IsKey key.now }
    requires value { IsValue value.now }
    ensures { IsRun S.tells agent.old agent.new kv.old kv.new (op.Put key.now value.now) result }
{
    match kv.put(rt, court, agent, key, value) {
        Ok(()) => KvReply::Done,
        Err(stop) => KvReply::No(stop),
    }
}

// What a delete answers.
fn delete<S: Store, R: Wait>(
    rt: &R,
    court: &Hall<S>,
    agent: &mut Agent<S>,
    kv: &mut Kv,
    key: &Bytes,
) -> KvReply
    requires own { agent.old.pass.hall ≡ court.now }
    requires few { HasPlaces agent.old }
    requires stands { Stands S.tells agent.old kv.old }
    requires key { IsKey key.now }
    ensures { IsRun S.tells agent.old agent.new kv.old kv.new (op.Delete key.now) result }
{
    match kv.delete(rt, court, agent, key) {
        Ok(was) => KvReply::Was(was),
        Err(stop) => KvReply::No(stop),
    }
}

// What a flush answers.
fn flush<S: Store, R: Wait>(rt: &R, court: &Hall<S>, agent: &mut Agent<S>, kv: &mut Kv) -> KvReply
    requires own { agent.old.pass.hall ≡ court.now }
    requires few { HasPlaces agent.old }
    requires stands { Stands S.tells agent.old kv.old }
    ensures { IsRun S.tells agent.old agent.new kv.old kv.new op.Flush result }
{
    match kv.store(rt, court, agent) {
        Ok(()) => KvReply::Done,
        Err(stop) => KvReply::No(stop),
    }
}

// What a compact answers.
fn compact<S: Store, R: Wait>(rt: &R, court: &Hall<S>, agent: &mut Agent<S>, kv: &mut Kv) -> KvReply
    requires own { agent.old.pass.hall ≡ court.now }
    requires few { HasPlaces agent.old }
    requires stands { Stands S.tells agent.old kv.old }
    ensures { IsRun S.tells agent.old agent.new kv.old kv.new op.Compact result }
{
    match kv.compact(rt, court, agent) {
        Ok(()) => KvReply::Done,
        Err(stop) => KvReply::No(stop),
    }
}

/// What a command answers.
pub fn run_one<S: Store, R: Wait>(
    rt: &R,
    court: &Hall<S>,
    agent: &mut Agent<S>,
    kv: &mut Kv,
    called: &KvOp,
) -> KvReply
    requires own { agent.old.pass.hall ≡ court.now }
    requires few { HasPlaces agent.old }
    requires stands { Stands S.tells agent.old kv.old }
    requires op { IsOp called.now }
    ensures { IsRun S.tells agent.old agent.new kv.old kv.new called.now result }
{
    match called {
        KvOp::Get(key) => get(rt, court, agent, kv, key),
        KvOp::Put(key, value) => put(rt, court, agent, kv, key, value),
        KvOp::Delete(key) => delete(rt, court, agent, kv, key),
        KvOp::Flush => flush(rt, court, agent, kv),
        KvOp::Compact => compact(rt, court, agent, kv),
    }
}
