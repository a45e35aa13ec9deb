//! The rounds of a pipe: both agents work at the same time, and then the caller writes what is left in the ring.

ghost use Rattle.std.specs.Prelude.{◌≡◌, ◌+◌, ◌<◌, ◌≤◌, ◌++◌, ℕ, [], length, OnOk};
ghost use Rattle.rtrb.specs.Ring.{sent, known_free, producer_capacity, received, known_items, IsPair, SameProducer, SameConsumer};
ghost use Rattle.opfs_turns.specs.Asking.Rows.{HasSnapshot, HasStream};
ghost use Rattle.opfs_splice.specs.Splicing.{window};
ghost use Rattle.opfs_pipe.specs.Pieces.{IsCut};
ghost use Rattle.opfs_pipe.specs.Rounds.{HasMoved, HasRound};
ghost use Rattle.opfs_pipe.specs.Sides.{HasDrained, HasFilled};
ghost use Rattle.opfs_pipe.specs.Streams.{stream_bytes, stream_offset};

use crate::draining::{drain, drain_known};
use crate::filling::fill;
use crate::pieces::Ring;
use crate::ranges::{Rest, Span};
use opfs_agent::Agent;
use opfs_agent::stream_calls::Writable;
use opfs_hall::Hall;
use opfs_store::Store;
use opfs_turns::Stop;
use std::sync::Wait;
use std::thread::{Threads, join_mut};

// Both sides work at the same time.
fn work<S: Store + Send, R: Threads + Wait + Sync>(
    rt: &R,
    court: &Hall<S>,
    rest: &Rest<'_>,
    reader: &mut Agent<S>,
    writer: &mut Agent<S>,
    to: &mut Writable,
    ring: &mut Ring,
) -> (Result<(), Stop>, Result<u64, Stop>)
    requires few { (reader.old.rows ≤ 60000000) × (reader.old.entries ≤ 59000000 + length (sent ring.old.source)) }
    requires snapshot { HasSnapshot S.tells reader.old rest.now.from.now }
    requires end { (rest.now.end ≤ length rest.now.from.now.bytes) × (rest.now.end ≤ rest.now.at + 268435456) }
    requires more { rest.now.next < rest.now.end }
    requires free { 0 < known_free ring.old.source }
    requires cut { IsCut rest.now.from.now.bytes rest.now.at rest.now.next rest.now.end (sent ring.old.source) }
    requires own { writer.old.pass.hall ≡ court.now }
    requires few_writes { (writer.old.rows ≤ 60000000) × (writer.old.entries ≤ 59500000) }
    requires stream { HasStream S.tells writer.old to.old }
    requires at_end { stream_offset writer.old to.old ≡ length (stream_bytes writer.old to.old) }
    ensures source { SameProducer ring.old.source ring.new.source }
    ensures target { SameConsumer ring.old.target ring.new.target }
    ensures filled { HasFilled S.tells reader.old reader.new rest.now.from.now rest.now.at rest.now.next rest.now.end (sent ring.old.source) (sent ring.new.source) result.1 }
    ensures drained { HasDrained S.tells writer.old writer.new to.old to.new (received ring.old.target) (received ring.new.target) result.0 }
{
    let Rest {
        from,
        at,
        next,
        end,
    } = *rest;
    let source = &mut ring.source;
    let target = &mut ring.target;
    let mut drains = || -> Result<(), Stop>
        requires own { writer.now.pass.hall ≡ court.now }
        requires few { (writer.now.rows ≤ 60000000) × (writer.now.entries ≤ 59500000) }
        requires stream { HasStream S.tells writer.now to.now }
        requires at_end { stream_offset writer.now to.now ≡ length (stream_bytes writer.now to.now) }
        ensures ring { SameConsumer target.entry.now target.exit.now }
        ensures drained { HasDrained S.tells writer.entry.now writer.exit.now to.entry.now to.exit.now (received target.entry.now) (received target.exit.now) result }
    { drain(rt, court, writer, to, target) };
    let mut fills = || -> Result<u64, Stop>
        requires few { (reader.now.rows ≤ 60000000) × (reader.now.entries ≤ 59000000 + length (sent source.now)) }
        requires snapshot { HasSnapshot S.tells reader.now from.now }
        requires end { (end ≤ length from.now.bytes) × (end ≤ at + 268435456) }
        requires more { next < end }
        requires free { 0 < known_free source.now }
        requires cut { IsCut from.now.bytes at next end (sent source.now) }
        ensures ring { SameProducer source.entry.now source.exit.now }
        ensures filled { HasFilled S.tells reader.entry.now reader.exit.now from.entry.now at next end (sent source.entry.now) (sent source.exit.now) result }
    { fill(from, at, next, end, reader, source) };
    join_mut(rt, &mut drains, &mut fills)
}

// A round: both sides work, and then what is left in the ring is written.
fn round<S: Store + Send, R: Threads + Wait + Sync>(
    rt: &R,
    court: &Hall<S>,
    rest: &Rest<'_>,
    reader: &mut Agent<S>,
    writer: &mut Agent<S>,
    to: &mut Writable,
    ring: &mut Ring,
) -> Result<u64, Stop>
    requires few { (reader.old.rows ≤ 60000000) × (reader.old.entries ≤ 59000000 + length (sent ring.old.source)) }
    requires snapshot { HasSnapshot S.tells reader.old rest.now.from.now }
    requires end { (rest.now.end ≤ length rest.now.from.now.bytes) × (rest.now.end ≤ rest.now.at + 268435456) }
    requires more { rest.now.next < rest.now.end }
    requires free { 0 < known_free ring.old.source }
    requires cut { IsCut rest.now.from.now.bytes rest.now.at rest.now.next rest.now.end (sent ring.old.source) }
    requires own { writer.old.pass.hall ≡ court.now }
    requires few_writes { (writer.old.rows ≤ 60000000) × (writer.old.entries ≤ 59000000 + length (sent ring.old.source)) }
    requires stream { HasStream S.tells writer.old to.old }
    requires at_end { stream_offset writer.old to.old ≡ length (stream_bytes writer.old to.old) }
    requires pair { IsPair ring.old.source ring.old.target }
    requires none { received ring.old.target ≡ sent ring.old.source }
    requires ring { producer_capacity ring.old.source ≡ 64 }
    ensures pair { IsPair ring.new.source ring.new.target }
    ensures ring { producer_capacity ring.new.source ≡ 64 }
    ensures none { OnOk result (received ring.new.target ≡ sent ring.new.source) }
    ensures free { OnOk result (0 < known_free ring.new.source) }
    ensures round { HasRound S.tells reader.old reader.new writer.old writer.new rest.now.from.now rest.now.at rest.now.next rest.now.end to.old to.new (sent ring.old.source) (sent ring.new.source) result }
{
    let (drained, filled) = work(rt, court, rest, reader, writer, to, ring);
    ring.target.slots_beside(&mut ring.source);
    match drained {
        Ok(()) => {}
        Err(stop) => return Err(stop),
    }
    match drain_known(rt, court, writer, to, &mut ring.target) {
        Ok(()) => {}
        Err(stop) => return Err(stop),
    }
    ring.source.slots_beside(&mut ring.target);
    filled
}

/// Moves bytes from a place up to the end, round by round, over a ring that is empty.
pub(crate) fn run_rounds<S: Store + Send, R: Threads + Wait + Sync>(
    rt: &R,
    court: &Hall<S>,
    span: &Span<'_>,
    reader: &mut Agent<S>,
    writer: &mut Agent<S>,
    to: &mut Writable,
    ring: &mut Ring,
) -> Result<(), Stop>
    requires few { (reader.old.rows ≤ 60000000) × (reader.old.entries ≤ 59000000) }
    requires snapshot { HasSnapshot S.tells reader.old span.now.from.now }
    requires end { (span.now.end ≤ length span.now.from.now.bytes) × (span.now.end ≤ span.now.at + 268435456) × (span.now.at ≤ span.now.end) }
    requires own { writer.old.pass.hall ≡ court.now }
    requires few_writes { (writer.old.rows ≤ 60000000) × (writer.old.entries ≤ 59000000) }
    requires stream { HasStream S.tells writer.old to.old }
    requires at_end { stream_offset writer.old to.old ≡ length (stream_bytes writer.old to.old) }
    requires pair { IsPair ring.old.source ring.old.target }
    requires empty { (sent ring.old.source ≡ []) × (received ring.old.target ≡ []) }
    requires ring { (producer_capacity ring.old.source ≡ 64) × (known_free ring.old.source ≡ 64) }
    ensures { (count : ℕ) → span.now.end ≡ span.now.at + count → HasMoved S.tells reader.old reader.new writer.old writer.new span.now.from.now span.now.at to.old to.new (window span.now.from.now.bytes span.now.at count) result }
{
    let mut next = span.at;
    while next < span.end {
        let rest = Rest {
            from: span.from,
            at: span.at,
            next,
            end: span.end,
        };
        match round(rt, court, &rest, reader, writer, to, ring) {
            Ok(behind) => next = behind,
            Err(stop) => return Err(stop),
        }
    }
    Ok(())
}
