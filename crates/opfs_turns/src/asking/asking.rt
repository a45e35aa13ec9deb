//! How an agent asks for a shared call.

ghost use Rattle.std.specs.Prelude.{◌≡◌, false, [], OnOk, OnErr};
ghost use Rattle.opfs_hist.specs.declared.reply.Reply.TheVariants as reply;
ghost use Rattle.opfs_laws.specs.Leaving.{is_end};
ghost use Rattle.opfs_store.specs.Acts.Acting.{IsSameCopy, StandsForLeft, row_left};
ghost use Rattle.opfs_turns.specs.Agents.{known};
ghost use Rattle.opfs_turns.specs.Calls.{HasRoom, MayAsk};
ghost use Rattle.opfs_turns.specs.Asking.Answers.{Shared, MayAskPlainly, MayAskPast, IsAnsweredBy, IsFlag, IsEstimate, IsLength, IsRead, refusal_in, IsAnswer};

use crate::Turns;
use crate::asking::stop::Stop;
use opfs_base::{Bytes, Name};
use opfs_hall::Hall;
use opfs_hist::{Op, Refusal, Reply, Room};
use opfs_store::{Acted, Store};
use opfs_work::Work;
use std::alloc::{AllocError, Global};
use std::sync::Wait;

/// Makes a shared call that names no open row.
pub fn ask<S: Store, R: Wait>(
    rt: &R,
    alloc: Global,
    turns: &mut Turns<S>,
    court: &Hall<S>,
    op: Op,
) -> Result<Acted, Stop>
    requires own { turns.old.pass.hall ≡ court.now }
    requires room { HasRoom turns.old }
    requires may { MayAskPlainly turns.old op }
    ensures { Shared S.tells turns.old turns.new op (λ acted answered given. (acted.reply ≡ answered) × (acted.gift ≡ given)) result }
{
    let Ok(room) = Room::make(alloc) else {
        drop(op);
        return Err(Stop::NoMemory);
    };
    let mut work = Work::fresh(alloc);
    let acted = turns.call(rt, court, room, op, &mut work, &[]);
    answer(acted)
}

/// Asks for the next child of an iterator that has given these names.
pub fn ask_past<S: Store, R: Wait>(
    rt: &R,
    alloc: Global,
    turns: &mut Turns<S>,
    court: &Hall<S>,
    op: Op,
    past: &[Name],
) -> Result<Acted, Stop>
    requires own { turns.old.pass.hall ≡ court.now }
    requires room { HasRoom turns.old }
    requires may { MayAskPast turns.old op past.now }
    ensures { Shared S.tells turns.old turns.new op (λ acted answered given. (acted.reply ≡ answered) × (acted.gift ≡ given)) result }
{
    let Ok(room) = Room::make(alloc) else {
        drop(op);
        return Err(Stop::NoMemory);
    };
    let mut work = Work::fresh(alloc);
    let acted = turns.call(rt, court, room, op, &mut work, past);
    answer(acted)
}

/// Makes a shared call on an open row, with its working copy, or one that makes an open row, with a fresh one. The copy is
/// then that of the row that is left open, and as it was, its room aside, where the call gives nothing.
pub fn ask_work<S: Store, R: Wait>(
    rt: &R,
    alloc: Global,
    turns: &mut Turns<S>,
    court: &Hall<S>,
    op: Op,
    work: &mut Work,
) -> Result<Acted, Stop>
    requires own { turns.old.pass.hall ≡ court.now }
    requires room { HasRoom turns.old }
    requires may { MayAsk S.tells turns.old op work.old [] }
    requires stays { is_end op ≡ false }
    ensures shared { Shared S.tells turns.old turns.new op (λ acted answered given. (acted.reply ≡ answered) × (acted.gift ≡ given)) result }
    ensures left { OnOk result (StandsForLeft S.tells turns.new.opening (known turns.new) turns.new.pass.agent (row_left turns.new.rows op) work.new) }
    ensures same { OnErr result (IsSameCopy work.old work.new) }
{
    let Ok(room) = Room::make(alloc) else {
        drop(op);
        return Err(Stop::NoMemory);
    };
    let acted = turns.call(rt, court, room, op, work, &[]);
    turns.know_kept();
    answer(acted)
}

/// The same of a call that is answered by Done alone.
pub fn ask_row<S: Store, R: Wait>(
    rt: &R,
    alloc: Global,
    turns: &mut Turns<S>,
    court: &Hall<S>,
    op: Op,
    work: &mut Work,
) -> Result<(), Stop>
    requires own { turns.old.pass.hall ≡ court.now }
    requires room { HasRoom turns.old }
    requires may { MayAsk S.tells turns.old op work.old [] }
    requires stays { is_end op ≡ false }
    requires answer { IsAnsweredBy op (λ answered. answered ≡ reply.Done) }
    ensures shared { Shared S.tells turns.old turns.new op (λ _ answered _. answered ≡ reply.Done) result }
    ensures left { OnOk result (StandsForLeft S.tells turns.new.opening (known turns.new) turns.new.pass.agent (row_left turns.new.rows op) work.new) }
    ensures same { OnErr result (IsSameCopy work.old work.new) }
{
    let _acted = ask_work(rt, alloc, turns, court, op, work)?;
    Ok(())
}

/// The same of a call that is answered by a number of bytes alone.
pub fn ask_length<S: Store, R: Wait>(
    rt: &R,
    alloc: Global,
    turns: &mut Turns<S>,
    court: &Hall<S>,
    op: Op,
    work: &mut Work,
) -> Result<u64, Stop>
    requires own { turns.old.pass.hall ≡ court.now }
    requires room { HasRoom turns.old }
    requires may { MayAsk S.tells turns.old op work.old [] }
    requires stays { is_end op ≡ false }
    requires answer { IsAnsweredBy op IsLength }
    ensures shared { Shared S.tells turns.old turns.new op (λ count answered _. answered ≡ reply.Length count) result }
    ensures left { OnOk result (StandsForLeft S.tells turns.new.opening (known turns.new) turns.new.pass.agent (row_left turns.new.rows op) work.new) }
    ensures same { OnErr result (IsSameCopy work.old work.new) }
{
    let acted = ask_work(rt, alloc, turns, court, op, work)?;
    match acted.reply {
        Reply::Length(count) => Ok(count),
        _ => unreachable!(),
    }
}

/// The same of a call that is answered by bytes alone.
pub fn ask_bytes<S: Store, R: Wait>(
    rt: &R,
    alloc: Global,
    turns: &mut Turns<S>,
    court: &Hall<S>,
    op: Op,
    work: &mut Work,
) -> Result<Bytes, Stop>
    requires own { turns.old.pass.hall ≡ court.now }
    requires room { HasRoom turns.old }
    requires may { MayAsk S.tells turns.old op work.old [] }
    requires stays { is_end op ≡ false }
    requires answer { IsAnsweredBy op IsRead }
    ensures shared { Shared S.tells turns.old turns.new op (λ bytes answered _. answered ≡ reply.Read bytes) result }
    ensures left { OnOk result (StandsForLeft S.tells turns.new.opening (known turns.new) turns.new.pass.agent (row_left turns.new.rows op) work.new) }
    ensures same { OnErr result (IsSameCopy work.old work.new) }
{
    let acted = ask_work(rt, alloc, turns, court, op, work)?;
    let Acted { reply, .. } = acted;
    match reply {
        Reply::Read(bytes) => Ok(bytes),
        _ => unreachable!(),
    }
}

/// Makes a shared call that names no open row, and that is answered by Done alone.
pub fn ask_done<S: Store, R: Wait>(
    rt: &R,
    alloc: Global,
    turns: &mut Turns<S>,
    court: &Hall<S>,
    op: Op,
) -> Result<(), Stop>
    requires own { turns.old.pass.hall ≡ court.now }
    requires room { HasRoom turns.old }
    requires may { MayAskPlainly turns.old op }
    requires answer { IsAnsweredBy op (λ answered. answered ≡ reply.Done) }
    ensures { Shared S.tells turns.old turns.new op (λ _ answered _. answered ≡ reply.Done) result }
{
    let _acted = ask(rt, alloc, turns, court, op)?;
    Ok(())
}

/// Makes a shared call that names no open row, and that is answered by yes or no alone.
pub fn ask_flag<S: Store, R: Wait>(
    rt: &R,
    alloc: Global,
    turns: &mut Turns<S>,
    court: &Hall<S>,
    op: Op,
) -> Result<bool, Stop>
    requires own { turns.old.pass.hall ≡ court.now }
    requires room { HasRoom turns.old }
    requires may { MayAskPlainly turns.old op }
    requires answer { IsAnsweredBy op IsFlag }
    ensures { Shared S.tells turns.old turns.new op (λ flag answered _. answered ≡ reply.Flag flag) result }
{
    let acted = ask(rt, alloc, turns, court, op)?;
    match acted.reply {
        Reply::Flag(flag) => Ok(flag),
        _ => unreachable!(),
    }
}

/// Makes a shared call that names no open row, and that is answered by usage and quota alone.
pub fn ask_estimate<S: Store, R: Wait>(
    rt: &R,
    alloc: Global,
    turns: &mut Turns<S>,
    court: &Hall<S>,
    op: Op,
) -> Result<(u64, u64), Stop>
    requires own { turns.old.pass.hall ≡ court.now }
    requires room { HasRoom turns.old }
    requires may { MayAskPlainly turns.old op }
    requires answer { IsAnsweredBy op IsEstimate }
    ensures { Shared S.tells turns.old turns.new op (λ told answered _. answered ≡ reply.Estimate told.0 told.1) result }
{
    let acted = ask(rt, alloc, turns, court, op)?;
    match acted.reply {
        Reply::Estimate(used, quota) => Ok((used, quota)),
        _ => unreachable!(),
    }
}

// The refusal of a reply.
fn refusal_in(reply: &Reply) -> Option<Refusal>
    ensures { result ≡ refusal_in reply.now }
{
    match reply {
        Reply::No(refusal) => Some(*refusal),
        _ => None,
    }
}

/// What a call answered, or why it gives nothing.
pub fn answer(acted: Result<Acted, AllocError>) -> Result<Acted, Stop>
    ensures { IsAnswer acted result }
{
    let Ok(acted) = acted else {
        return Err(Stop::NoMemory);
    };
    match refusal_in(&acted.reply) {
        Some(refusal) => Err(Stop::No(refusal)),
        None => Ok(acted),
    }
}
