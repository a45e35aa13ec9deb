//! The plain machine, and one call of it.

ghost use Rattle.std.specs.Prelude.{◌≡◌, ◌++◌, ◌∷◌, [], true, fold, map, IfOk, OnOk, IsTrue, option_map};
ghost use Rattle.std.specs.Option.{option_copied};
ghost use Rattle.opfs_machine.specs.Agents.{agent_of, counted};
ghost use Rattle.opfs_machine.specs.Contents.{in_bytes};
ghost use Rattle.opfs_machine.specs.Effects.{effect, refused};
ghost use Rattle.opfs_machine.specs.Histories.{may_enter, LegalFrom};
ghost use Rattle.opfs_machine.specs.Replies.{row_named, sizes_of};
ghost use Rattle.opfs_machine.specs.Runs.{eviction, group_of, entry_of};
ghost use Rattle.opfs_machine.specs.Steps.{judged, evicted, step, outcome_of, after_reply};
ghost use Rattle.opfs_machine.specs.Victims.{cleared};
ghost use Rattle.opfs_rulings.specs.Known.{IsAgent};
ghost use Rattle.opfs_plain.specs.Changing.{IsFitting};

use crate::effects::apply;
use opfs_base::{Key, Path};
use opfs_hist::{Entry, Op, Refusal, Reply};
use opfs_machine::{Many, row_named};
use opfs_rulings::{Board, answer, judge, sizes_of};
use std::alloc::{AllocError, Global};

/// What a refused call changes.
fn refuse(state: &mut Board, number: u32, op: &Op)
    requires { IsAgent state.old number }
    ensures { state.new ≡ refused state.old number op.now }
{
    if let Op::Await { .. } = op {
        state.set_waiting(number, None);
    }
}

/// Clears a unit.
fn evict(alloc: Global, state: &mut Board, unit: &Key) -> Result<(), AllocError>
    ensures { OnOk result (state.new ≡ evicted state.old unit.now) }
{
    let root = (unit.copy(alloc)?, Path::root(alloc));
    state.remove_within(&root);
    state.count_one()?;
    Ok(())
}

/// Clears units, each with an entry.
pub fn evict_all(
    alloc: Global,
    state: &mut Board,
    entries: &mut Vec<Entry>,
    units: Many<Key>,
) -> Result<(), AllocError>
    ensures state { OnOk result (state.new ≡ fold evicted state.old units) }
    ensures told { OnOk result (entries.new.items ≡ entries.old.items ++ map eviction units) }
{
    for unit in units.items {
        evict(alloc, state, &unit)?;
        entries.push(Entry {
            agent: 0,
            number: 0,
            op: Op::Evict {
                key: unit.copy(alloc)?,
            },
            reply: Reply::Gone(unit),
            turn: true,
        })?;
    }
    Ok(())
}

/// A refused call.
pub fn enter_refused(
    alloc: Global,
    state: &mut Board,
    entries: &mut Vec<Entry>,
    agent: u32,
    number: u32,
    op: Op,
    refusal: Refusal,
) -> Result<(), AllocError>
    requires { IsAgent state.old agent }
    ensures state { OnOk result (state.new ≡ (outcome_of state.old agent op (Err refusal)).after) }
    ensures told { OnOk result (entries.new.items ≡ entries.old.items ++ group_of state.old (record { agent = agent; number = number; op = op }) (outcome_of state.old agent op (Err refusal))) }
{
    refuse(state, agent, &op);
    state.count(alloc, agent)?;
    entries.push(Entry {
        agent,
        number,
        op,
        reply: Reply::No(refusal),
        turn: true,
    })?;
    Ok(())
}

/// A call that is not refused, once the evictions before it are done: its effect and its count.
fn perform(alloc: Global, state: &mut Board, agent: u32, op: &Op) -> Result<(), AllocError>
    requires agent { IsAgent state.old agent }
    requires fitting { IsFitting state.old agent op.now }
    ensures { OnOk result (state.new ≡ counted (effect in_bytes state.old (sizes_of state.old agent op.now) agent op.now) agent) }
{
    let sizes = sizes_of(state, agent, row_named(op));
    apply(alloc, state, sizes, agent, op)?;
    state.count(alloc, agent)?;
    Ok(())
}

/// The evictions of a call that is not refused, its effect and its count.
fn evict_and_perform(
    alloc: Global,
    state: &mut Board,
    entries: &mut Vec<Entry>,
    agent: u32,
    op: &Op,
    units: Many<Key>,
) -> Result<(), AllocError>
    requires agent { IsAgent state.old agent }
    requires fitting { IsFitting state.old agent op.now }
    ensures state { OnOk result (state.new ≡ (outcome_of state.old agent op.now (Ok units)).after) }
    ensures told { OnOk result (entries.new.items ≡ entries.old.items ++ map eviction units) }
{
    evict_all(alloc, state, entries, units)?;
    perform(alloc, state, agent, op)?;
    Ok(())
}

/// Tells an entry.
fn tell(
    entries: &mut Vec<Entry>,
    agent: u32,
    number: u32,
    op: Op,
    reply: Reply,
) -> Result<(), AllocError>
    ensures { OnOk result (entries.new.items ≡ entries.old.items ++ record { agent = agent; number = number; op = op; reply = reply; turn = true } ∷ []) }
{
    entries.push(Entry {
        agent,
        number,
        op,
        reply,
        turn: true,
    })?;
    Ok(())
}

/// A call that is not refused, and the evictions before it.
fn enter_accepted(
    alloc: Global,
    state: &mut Board,
    entries: &mut Vec<Entry>,
    agent: u32,
    number: u32,
    op: Op,
    units: Many<Key>,
) -> Result<(), AllocError>
    requires agent { IsAgent state.old agent }
    requires fitting { IsFitting state.old agent op }
    ensures state { OnOk result (state.new ≡ (outcome_of state.old agent op (Ok units)).after) }
    ensures told { OnOk result (entries.new.items ≡ entries.old.items ++ group_of state.old (record { agent = agent; number = number; op = op }) (outcome_of state.old agent op (Ok units))) }
{
    let sizes = sizes_of(state, agent, row_named(&op));
    let reply = match answer(alloc, state, sizes, agent, &op) {
        Ok(reply) => reply,
        Err(error) => {
            drop(op);
            drop(units);
            return Err(error);
        }
    };
    match evict_and_perform(alloc, state, entries, agent, &op, units) {
        Ok(()) => {
            tell(entries, agent, number, op, reply)?;
            Ok(())
        }
        Err(error) => {
            drop(op);
            drop(reply);
            Err(error)
        }
    }
}

/// A call that may have an entry, with the evictions before it.
#[tactic(auto, unfolding(opfs_machine::specs::Steps::step))]
pub fn enter(
    alloc: Global,
    state: &mut Board,
    entries: &mut Vec<Entry>,
    agent: u32,
    number: u32,
    op: Op,
) -> Result<(), AllocError>
    requires agent { IsAgent state.old agent }
    requires fitting { IsTrue (may_enter state.old agent op) }
    ensures state { OnOk result (state.new ≡ (step state.old agent op).after) }
    ensures told { OnOk result (entries.new.items ≡ entries.old.items ++ group_of state.old (record { agent = agent; number = number; op = op }) (step state.old agent op)) }
{
    let ruled = match judge(alloc, state, agent, &op) {
        Ok(ruled) => ruled,
        Err(error) => {
            drop(op);
            return Err(error);
        }
    };
    match ruled {
        Err(refusal) => enter_refused(alloc, state, entries, agent, number, op, refusal),
        Ok(units) => enter_accepted(alloc, state, entries, agent, number, op, units),
    }
}
