//! Calls that the disk failed.

ghost use Rattle.std.specs.Prelude.{◌≡◌, ◌<◌, ◌++◌, ◌∷◌, [], true, false, length, take, fold, map, IfOk, OnOk, IfSome, IfNone};
ghost use Rattle.opfs_machine.specs.Histories.{IsFault};
ghost use Rattle.opfs_machine.specs.Runs.{Call, eviction};
ghost use Rattle.opfs_machine.specs.Steps.{step, evicted, after_reply};
ghost use Rattle.opfs_hist.specs.declared.reply.Refusal.TheVariants.{DiskFault};
ghost use Rattle.opfs_hist.specs.declared.reply.Reply.TheVariants.{No};
ghost use Rattle.opfs_rulings.specs.Known.{IsAgent};
ghost use Rattle.opfs_plain.specs.Faults.{MayFault, IsFaulted, faulted_entry};

use crate::machine::{enter_refused, evict_all};
use opfs_base::Key;
use opfs_hist::{Entry, Op, Refusal};
use opfs_machine::Many;
use opfs_rulings::{Board, is_disk_op, judge};
use std::alloc::{AllocError, Global};

/// So many of the first units; None where there are fewer.
fn first_units(units: Many<Key>, count: usize) -> Option<Many<Key>>
    ensures front { IfSome result (λ front. front ≡ take count units) }
    ensures many { IfSome result (λ front. length front ≡ count) }
    ensures none { IfNone result (length units < count) }
{
    let Many { mut items } = units;
    if items.len() < count {
        return None;
    }
    items.truncate(count);
    Some(Many { items })
}

/// The first so many of the units that are cleared for a call; None where no disk fault may stand after so many.
fn faulting_front(
    alloc: Global,
    state: &Board,
    agent: u32,
    op: &Op,
    evictions: usize,
) -> Result<Option<Many<Key>>, AllocError>
    requires { IsAgent state.now agent }
    ensures many { IfOk result (λ found. IfSome found (λ units. length units ≡ evictions)) }
    ensures fault { IfOk result (λ found. IfSome found (λ units. IsFault state.now units agent op.now (No DiskFault) (step state.now agent op.now))) }
    ensures none { IfOk result (λ found. IfNone found (MayFault state.now evictions agent op.now → ⊥)) }
{
    match judge(alloc, state, agent, op)? {
        Err(_) => Ok(None),
        Ok(units) => {
            if !is_disk_op(state, agent, op) {
                return Ok(None);
            }
            Ok(first_units(units, evictions))
        }
    }
}

/// Enters a call that the disk failed, after these evictions.
#[tactic(auto, unfolding(opfs_machine::specs::Steps::outcome_of))]
fn enter_fault(
    alloc: Global,
    state: &mut Board,
    entries: &mut Vec<Entry>,
    agent: u32,
    number: u32,
    op: Op,
    units: Many<Key>,
) -> Result<(), AllocError>
    requires { IsAgent state.old agent }
    ensures state { OnOk result (state.new ≡ after_reply (fold evicted state.old units) agent op (No DiskFault)) }
    ensures told { OnOk result (entries.new.items ≡ entries.old.items ++ (map eviction units ++ faulted_entry (record { agent = agent; number = number; op = op }) ∷ [])) }
{
    match evict_all(alloc, state, entries, units) {
        Ok(()) => {}
        Err(error) => {
            drop(op);
            return Err(error);
        }
    }
    enter_refused(alloc, state, entries, agent, number, op, Refusal::DiskFault)
}

/// Enters a call with a disk fault, after so many of the evictions that it would have made, where that may stand: the
/// call is not refused, and it may need the disk. Tells whether it may; where it may not, nothing is changed.
pub fn fault(
    alloc: Global,
    state: &mut Board,
    entries: &mut Vec<Entry>,
    agent: u32,
    number: u32,
    op: Op,
    evictions: usize,
) -> Result<bool, AllocError>
    requires { IsAgent state.old agent }
    ensures stands { IfOk result (λ stands. stands ≡ true → IsFaulted state.old state.new entries.old.items entries.new.items evictions (record { agent = agent; number = number; op = op })) }
    ensures refused { IfOk result (λ stands. stands ≡ false → MayFault state.old evictions agent op → ⊥) }
    ensures state { IfOk result (λ stands. stands ≡ false → state.new ≡ state.old) }
    ensures entries { IfOk result (λ stands. stands ≡ false → entries.new.items ≡ entries.old.items) }
{
    match faulting_front(alloc, state, agent, &op, evictions) {
        Ok(Some(units)) => match enter_fault(alloc, state, entries, agent, number, op, units) {
            Ok(()) => Ok(true),
            Err(error) => Err(error),
        },
        Ok(None) => {
            drop(op);
            Ok(false)
        }
        Err(error) => {
            drop(op);
            Err(error)
        }
    }
}
