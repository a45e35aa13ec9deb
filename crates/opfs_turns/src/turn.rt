//! One call under the turn.

ghost use Rattle.std.specs.Prelude.{◌≡◌, ◌++◌, false, true, length, IfOk, OnErr, is_ok, IsTrue};
ghost use Rattle.opfs_machine.specs.Histories.{state_after};
ghost use Rattle.opfs_laws.specs.Leaving.{is_end};
ghost use Rattle.opfs_laws.specs.Histories.Unread.{IsTold};
ghost use Rattle.opfs_store.specs.Acts.Acting.{IsLeft, IsSameCopy, always_acts};
ghost use Rattle.opfs_turns.specs.Agents.{IsAgent, seen};
ghost use Rattle.opfs_turns.specs.Calls.{HasRoom, MayAsk, call_of, before_call, IsEntered, HasLooked};

use crate::notes::Caller;
use opfs_base::Name;
use opfs_hall::Hall;
use opfs_hist::{Op, Room};
use opfs_store::{Acted, Store};
use opfs_work::Work;
use std::alloc::AllocError;
use std::sync::Wait;

// Whether others may wait for what a call does: a post, or an end.
fn wakes(op: &Op) -> bool {
    match op {
        Op::Post { .. } | Op::End => true,
        _ => false,
    }
}

// Rings the hall's bell after a call that others may wait for.
fn ring_if<S: Store>(court: &Hall<S>, wakes: bool) {
    if wakes {
        court.ring();
    }
}

/// Takes the turn, makes a call, and hands the turn on. Where there is no memory nothing is entered.
pub(crate) fn in_turn<S: Store, R: Wait>(
    rt: &R,
    court: &Hall<S>,
    caller: &mut Caller<S>,
    room: Room,
    op: Op,
    work: &mut Work,
    past: &[Name],
) -> Result<Acted, AllocError>
    requires own { caller.old.pass.hall ≡ court.now }
    requires agent { IsAgent S.tells (seen S.opened caller.old.pass caller.old.notes) }
    requires room { HasRoom (seen S.opened caller.old.pass caller.old.notes) }
    requires may { MayAsk S.tells (seen S.opened caller.old.pass caller.old.notes) op work.old past.now }
    ensures agent { IfOk result (λ acted. is_end op ≡ false → IsAgent S.tells (seen S.opened caller.new.pass caller.new.notes)) }
    ensures agent_err { OnErr result (IsAgent S.tells (seen S.opened caller.new.pass caller.new.notes)) }
    ensures legal { IsTold S.tells (S.opened caller.old.pass.hall.opening) caller.new.pass.base }
    ensures idle { caller.new.pass ≡ record caller.old.pass { base = caller.new.pass.base } }
    ensures entered { IfOk result (λ acted. IsEntered S.tells (seen S.opened caller.old.pass caller.old.notes) (seen S.opened caller.new.pass caller.new.notes) op acted.reply acted.gift) }
    ensures left { IfOk result (λ acted. IsLeft S.tells (S.opened caller.old.pass.hall.opening) caller.new.pass.base (call_of (seen S.opened caller.old.pass caller.old.notes) op) acted.reply work.old work.new) }
    ensures looked { OnErr result (HasLooked (seen S.opened caller.old.pass caller.old.notes) (seen S.opened caller.new.pass caller.new.notes)) }
    ensures same { OnErr result (IsSameCopy work.old work.new) }
    ensures ends { always_acts op ≡ true → IsTrue (is_ok result) }
{
    let agent = caller.pass.agent();
    let number = caller.notes.number;
    let wakes = wakes(&op);
    let mut turn = court.enter(rt, &mut caller.pass);
    turn.value.know_legal();
    let acted = turn.value.act(
        agent,
        number,
        &mut caller.notes.pending,
        room,
        op,
        work,
        past,
    );
    turn.value.know_legal();
    court.leave(&mut caller.pass, turn);
    ring_if(court, wakes);
    match acted {
        Ok(acted) => {
            caller.notes.number += 1;
            caller.notes.entries += 1;
            caller.notes.rows = acted.rows;
            Ok(acted)
        }
        Err(error) => Err(error),
    }
}
