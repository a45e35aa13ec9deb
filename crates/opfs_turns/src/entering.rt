//! A turn without a call.

ghost use Rattle.std.specs.Prelude.{◌≡◌};
ghost use Rattle.opfs_hall.specs.History.{IsPrefix};
ghost use Rattle.opfs_turns.specs.Agents.{IsAgent, seen};
ghost use Rattle.opfs_turns.specs.Calls.{HasLooked, HasRoom};
ghost use Rattle.opfs_turns.specs.Entering.{HasEnteredPending};

use crate::notes::Caller;
use opfs_hall::{Hall, Watch};
use opfs_store::Store;
use std::sync::Wait;

/// Takes the turn, has the agent's pending calls entered, and hands the turn on. Takes no memory.
pub(crate) fn enter_pending<S: Store, R: Wait>(rt: &R, court: &Hall<S>, caller: &mut Caller<S>)
    requires own { caller.old.pass.hall ≡ court.now }
    requires agent { IsAgent S.tells (seen S.opened caller.old.pass caller.old.notes) }
    requires room { HasRoom (seen S.opened caller.old.pass caller.old.notes) }
    ensures agent { IsAgent S.tells (seen S.opened caller.new.pass caller.new.notes) }
    ensures idle { caller.new.pass ≡ record caller.old.pass { base = caller.new.pass.base } }
    ensures entered { HasEnteredPending S.tells (seen S.opened caller.old.pass caller.old.notes) (seen S.opened caller.new.pass caller.new.notes) }
{
    let agent = caller.pass.agent();
    let mut turn = court.enter(rt, &mut caller.pass);
    turn.value.know_legal();
    turn.value.take_in(agent, &mut caller.notes.pending);
    turn.value.know_legal();
    court.leave(&mut caller.pass, turn);
}

/// Takes the turn behind a watch and hands it on: the agent has then seen all that the watch has. Takes no memory.
pub(crate) fn look_behind<S: Store, R: Wait>(
    rt: &R,
    court: &Hall<S>,
    caller: &mut Caller<S>,
    watch: &mut Watch<S>,
)
    requires own { caller.old.pass.hall ≡ court.now }
    requires watch { watch.old.pass.hall ≡ court.now }
    requires agent { IsAgent S.tells (seen S.opened caller.old.pass caller.old.notes) }
    ensures agent { IsAgent S.tells (seen S.opened caller.new.pass caller.new.notes) }
    ensures idle { caller.new.pass ≡ record caller.old.pass { base = caller.new.pass.base } }
    ensures looked { HasLooked (seen S.opened caller.old.pass caller.old.notes) (seen S.opened caller.new.pass caller.new.notes) }
    ensures behind { IsPrefix (S.entries watch.old.last) caller.new.pass.base }
    ensures same { watch.new ≡ watch.old }
{
    let turn = court.enter_behind(rt, &mut caller.pass, watch);
    turn.value.know_legal();
    court.leave(&mut caller.pass, turn);
}
