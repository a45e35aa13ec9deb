//! The plain machine with its history, which stays legal call by call.

ghost use Rattle.std.specs.Prelude.{◌≡◌, OnOk, IsTrue};
ghost use Rattle.opfs_base.specs.Texts.{Text};
ghost use Rattle.opfs_machine.specs.declared.own.Own.{Own};
ghost use Rattle.opfs_machine.specs.declared.state.State.{State};
ghost use Rattle.opfs_machine.specs.Agents.{agent_of};
ghost use Rattle.opfs_machine.specs.Histories.{may_enter};
ghost use Rattle.opfs_plain.specs.Keeping.{IsKept, IsEntered};
ghost use Rattle.opfs_rulings.specs.Known.{IsAgent};

use crate::machine::enter;
use opfs_hist::{Entry, Op};
use opfs_machine::{Many, Own, State};
use opfs_rulings::{Board, agent, is_agent, may_enter};
use std::alloc::{AllocError, Global};

/// Whether an agent is live, and may make a call.
fn stands(state: &Board, number: u32, op: &Op) -> bool
    requires { IsAgent state.now number }
    ensures live { IsTrue result → IsTrue (agent_of state.now number).live }
    ensures fitting { IsTrue result → IsTrue (may_enter state.now number op.now) }
{
    agent(state, number).live && may_enter(state, number, op)
}

/// The plain machine: what it holds, and all entries so far.
#[derive(Drop)]
pub struct Plain {
    pub state: Board,
    pub entries: Many<Entry>,
}

impl Plain {
    /// A call of an agent, with the evictions before it: a history that was legal stays so. A call that may have no
    /// entry is answered as want of memory is. After want of memory the machine is of no more use.
    pub fn call(&mut self, alloc: Global, agent: u32, number: u32, op: Op) -> Result<(), AllocError>
        ensures kept { OnOk result ((start : State Text Own) → IsKept start self.old → IsKept start self.new) }
        ensures entered { OnOk result (IsEntered self.old.entries self.new.entries agent number op) }
    {
        if !is_agent(&self.state, agent) {
            drop(op);
            return Err(AllocError);
        }
        if !stands(&self.state, agent, &op) {
            drop(op);
            return Err(AllocError);
        }
        enter(
            alloc,
            &mut self.state,
            &mut self.entries.items,
            agent,
            number,
            op,
        )
    }
}
