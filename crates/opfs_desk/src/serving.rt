//! The desk serves agents.

ghost use Rattle.std.specs.Prelude.{refl};
ghost use Rattle.opfs_desk.specs.Keeping.{KeepsAll};
ghost use Rattle.opfs_desk.specs.Seen.{disk_of};

use crate::desk::Desk;
use opfs_base::Name;
use opfs_hist::{Given, Op, Pending, Room};
use opfs_outside::Disk;
use opfs_store::{Acted, AwaitState, Store};
use opfs_work::Work;
use std::alloc::AllocError;

impl<D: Disk> Store for Desk<D> {
    ghost tells = { D.tells };

    ghost opened = { λ o. o.fixed.opening };

    ghost faults = { λ d. D.faults (disk_of d) };

    ghost faults_before = { λ o. D.faults o.fixed.begun };

    ghost keeps = { λ d. KeepsAll D.Disk d };

    fn act(
        &mut self,
        agent: u32,
        number: u32,
        pending: &mut Pending,
        room: Room,
        op: Op,
        work: &mut Work,
        past: &[Name],
    ) -> Result<Acted, AllocError> {
        Desk::act(self, agent, number, pending, room, op, work, past)
    }

    fn take_in(&mut self, agent: u32, pending: &mut Pending) {
        Desk::take_in(self, agent, pending)
    }

    fn await_state(&self, agent: u32, tag: &str) -> AwaitState {
        Desk::await_state(self, agent, tag)
    }

    fn waits_for(&self, agent: u32, tag: &str) -> bool {
        Desk::waits_for(self, agent, tag)
    }

    fn give_out(&mut self) -> Given {
        Desk::give_out(self)
    }

    fn know_legal(&self) {
        Desk::know_legal(self)
    }

    fn know_counts(&self) {
        Desk::counts(self)
    }

    fn know_kept(&self) {
        Desk::know_kept(self)
    }

    ghost owned = { λ e. refl };
}
