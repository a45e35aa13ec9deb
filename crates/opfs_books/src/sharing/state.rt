//! The shared state serves the books.

use crate::sharing::shared::Shared;
use opfs_base::{Extent, Extents, Key};
use opfs_hist::{Op, PendingSum};
use opfs_machine::Sizes;
use opfs_shed::Shed;
use opfs_state::State;
use opfs_tree::ReadyTree;

impl Shared for State {
    ghost use Rattle.opfs_books.specs.Sharing.Serving.{MayApplyTo, MayRefuseTo, MayNoteTo, MayClearOf};

    ghost machine = { λ s. s.store.machine };

    ghost tree = { λ s. s.store.tree };

    ghost standby = { λ s. record { prepared = s.store.prepared; target = s.target; growth = s.growth } };

    ghost may_apply = { λ s k o z extents. MayApplyTo s k o z };

    ghost may_refuse = { λ s k o. MayRefuseTo s k };

    ghost may_note = { λ s k sum. MayNoteTo s k sum };

    ghost may_clear = { λ s unit. MayClearOf s unit };

    fn rows(&self) -> &ReadyTree {
        self.know_rows_match_tree();
        self.tree()
    }

    fn shed(&self) -> &Shed {
        let shed = State::shed(self);
        shed.know_order();
        shed
    }

    fn apply(
        &mut self,
        agent: u32,
        op: &Op,
        sizes: Sizes,
        extents: Option<Extents>,
        freed: &mut Vec<Extent>,
    ) {
        State::apply(self, agent, op, sizes, extents, freed);
    }

    fn refuse(&mut self, agent: u32, op: &Op) {
        State::refuse(self, agent, op);
    }

    fn note(&mut self, agent: u32, sum: PendingSum) {
        State::note(self, agent, sum);
    }

    fn clear(&mut self, unit: &Key, freed: &mut Vec<Extent>) {
        State::clear(self, unit, freed);
    }
}
