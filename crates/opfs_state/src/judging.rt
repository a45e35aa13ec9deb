//! What calls refuse, or which units are cleared for them.

ghost use Rattle.std.specs.Prelude.{◌≡◌, None, IfOk};
ghost use Rattle.opfs_state_rows.specs.Changes.Asking.{AreOwnUnits};
ghost use Rattle.opfs_laws.specs.Lengths.Bridge.{judged_in};
ghost use Rattle.opfs_laws.specs.Lengths.Kept.{Kept};
ghost use Rattle.opfs_machine.specs.Contents.{in_lengths};
ghost use Rattle.opfs_state.specs.Verdicts.Callers.{IsCaller};

use crate::state::State;
use opfs_hist::Op;
use opfs_machine::{Ruled, Sizes};
use opfs_pool::Keys;
use std::alloc::Global;

impl State {
    /// The refusal of a call, or the units that are cleared for it, where no place stands ready for a row.
    pub fn judge(&self, alloc: Global, agent: u32, op: &Op, sizes: Sizes) -> Ruled<Keys>
        requires caller { IsCaller self.now.store.machine agent }
        requires own { AreOwnUnits self.now.store.machine agent op.now }
        requires kept { Kept self.now.store.machine }
        requires ready { self.now.store.prepared.place ≡ None }
        ensures { IfOk result (λ judged. judged ≡ judged_in in_lengths self.now.store.machine sizes agent op.now) }
    {
        crate::verdicts::judge(alloc, &self.store, agent, op, sizes)
    }
}
