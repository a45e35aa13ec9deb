//! The shared state.

ghost use Rattle.std.specs.Prelude.{◌≡◌, None};

use opfs_machine::Place;
use opfs_state_rows::Standing;
use std::alloc::Global;
use std::marker::Model;

/// What stands ready for a call beside the store: the place that it changes, in memory of its own, and what it adds to the
/// charge by the row or mode that it makes.
#[derive(Drop)]
pub(crate) struct Ready {
    pub(crate) target: Option<Place>,
    pub(crate) growth: u64,
}

/// The shared state: who has what open, and what the store holds, without bytes. Agents are numbered from 1.
pub struct State {
    pub(crate) store: Standing,
    pub(crate) ready: Option<Ready>,
    pub(crate) alloc: Global,
}

impl Model for State {
    ghost use Rattle.opfs_state.specs.Applied.{StateSeen};
    ghost use Rattle.opfs_state.specs.Seeing.{target_in, growth_in};

    ghost Value = { StateSeen };

    ghost view = { λ s. record { store = s.store; target = target_in s.ready; growth = growth_in s.ready } };
}

impl Ready {
    /// Nothing.
    pub(crate) fn none() -> Ready
        ensures { result ≡ record { target = None; growth = 0 } }
    {
        Ready {
            target: None,
            growth: 0,
        }
    }
}
