//! How the shared state begins and ends.

ghost use Rattle.std.specs.Prelude.{◌≡◌, ◌≤◌, None, IfOk, length};
ghost use Rattle.opfs_register.specs.Seating.{most_agents};
ghost use Rattle.opfs_state_rows.specs.Standing.Beginnings.{IsBegun};
ghost use Rattle.opfs_state.specs.Applied.{opened};

use crate::state::State;
use opfs_machine::Limits;
use opfs_register::{Register, Who};
use opfs_shed::Shed;
use opfs_state_rows::Standing;
use opfs_tree::Tree;
use std::alloc::{AllocError, Global};

impl State {
    /// The shared state over the rows of a tree and their buckets, with agents that have done nothing. The charge of all
    /// that is there is told.
    pub fn make(
        alloc: Global,
        tree: Tree,
        shed: Shed,
        charge: u64,
        limits: Limits,
        agents: Vec<Who>,
    ) -> Result<State, AllocError>
        requires few { length agents.items ≤ most_agents }
        requires begun { IsBegun (opened tree shed limits agents.items) shed charge }
        ensures machine { IfOk result (λ s. s.store.machine ≡ opened tree shed limits agents.items) }
        ensures tree { IfOk result (λ s. s.store.tree ≡ tree) }
        ensures place { IfOk result (λ s. s.store.prepared.place ≡ None) }
    {
        let register = Register::make(alloc, agents, limits)?;
        let store = Standing::make(alloc, tree, shed, register, charge)?;
        Ok(State {
            store,
            ready: None,
            alloc,
        })
    }

    /// Ends the shared state, without giving any lock back.
    pub fn end(self) {
        let State {
            store,
            ready: _ready,
            alloc: _alloc,
        } = self;
        store.end();
    }
}
