//! Scripts of agents.

ghost use Rattle.std.specs.Prelude.{◌≡◌, IsTrue};
ghost use Rattle.std.specs.Option.{option_copied};
ghost use Rattle.opfs_script.specs.Limits.{fits_limits, keeps_limits};

use crate::step::Step;
use opfs_base::Key;
use std::marker::Model;

/// The script of one agent, seen as its origin's key, its grant and its steps. It keeps all limits but that on the
/// number of agents.
#[derive(Drop)]
pub struct AgentScript {
    key: Option<Key>,
    grant: bool,
    steps: Vec<Step>,
}

impl Model for AgentScript {
    ghost use Rattle.opfs_script.specs.Scripts.{Asked};

    ghost Value = { Asked };

    ghost view = { λ script. record { key = script.key; grant = script.grant; steps = script.steps.items } };

    ghost use Rattle.std.specs.Prelude.{IsTrue};
    ghost use Rattle.opfs_script.specs.Limits.{keeps_limits};

    ghost invariant = { λ script. IsTrue (keeps_limits (record { key = script.key; grant = script.grant; steps = script.steps.items })) };
}

impl AgentScript {
    /// The script of an agent with this key and grant and these steps. Takes no memory.
    pub fn make(key: Option<Key>, grant: bool, steps: Vec<Step>) -> AgentScript
        requires { IsTrue (keeps_limits (record { key = key; grant = grant; steps = steps.items })) }
        ensures { result ≡ record { key = key; grant = grant; steps = steps.items } }
    {
        AgentScript { key, grant, steps }
    }

    /// The key of the agent's origin; None where that is opaque.
    pub fn key(&self) -> Option<&Key>
        ensures key { option_copied result ≡ self.now.key }
        ensures limits { IsTrue (keeps_limits self.now) }
    {
        self.key.as_ref()
    }

    /// Whether the agent has the grant `persistent-storage`.
    pub fn grant(&self) -> bool
        ensures { result ≡ self.now.grant }
    {
        self.grant
    }

    /// The steps in order.
    pub fn steps(&self) -> &[Step]
        ensures steps { result.now ≡ self.now.steps }
        ensures limits { IsTrue (keeps_limits self.now) }
    {
        self.steps.as_slice()
    }
}

/// A script: one for each agent, seen as the list of them. The first agent has the number 1. It keeps all limits.
#[derive(Drop)]
pub struct Script {
    agents: Vec<AgentScript>,
}

impl Model for Script {
    ghost use Rattle.std.specs.Prelude.{List};
    ghost use Rattle.opfs_script.specs.Scripts.{Asked};

    ghost Value = { List Asked };

    ghost view = { λ script. script.agents.items };

    ghost use Rattle.std.specs.Prelude.{IsTrue};
    ghost use Rattle.opfs_script.specs.Limits.{fits_limits};

    ghost invariant = { λ script. IsTrue (fits_limits script.agents.items) };
}

impl Script {
    /// The scripts of the agents in order.
    pub fn agents(&self) -> &[AgentScript]
        ensures agents { result.now ≡ self.now }
        ensures limits { IsTrue (fits_limits self.now) }
    {
        self.agents.as_slice()
    }

    /// The script of these agents. Takes no memory.
    pub fn make(agents: Vec<AgentScript>) -> Script
        requires { IsTrue (fits_limits agents.items) }
        ensures { result ≡ agents.items }
    {
        Script { agents }
    }
}
