//! Scripts of agents, with the texts of their steps.

ghost use Rattle.std.specs.Prelude.{◌≡◌, IsTrue, IfOk, map};
ghost use Rattle.std.specs.Option.{option_copied};
ghost use Rattle.opfs_script.specs.Limits.{fits_limits, is_origin_key};
ghost use Rattle.opfs_script_kept.specs.Packed.Telling.{steps_told, without_steps};

use crate::packed::steps::StepsAhead;
use crate::packed::texts::Texts;
use opfs_base::{Key, copy_key};
use opfs_script::{AgentScript, Script};
use std::alloc::{AllocError, Global};
use std::marker::Model;

/// The script of one agent, seen as its origin's key, its grant and its steps.
#[derive(Drop)]
pub struct PackedAgent {
    key: Option<Key>,
    grant: bool,
    steps: Texts,
}

impl Model for PackedAgent {
    ghost use Rattle.opfs_script.specs.Scripts.{Asked};
    ghost use Rattle.opfs_script_kept.specs.Packed.Telling.{steps_told};

    ghost Value = { Asked };

    ghost view = { λ agent. record { key = agent.key; grant = agent.grant; steps = steps_told agent.steps } };

    ghost use Rattle.std.specs.Prelude.{IsTrue};
    ghost use Rattle.opfs_script.specs.Limits.{is_origin_key};

    ghost invariant = { λ agent. IsTrue (is_origin_key agent.key) };
}

impl PackedAgent {
    /// The script of an agent with this key and grant and the steps that texts tell. Takes no memory.
    pub fn make(key: Option<Key>, grant: bool, steps: Texts) -> PackedAgent
        requires { IsTrue (is_origin_key key) }
        ensures { result ≡ record { key = key; grant = grant; steps = steps_told steps } }
    {
        PackedAgent { key, grant, steps }
    }

    /// The key of the agent's origin; None where that is opaque.
    pub fn key(&self) -> Option<&Key>
        ensures key { option_copied result ≡ self.now.key }
        ensures origin { IsTrue (is_origin_key self.now.key) }
    {
        self.key.as_ref()
    }

    /// Whether the agent has the grant `persistent-storage`.
    pub fn grant(&self) -> bool
        ensures { result ≡ self.now.grant }
    {
        self.grant
    }

    /// The steps in order.
    pub fn steps(&self) -> StepsAhead<'_>
        ensures { result ≡ self.now.steps }
    {
        StepsAhead::of(&self.steps)
    }

    /// The script of the same agent without its steps.
    fn without_steps(&self, alloc: Global) -> Result<AgentScript, AllocError>
        ensures { IfOk result (λ head. head ≡ without_steps self.now) }
    {
        let grant = self.grant();
        let key = copy_key(alloc, self.key())?;
        Ok(AgentScript::make(key, grant, Vec::new(alloc)))
    }
}

/// A script: one for each agent, seen as the list of them. The first agent has the number 1. It keeps all limits.
#[derive(Drop)]
pub struct PackedScript {
    agents: Vec<PackedAgent>,
}

impl Model for PackedScript {
    ghost use Rattle.std.specs.Prelude.{List};
    ghost use Rattle.opfs_script.specs.Scripts.{Asked};

    ghost Value = { List Asked };

    ghost view = { λ script. script.agents.items };

    ghost use Rattle.std.specs.Prelude.{IsTrue};
    ghost use Rattle.opfs_script.specs.Limits.{fits_limits};

    ghost invariant = { λ script. IsTrue (fits_limits script.agents.items) };
}

/// The scripts of agents without their steps.
fn heads_of(alloc: Global, agents: &[PackedAgent]) -> Result<Vec<AgentScript>, AllocError>
    ensures { IfOk result (λ heads. heads.items ≡ map without_steps agents.now) }
{
    let mut heads = Vec::new(alloc);
    for agent in agents {
        heads.push(agent.without_steps(alloc)?)?;
    }
    Ok(heads)
}

impl PackedScript {
    /// The script of these agents. Takes no memory.
    pub fn make(agents: Vec<PackedAgent>) -> PackedScript
        requires { IsTrue (fits_limits agents.items) }
        ensures { result ≡ agents.items }
    {
        PackedScript { agents }
    }

    /// The scripts of the agents in order.
    pub fn agents(&self) -> &[PackedAgent]
        ensures agents { result.now ≡ self.now }
        ensures limits { IsTrue (fits_limits self.now) }
    {
        self.agents.as_slice()
    }

    /// The script of the same agents without their steps.
    pub fn heads(&self, alloc: Global) -> Result<Script, AllocError>
        ensures { IfOk result (λ heads. heads ≡ map without_steps self.now) }
    {
        let heads = heads_of(alloc, self.agents())?;
        Ok(Script::make(heads))
    }
}
