//! The script of an agent as it is read.

ghost use Rattle.std.specs.Prelude.{◌≡◌, IsTrue};
ghost use Rattle.opfs_script.specs.Limits.{is_formed, fits_alone};

use crate::script::AgentScript;
use crate::step::Step;
use opfs_base::Key;
use std::marker::Model;

/// The script of one agent as it was read, seen as its origin's key, its grant and its steps. It may ask for too much.
#[derive(Drop)]
pub struct Draft {
    key: Option<Key>,
    grant: bool,
    steps: Vec<Step>,
}

impl Model for Draft {
    ghost use Rattle.opfs_script.specs.Scripts.{Asked};

    ghost Value = { Asked };

    ghost view = { λ draft. record { key = draft.key; grant = draft.grant; steps = draft.steps.items } };

    ghost use Rattle.std.specs.Prelude.{IsTrue};
    ghost use Rattle.opfs_script.specs.Limits.{is_formed};

    ghost invariant = { λ draft. IsTrue (is_formed (record { key = draft.key; grant = draft.grant; steps = draft.steps.items })) };
}

impl Draft {
    /// The script of an agent with this key and grant and these steps. Takes no memory.
    pub fn make(key: Option<Key>, grant: bool, steps: Vec<Step>) -> Draft
        requires { IsTrue (is_formed (record { key = key; grant = grant; steps = steps.items })) }
        ensures { result ≡ record { key = key; grant = grant; steps = steps.items } }
    {
        Draft { key, grant, steps }
    }

    /// The steps in order.
    pub fn steps(&self) -> &[Step]
        ensures { result.now ≡ self.now.steps }
    {
        self.steps.as_slice()
    }

    /// The script of one agent, which asks no more than it may. Takes no memory.
    pub fn finished(self) -> AgentScript
        requires { IsTrue (fits_alone self) }
        ensures { result ≡ self }
    {
        let Draft { key, grant, steps } = self;
        AgentScript::make(key, grant, steps)
    }
}
