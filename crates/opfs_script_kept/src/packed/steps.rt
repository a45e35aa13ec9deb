//! The steps of an agent, each read when its turn comes.

ghost use Rattle.std.specs.Prelude.{◌≡◌, [], ◌∷◌, IfOk, MatchOption};

use crate::packed::telling::step_told;
use crate::packed::texts::{Texts, TextsAhead};
use opfs_script::Step;
use std::alloc::{AllocError, Global};
use std::marker::Model;

/// The steps that are still to come, seen as the list of them. They end before the first text that tells none.
#[derive(Drop)]
pub struct StepsAhead<'a> {
    texts: TextsAhead<'a>,
}

impl<'a> Model for StepsAhead<'a> {
    ghost use Rattle.std.specs.Prelude.{List};
    ghost use Rattle.opfs_script.specs.declared.step.Step.{Step};
    ghost use Rattle.opfs_script_kept.specs.Packed.Telling.{steps_told};

    ghost Value = { List Step };

    ghost view = { λ ahead. steps_told ahead.texts };
}

impl<'a> StepsAhead<'a> {
    ghost use Rattle.opfs_script_kept.specs.Packed.Telling.{steps_told};

    /// The steps that texts tell.
    pub fn of(texts: &'a Texts) -> StepsAhead<'a>
        ensures { result ≡ steps_told texts.now }
    {
        StepsAhead {
            texts: texts.ahead(),
        }
    }

    /// The same steps once more.
    pub fn copy(&self) -> StepsAhead<'a>
        ensures { result ≡ self.now }
    {
        StepsAhead {
            texts: self.texts.copy(),
        }
    }

    /// Goes past the first step, and gives it; None where none is left.
    pub fn next(&mut self, alloc: Global) -> Result<Option<Step>, AllocError>
        ensures { IfOk result (λ step. MatchOption step (self.old ≡ []) (λ step. self.old ≡ step ∷ self.new)) }
    {
        let Some(text) = self.texts.next() else {
            return Ok(None);
        };
        let step = step_told(alloc, text)?;
        Ok(step)
    }
}
