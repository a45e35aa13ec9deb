//! How far the run of an agent's script is.

ghost use Rattle.std.specs.Prelude.{◌≡◌, ◌+◌, List, drop, Some, IfOk, OnOk};
ghost use Rattle.opfs_script.specs.declared.step.Step.{Step};
ghost use Rattle.opfs_transcripts.specs.Told.Goings.{after_end, asked, going_on};
ghost use Rattle.opfs_judge.specs.Players.{starting, standing, is_gone, end_of};

use crate::ahead::Ahead;
use opfs_base::copy_key;
use opfs_hist::{Entry, Op};
use opfs_script::AgentScript;
use opfs_script_kept::PackedAgent;
use opfs_script_run::{Hand, Open};
use std::alloc::{AllocError, Global};
use std::marker::Model;

/// Whether an agent makes its steps, ends what is still open from a row of its hand on, or has ended.
#[derive(Clone, Copy, PartialEq, Eq)]
pub enum Stage {
    Stepping,
    Closing(usize),
    Gone,
}

/// The run of an agent's script, seen as how far it is.
#[derive(Drop)]
pub struct Player<'a> {
    hand: Hand,
    number: u32,
    steps: Ahead<'a>,
    stage: Stage,
}

impl<'a> Model for Player<'a> {
    ghost use Rattle.opfs_transcripts.specs.Told.Goings.{Going};
    ghost use Rattle.opfs_judge.specs.Players.{standing};
    ghost use Rattle.opfs_judge.specs.Steps.{steps_of};

    ghost Value = { Going };

    ghost view = { λ player. standing player.hand player.number (steps_of player.steps) player.stage };
}

/// The next number. One that 32 bits don't hold is want of memory.
fn next(number: u32) -> Result<u32, AllocError>
    ensures { IfOk result (λ next. next ≡ number + 1) }
{
    match number.checked_add(1) {
        Some(next) => Ok(next),
        None => Err(AllocError),
    }
}

/// What the end does next, where these rows are open and so many of them are ended.
fn ending(opened: &[Open], ended: usize) -> Op
    ensures { result ≡ end_of (drop ended opened.now) }
{
    match opened.get(ended) {
        Some(open) => open.ending(),
        None => Op::End,
    }
}

/// What an agent does behind an end, where so many of its open rows were ended before it.
fn after_ending(hand: &Hand, number: &mut u32, ended: usize) -> Result<Stage, AllocError>
    ensures { IfOk result (λ stage. (steps : List Step) → standing hand.now number.new steps stage ≡ after_end number.old (drop ended hand.now.opened)) }
{
    if ended < hand.opened().len() {
        *number = next(*number)?;
        Ok(Stage::Closing(ended + 1))
    } else {
        Ok(Stage::Gone)
    }
}

impl<'a> Player<'a> {
    /// An agent before its first step.
    pub fn make(alloc: Global, script: &'a AgentScript) -> Result<Player<'a>, AllocError>
        ensures { IfOk result (λ player. player ≡ starting script.now) }
    {
        Ok(Player {
            hand: Hand::make(alloc, copy_key(alloc, script.key())?),
            number: 1,
            steps: Ahead::Read(script.steps()),
            stage: Stage::Stepping,
        })
    }

    /// An agent before its first step, where its steps are texts.
    pub fn make_packed(alloc: Global, script: &'a PackedAgent) -> Result<Player<'a>, AllocError>
        ensures { IfOk result (λ player. player ≡ starting script.now) }
    {
        Ok(Player {
            hand: Hand::make(alloc, copy_key(alloc, script.key())?),
            number: 1,
            steps: Ahead::Told(script.steps()),
            stage: Stage::Stepping,
        })
    }

    /// The number and the call of the next entry; None where the agent has ended.
    pub fn asked(&self, alloc: Global) -> Result<Option<(u32, Op)>, AllocError>
        ensures { IfOk result (λ next. next ≡ asked self.now) }
    {
        match self.stage {
            Stage::Stepping => match self.steps.op(alloc, &self.hand)? {
                Some(op) => Ok(Some((self.number, op))),
                None => Ok(Some((self.number, ending(self.hand.opened(), 0)))),
            },
            Stage::Closing(row) => Ok(Some((self.number, ending(self.hand.opened(), row)))),
            Stage::Gone => Ok(None),
        }
    }

    /// Whether the agent has ended.
    pub fn is_gone(&self) -> bool
        ensures { result ≡ is_gone self.now }
    {
        matches!(self.stage, Stage::Gone)
    }

    /// Goes on behind an entry of the agent's run.
    pub fn go_on(&mut self, alloc: Global, entry: &Entry) -> Result<(), AllocError>
        requires { asked self.old ≡ Some (entry.now.number, entry.now.op) }
        ensures { OnOk result (self.new ≡ going_on self.old entry.now.reply) }
    {
        match self.stage {
            Stage::Stepping => {
                if self.steps.go_on(alloc, &mut self.hand, entry)? {
                    self.number = next(self.number)?;
                    return Ok(());
                }
                self.stage = after_ending(&self.hand, &mut self.number, 0)?;
                Ok(())
            }
            Stage::Closing(row) => {
                self.stage = after_ending(&self.hand, &mut self.number, row)?;
                Ok(())
            }
            Stage::Gone => Ok(()),
        }
    }
}
