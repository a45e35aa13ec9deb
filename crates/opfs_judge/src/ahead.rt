//! The steps of an agent that are still to come.

ghost use Rattle.std.specs.Prelude.{◌≡◌, Some, IfOk, OnOk};
ghost use Rattle.opfs_script_run.specs.Runs.Running.{hand_then, op_of};
ghost use Rattle.opfs_judge.specs.Steps.{IsPast, first_op, steps_of};

use opfs_hist::{Entry, Op};
use opfs_script::Step;
use opfs_script_kept::StepsAhead;
use opfs_script_run::Hand;
use std::alloc::{AllocError, Global};

/// Steps in order, as they were read before, or as texts that are read when their turn comes.
#[derive(Drop)]
pub enum Ahead<'a> {
    Read(&'a [Step]),
    Told(StepsAhead<'a>),
}

/// What a step asks, which is not wanted afterwards.
fn op_of(alloc: Global, hand: &Hand, step: Step) -> Result<Op, AllocError>
    ensures { IfOk result (λ op. op ≡ op_of hand.now step) }
{
    let op = hand.op_of(alloc, &step);
    drop(step);
    op
}

/// The hand takes in the entry of a step, which is not wanted afterwards.
fn take_in(alloc: Global, hand: &mut Hand, step: Step, entry: &Entry) -> Result<(), AllocError>
    ensures { OnOk result (hand.new ≡ hand_then hand.old step entry.now.op entry.now.reply) }
{
    let taken = hand.then(alloc, &step, &entry.op, &entry.reply);
    drop(step);
    taken
}

/// What the first of these steps asks; None where none is left.
fn first_op(alloc: Global, hand: &Hand, steps: &[Step]) -> Result<Option<Op>, AllocError>
    ensures { IfOk result (λ op. op ≡ first_op hand.now steps.now) }
{
    match steps.first() {
        Some(step) => Ok(Some(hand.op_of(alloc, step)?)),
        None => Ok(None),
    }
}

/// The same where the step is a text, which stays the first.
fn first_op_told(
    alloc: Global,
    hand: &Hand,
    steps: &StepsAhead<'_>,
) -> Result<Option<Op>, AllocError>
    ensures { IfOk result (λ op. op ≡ first_op hand.now steps.now) }
{
    let mut ahead = steps.copy();
    match ahead.next(alloc)? {
        Some(step) => Ok(Some(op_of(alloc, hand, step)?)),
        None => Ok(None),
    }
}

/// The hand after the first of these steps, which are then those behind it; false where none is left.
fn pass(
    alloc: Global,
    hand: &mut Hand,
    steps: &mut &[Step],
    entry: &Entry,
) -> Result<bool, AllocError>
    ensures { IfOk result (λ went. IsPast entry.now hand.old steps.old.now hand.new steps.new.now went) }
{
    match *steps {
        [step, more @ ..] => {
            hand.then(alloc, step, &entry.op, &entry.reply)?;
            *steps = more;
            Ok(true)
        }
        [] => Ok(false),
    }
}

/// The same where the steps are texts.
fn pass_told(
    alloc: Global,
    hand: &mut Hand,
    steps: &mut StepsAhead<'_>,
    entry: &Entry,
) -> Result<bool, AllocError>
    ensures { IfOk result (λ went. IsPast entry.now hand.old steps.old hand.new steps.new went) }
{
    match steps.next(alloc)? {
        Some(step) => {
            take_in(alloc, hand, step, entry)?;
            Ok(true)
        }
        None => Ok(false),
    }
}

impl<'a> Ahead<'a> {
    /// What the first step asks; None where none is left.
    pub fn op(&self, alloc: Global, hand: &Hand) -> Result<Option<Op>, AllocError>
        ensures { IfOk result (λ op. op ≡ first_op hand.now (steps_of self.now)) }
    {
        match self {
            Ahead::Read(steps) => first_op(alloc, hand, steps),
            Ahead::Told(steps) => first_op_told(alloc, hand, steps),
        }
    }

    /// The hand after the first step, whose entry this is, and goes past it; false where none is left.
    pub fn go_on(
        &mut self,
        alloc: Global,
        hand: &mut Hand,
        entry: &Entry,
    ) -> Result<bool, AllocError>
        ensures { IfOk result (λ went. IsPast entry.now hand.old (steps_of self.old) hand.new (steps_of self.new) went) }
    {
        match self {
            Ahead::Read(steps) => pass(alloc, hand, steps, entry),
            Ahead::Told(steps) => pass_told(alloc, hand, steps, entry),
        }
    }
}
