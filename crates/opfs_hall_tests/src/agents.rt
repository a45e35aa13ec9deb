//! Agents on threads of their own.
ghost use Rattle.std.specs.Prelude.{◌≡◌, ◌≢◌, ℕ, ◌+◌, ◌≤◌, ◌<◌, [], ◌∷◌, ◌++◌, ◌&&◌, if◌then◌else◌, true, false, map, All, Contains, IfNone, IfSome};
ghost use Rattle.std.specs.Thread.{IsSync};
ghost use Rattle.opfs_hall.specs.Seen.{AreNew, new_pass, joined};
ghost use Rattle.opfs_hall_tests.specs.Runs.{mark, own_marks, HasRun, IsSamePass, IsReady, HasRunAll};

use crate::marks::{Mark, Marks};
use opfs_hall::{Hall, Pass};
use std::sync::Wait;
use std::thread::{Threads, join};

/// What came of one or more agents: a pass that has collected all of theirs, and whether each made all its turns.
#[derive(Drop)]
pub struct Run {
    pub pass: Pass<Marks>,
    pub complete: bool,
}

/// Takes a turn, and leaves a mark in it if there is memory, which it tells.
pub fn leave_mark<R: Wait>(rt: &R, hall: &Hall<Marks>, pass: &mut Pass<Marks>, count: u32) -> bool
    requires own { pass.old.hall ≡ hall.now }
    requires agent { pass.old.agent ≢ 0 }
    requires idle { pass.old.busy ≡ false }
    ensures same { IsSamePass pass.old pass.new }
    ensures own { let before = own_marks pass.old.agent pass.old.base in
        own_marks pass.old.agent pass.new.base ≡ (if result then before ++ mark pass.old.agent count ∷ [] else before) }
{
    let agent = pass.agent();
    let mut turn = hall.enter(rt, pass);
    let marked = turn.value.list.push(Mark { agent, count }).is_ok();
    hall.leave(pass, turn);
    marked
}

/// One agent's turns.
pub fn run_agent<R: Wait>(rt: &R, hall: &Hall<Marks>, mut pass: Pass<Marks>, turns: u32) -> Run
    requires { IsReady hall.now pass }
    ensures same { IsSamePass pass result.pass }
    ensures own { result.complete ≡ true → HasRun turns (pass.agent, result.pass.base) }
{
    let mut complete = true;
    for count in 0..turns {
        let marked = leave_mark(rt, hall, &mut pass, count);
        complete = marked & complete;
    }
    Run { pass, complete }
}

/// Collects the second into the first.
pub fn join_runs(hall: &Hall<Marks>, first: Run, second: Run) -> Run
    requires own { (first.pass.hall ≡ hall.now) × (second.pass.hall ≡ hall.now) }
    requires idle { (first.pass.busy ≡ false) × (second.pass.busy ≡ false) }
    requires agent { second.pass.agent ≢ 0 }
    ensures pass { result.pass ≡ joined first.pass second.pass }
    ensures complete { result.complete ≡ (first.complete && second.complete) }
{
    let Run { mut pass, complete } = first;
    hall.join(&mut pass, second.pass);
    Run {
        pass,
        complete: complete & second.complete,
    }
}

/// Runs all agents at the same time.
pub fn run_all<R: Threads + Wait + Sync>(
    rt: &R,
    hall: &Hall<Marks>,
    mut passes: Vec<Pass<Marks>>,
    turns: u32,
) -> Option<Run>
    requires { All (IsReady hall.now) passes.items }
    ensures none { IfNone result (passes.items ≡ []) }
    ensures run { IfSome result (λ r. HasRunAll hall.now turns passes.items r.pass r.complete) }
{
    let pass = passes.pop()?;
    let (mine, rest) = join(
        rt,
        move || -> Run
            requires { IsReady hall.now pass }
            ensures same { IsSamePass pass result.pass }
            ensures own { result.complete ≡ true → HasRun turns (pass.agent, result.pass.base) }
        { run_agent(rt, hall, pass, turns) },
        move || -> Option<Run>
            requires sync { IsSync R.row }
            requires ready { All (IsReady hall.now) passes.items }
            ensures none { IfNone result (passes.items ≡ []) }
            ensures run { IfSome result (λ r. HasRunAll hall.entry.now turns passes.items r.pass r.complete) }
        { run_all(rt, hall, passes, turns) },
    );
    match rest {
        Some(others) => Some(join_runs(hall, others, mine)),
        None => Some(mine),
    }
}

/// The owner's pass of a new hall, and those of its agents.
fn owner_apart(
    hall: &Hall<Marks>,
    mut passes: Vec<Pass<Marks>>,
    agents: u32,
) -> (Pass<Marks>, Vec<Pass<Marks>>)
    requires { AreNew hall.now (agents + 1) passes.items }
    ensures owner { result.0 ≡ new_pass hall.now 0 [] }
    ensures ready { All (IsReady hall.now) result.1.items }
    ensures named { (k : ℕ) → k ≢ 0 → k ≤ agents → Contains (map (λ p. p.agent) result.1.items) k }
{
    let _ = hall;
    let owner = passes.remove(0);
    (owner, passes)
}

/// Runs a hall of agents from its making to its end, and tells whether each agent made all its turns.
pub fn run_hall<R: Threads + Wait + Sync + AllocGlobal>(
    rt: &R,
    agents: u32,
    turns: u32,
) -> Option<(Marks, bool)>
    requires { (0 < agents) × (agents ≤ 64) }
    ensures { IfSome result (λ r. r.1 ≡ true
        → (k : ℕ) → k ≢ 0 → k ≤ agents → HasRun turns (k, r.0.list.items)) }
{
    let Ok((hall, passes)) = Hall::make(rt, Marks::new(rt.alloc()), agents) else {
        return None;
    };
    let (mut owner, others) = owner_apart(&hall, passes, agents);
    let Some(run) = run_all(rt, &hall, others, turns) else {
        unreachable!()
    };
    let Run { pass, complete } = run;
    hall.join(&mut owner, pass);
    Some((hall.close(owner), complete))
}
