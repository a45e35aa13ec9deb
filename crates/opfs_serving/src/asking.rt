//! A step that an agent is asked for.

ghost use Rattle.std.specs.Prelude.{◌≡◌, ◌+◌, ◌≤◌, ℕ, true, false, [], ◌∷◌, ◌++◌, length, None, Some};
ghost use Rattle.opfs_script.specs.Limits.{keeps_bounds};
ghost use Rattle.opfs_script.specs.Scripts.{Asked};
ghost use Rattle.opfs_serving.specs.Seats.{EndsAt, IsAt, IsLeftOpen, IsMidway, MayEnd, with_steps};
ghost use Rattle.opfs_turns.specs.Agents.{AgentSeen};

use crate::seat::Seat;
use opfs_agent::Agent;
use opfs_base::Text;
use opfs_hall::Hall;
use opfs_runner::{AgentRow, make_step};
use opfs_script::Step;
use opfs_script_run::Hand;
use opfs_store::Store;
use std::alloc::Global;
use std::sync::Wait;

// Makes the call of a step, and has it entered. Tells whether it was made.
fn make_call<S: Store, R: Wait>(
    rt: &R,
    hall: &Hall<S>,
    agent: &mut Agent<S>,
    rows: &mut Vec<AgentRow>,
    hand: &mut Hand,
    step: &Step,
) -> bool
    requires midway { (k : ℕ) × (asked : Asked) × IsMidway S.tells hall.now k asked agent.old rows.old.items hand.old None }
    requires room { agent.old.entries + length rows.old.items ≤ 59900000 }
    requires bounds { keeps_bounds step.now ≡ true }
    ensures goes { result ≡ true → (k : ℕ) (asked : Asked) → IsMidway S.tells hall.now k asked agent.old rows.old.items hand.old None
        → IsMidway S.tells hall.now k (with_steps asked (asked.steps ++ step.now ∷ [])) agent.new rows.new.items hand.new None }
    ensures stops { result ≡ false → (k : ℕ) (asked : Asked) → IsMidway S.tells hall.now k asked agent.old rows.old.items hand.old None
        → MayEnd S.tells hall.now k (with_steps asked (asked.steps ++ step.now ∷ [])) false agent.new rows.new.items }
{
    if !make_step(rt, hall, agent, rows, hand, step) {
        agent.know_kept();
        return false;
    }
    agent.know_kept();
    agent.enter_pending(rt, hall);
    agent.know_kept();
    true
}

// Makes the call of a step of a seat. Tells whether it was made.
fn make<S: Store, R: Wait>(rt: &R, hall: &Hall<S>, seat: &mut Seat<S>, step: &Step) -> bool
    requires midway { (k : ℕ) × (asked : Asked) × (a : AgentSeen S.Opening) × (seat.old.agent ≡ Some a) × IsAt S.tells hall.now k asked seat.old a × (a.entries + length seat.old.rows ≤ 59900000) }
    requires free { seat.old.awaits ≡ None }
    requires bounds { keeps_bounds step.now ≡ true }
    ensures goes { result ≡ true → (k : ℕ) (asked : Asked) (a : AgentSeen S.Opening) → seat.old.agent ≡ Some a → IsAt S.tells hall.now k asked seat.old a
        → (b : AgentSeen S.Opening) × (seat.new.agent ≡ Some b) × IsAt S.tells hall.now k (with_steps asked (asked.steps ++ step.now ∷ [])) seat.new b }
    ensures stops { result ≡ false → (k : ℕ) (asked : Asked) (a : AgentSeen S.Opening) → seat.old.agent ≡ Some a → IsAt S.tells hall.now k asked seat.old a
        → (b : AgentSeen S.Opening) × (seat.new.agent ≡ Some b) × EndsAt S.tells hall.now k (with_steps asked (asked.steps ++ step.now ∷ [])) false seat.new b }
    ensures awaits { seat.new.awaits ≡ seat.old.awaits }
{
    let Some(agent) = seat.agent.as_mut() else {
        unreachable!();
    };
    make_call(rt, hall, agent, &mut seat.rows, &mut seat.hand, step)
}

// Has a seat await a tag. Tells whether there was memory for that.
fn begin_await<S: Store>(alloc: Global, seat: &mut Seat<S>, tag: &Text) -> bool
    ensures goes { result ≡ true → seat.new ≡ record seat.old { awaits = Some tag.now } }
    ensures stops { result ≡ false → seat.new ≡ seat.old }
{
    let Ok(tag) = tag.copy(alloc) else {
        return false;
    };
    seat.awaits = Some(tag);
    true
}

/// Has an agent make a step, or begin to await. Tells whether it was done: else memory was wanting, and it may be ended.
pub fn ask<S: Store, R: AllocGlobal + Wait>(
    rt: &R,
    hall: &Hall<S>,
    seat: &mut Seat<S>,
    step: &Step,
) -> bool
    requires midway { (k : ℕ) × (asked : Asked) × (a : AgentSeen S.Opening) × (seat.old.agent ≡ Some a) × IsAt S.tells hall.now k asked seat.old a × (a.entries + length seat.old.rows ≤ 59900000) }
    requires free { seat.old.awaits ≡ None }
    requires bounds { keeps_bounds step.now ≡ true }
    ensures goes { result ≡ true → (k : ℕ) (asked : Asked) (a : AgentSeen S.Opening) → seat.old.agent ≡ Some a → IsAt S.tells hall.now k asked seat.old a
        → (b : AgentSeen S.Opening) × (seat.new.agent ≡ Some b) × IsAt S.tells hall.now k (with_steps asked (asked.steps ++ step.now ∷ [])) seat.new b }
    ensures stops { result ≡ false → (k : ℕ) (asked : Asked) (a : AgentSeen S.Opening) → seat.old.agent ≡ Some a → IsAt S.tells hall.now k asked seat.old a
        → (b : AgentSeen S.Opening) × (seat.new.agent ≡ Some b) × EndsAt S.tells hall.now k (with_steps asked (asked.steps ++ step.now ∷ [])) false seat.new b }
    ensures awaits { result ≡ true → IsLeftOpen step.now seat.new.awaits }
{
    match step {
        Step::Await { tag } => begin_await(rt.alloc(), seat, tag),
        _ => make(rt, hall, seat, step),
    }
}
