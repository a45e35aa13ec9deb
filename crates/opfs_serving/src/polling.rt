//! An await that is looked after.

ghost use Rattle.std.specs.Prelude.{◌≡◌, ℕ, Bool, true, false, None, Some, List, IfOk, OnErr};
ghost use Rattle.opfs_machine.specs.Agents.{waits_for};
ghost use Rattle.opfs_runner.specs.declared.agent_rows.agent_row.AgentRow.{AgentRow as Row};
ghost use Rattle.opfs_script.specs.Scripts.{Asked};
ghost use Rattle.opfs_script_run.specs.declared.runs.hand.Hand.{Hand};
ghost use Rattle.opfs_serving.specs.Seats.{HasBegunToWait, IsAt, IsMidway};
ghost use Rattle.opfs_turns.specs.Agents.{AgentSeen};

use crate::seat::Seat;
use opfs_agent::{Agent, AwaitTurn};
use opfs_base::Text;
use opfs_hall::Hall;
use opfs_store::Store;
use std::alloc::AllocError;
use std::sync::Wait;

// Whether a turn has answered an await.
fn is_answered(turn: AwaitTurn) -> bool
    ensures answered { result ≡ true → (posted : Bool) × (turn ≡ AwaitTurn.Answered posted) }
    ensures waits { result ≡ false → (heard : ℕ) × (turn ≡ AwaitTurn.Waits heard) }
{
    match turn {
        AwaitTurn::Answered(_) => true,
        AwaitTurn::Waits(_) => false,
    }
}

// Makes one turn of an await, and tells whether it is answered.
fn poll_agent<S: Store, R: Wait>(
    rt: &R,
    hall: &Hall<S>,
    agent: &mut Agent<S>,
    tag: &Text,
) -> Result<bool, AllocError>
    requires midway { (k : ℕ) × (asked : Asked) × (rows : List Row) × (hand : Hand) × IsMidway S.tells hall.now k asked agent.old rows hand (Some tag.now) }
    ensures answered { IfOk result (λ done. done ≡ true → (k : ℕ) (asked : Asked) (rows : List Row) (hand : Hand) → IsMidway S.tells hall.now k asked agent.old rows hand (Some tag.now)
        → IsMidway S.tells hall.now k asked agent.new rows hand None) }
    ensures waits { IfOk result (λ done. done ≡ false → (k : ℕ) (asked : Asked) (rows : List Row) (hand : Hand) → IsMidway S.tells hall.now k asked agent.old rows hand (Some tag.now)
        → IsMidway S.tells hall.now k asked agent.new rows hand (Some tag.now)) }
    ensures begun { IfOk result (λ done. done ≡ false → waits_for agent.new.waiting tag.now ≡ true) }
    ensures err { OnErr result ((k : ℕ) (asked : Asked) (rows : List Row) (hand : Hand) → IsMidway S.tells hall.now k asked agent.old rows hand (Some tag.now)
        → IsMidway S.tells hall.now k asked agent.new rows hand (Some tag.now)) }
{
    let turn = agent.await_once(rt, hall, tag);
    agent.know_kept();
    match turn {
        Ok(turn) => Ok(is_answered(turn)),
        Err(error) => Err(error),
    }
}

/// Makes one turn of the await of a seat, if it awaits, and tells whether it is answered.
pub fn poll<S: Store, R: Wait>(
    rt: &R,
    hall: &Hall<S>,
    seat: &mut Seat<S>,
) -> Result<bool, AllocError>
    requires midway { (a : AgentSeen S.Opening) → seat.old.agent ≡ Some a → (k : ℕ) × (asked : Asked) × IsAt S.tells hall.now k asked seat.old a }
    ensures goes { (k : ℕ) (asked : Asked) (a : AgentSeen S.Opening) → seat.old.agent ≡ Some a → IsAt S.tells hall.now k asked seat.old a
        → (b : AgentSeen S.Opening) × (seat.new.agent ≡ Some b) × IsAt S.tells hall.now k asked seat.new b }
    ensures gone { seat.old.agent ≡ None → seat.new ≡ seat.old }
    ensures there { IfOk result (λ done. done ≡ true → (a : AgentSeen S.Opening) × (seat.old.agent ≡ Some a)) }
    ensures begun { IfOk result (λ done. HasBegunToWait seat.new) }
    ensures free { IfOk result (λ done. done ≡ false → seat.new.awaits ≡ None → seat.new ≡ seat.old) }
{
    let Some(agent) = seat.agent.as_mut() else {
        return Ok(false);
    };
    let Some(tag) = seat.awaits.as_ref() else {
        return Ok(false);
    };
    if !poll_agent(rt, hall, agent, tag)? {
        return Ok(false);
    }
    seat.awaits = None;
    Ok(true)
}
