//! How agents end.

ghost use Rattle.std.specs.Prelude.{◌≡◌, ◌≢◌, ℕ, Bool, true, false, [], None, Some};
ghost use Rattle.opfs_runner.specs.Runs.{HasRun};
ghost use Rattle.opfs_script.specs.Scripts.{Asked};
ghost use Rattle.opfs_serving.specs.Endings.{EndsBehind, HasLeft};
ghost use Rattle.opfs_serving.specs.Seats.{EndsAt, MayEnd};
ghost use Rattle.opfs_turns.specs.Agents.{AgentSeen};

use crate::seat::Seat;
use opfs_agent::Agent;
use opfs_hall::{Hall, Pass, Watch};
use opfs_runner::{AgentRow, end_rows};
use opfs_store::Store;
use std::mem;
use std::sync::Wait;

// Ends an agent, with what it has open, once it has seen all that the owner's pass has, and gives its pass.
fn end_agent<S: Store, R: Wait>(
    rt: &R,
    hall: &Hall<S>,
    watch: &mut Watch<S>,
    mut agent: Agent<S>,
    rows: Vec<AgentRow>,
) -> Pass<S>
    requires watch { watch.old.pass.hall ≡ hall.now }
    requires may { (k : ℕ) × (asked : Asked) × (whole : Bool) × MayEnd S.tells hall.now k asked whole agent rows.items }
    ensures ran { (k : ℕ) (asked : Asked) (whole : Bool) → MayEnd S.tells hall.now k asked whole agent rows.items → HasRun hall.now asked k result whole }
    ensures over { EndsBehind (S.entries watch.old.last) result.agent result.base }
    ensures agent { result.agent ≡ agent.pass.agent }
    ensures own { result.hall ≡ hall.now }
    ensures idle { result.busy ≡ false }
    ensures alone { result.ended ≡ [] }
    ensures real { result.agent ≢ 0 }
    ensures same { watch.new ≡ watch.old }
{
    end_rows(rt, hall, &mut agent, rows);
    agent.look_behind(rt, hall, watch);
    agent.end(rt, hall)
}

/// Ends the agent of a seat, with what it has open, and lets the owner's pass collect its pass.
pub fn end_seat<S: Store, R: AllocGlobal + Wait>(
    rt: &R,
    hall: &Hall<S>,
    mut watch: Watch<S>,
    seat: &mut Seat<S>,
) -> Watch<S>
    requires own { watch.pass.hall ≡ hall.now }
    requires may { (a : AgentSeen S.Opening) → seat.old.agent ≡ Some a → (k : ℕ) × (asked : Asked) × (whole : Bool) × EndsAt S.tells hall.now k asked whole seat.old a }
    ensures gone { seat.new.agent ≡ None }
    ensures rows { (a : AgentSeen S.Opening) → seat.old.agent ≡ Some a → seat.new.rows ≡ [] }
    ensures none { seat.old.agent ≡ None → (result ≡ watch) × (seat.new ≡ seat.old) }
    ensures left { (a : AgentSeen S.Opening) → seat.old.agent ≡ Some a → HasLeft S.entries S.tells hall.now seat.old a watch result }
{
    let Some(agent) = seat.agent.take() else {
        return watch;
    };
    let rows = mem::replace(&mut seat.rows, Vec::new(rt.alloc()));
    let mut pass = end_agent(rt, hall, &mut watch, agent, rows);
    watch.learn(hall, &mut pass);
    watch.join(hall, pass);
    watch
}
