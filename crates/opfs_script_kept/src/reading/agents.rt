//! The agents of a script, one after another.

ghost use Rattle.std.specs.Prelude.{◌≡◌, ◌++◌, ◌∷◌, [], length, true, IfOk, IfSome, IsTrue};
ghost use Rattle.opfs_script.specs.Limits.{fits_limits};
ghost use Rattle.opfs_script_kept.specs.Reading.Agents.{AreAgents, TakesAgent};

use crate::packed::PackedAgent;
use crate::reading::agent::read_agent;
use crate::reading::sums::Sums;
use json::Reader;
use std::alloc::{AllocError, Global};

/// The most agents that a script may have.
const MOST: usize = 64;

/// Reads one agent, and puts it behind those before it; false where none stands there, or too much is asked for.
fn take_agent(
    alloc: Global,
    reader: &mut Reader<'_>,
    agents: &mut Vec<PackedAgent>,
    sums: &mut Sums,
) -> Result<bool, AllocError>
    ensures { IfOk result (λ stands. stands ≡ true → TakesAgent reader.old reader.new agents.old.items agents.new.items sums.old sums.new) }
{
    if agents.len() >= MOST {
        return Ok(false);
    }
    let number = agents.len() as u64 + 1;
    let Some(agent) = read_agent(alloc, reader, number, sums)? else {
        return Ok(false);
    };
    agents.push(agent)?;
    Ok(true)
}

/// Reads agents up to the bracket that closes them; None where something else stands there, or too much is asked for.
pub fn read_agents(
    alloc: Global,
    reader: &mut Reader<'_>,
) -> Result<Option<Vec<PackedAgent>>, AllocError>
    ensures read { IfOk result (λ found. IfSome found (λ agents. AreAgents reader.old agents.items reader.new)) }
    ensures limits { IfOk result (λ found. IfSome found (λ agents. IsTrue (fits_limits agents.items))) }
{
    let mut agents = Vec::new(alloc);
    let mut sums = Sums { steps: 0, bytes: 0 };
    while !reader.take_end_array() {
        if !take_agent(alloc, reader, &mut agents, &mut sums)? {
            return Ok(None);
        }
    }
    Ok(Some(agents))
}
