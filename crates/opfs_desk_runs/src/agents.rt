//! The agents of scripts, as the desk begins with them.

ghost use Rattle.std.specs.Option.{option_copied};
ghost use Rattle.std.specs.Prelude.{◌≡◌, All, map, IfOk, OnOk};
ghost use Rattle.opfs_desk_runs.specs.Agents.{IsOwnKey};
ghost use Rattle.opfs_books.specs.Openings.Openings.{caller_by};
ghost use Rattle.opfs_script_run.specs.Stage.Openings.{who_of};

use opfs_base::Key;
use opfs_register::Who;
use opfs_script::AgentScript;
use std::alloc::{AllocError, Global};

// The key of an agent, in memory of its own. It is the text of an origin.
fn key_of(alloc: Global, script: &AgentScript) -> Result<Option<Key>, AllocError>
    ensures key { IfOk result (λ key. key ≡ script.now.key) }
    ensures own { OnOk result (IsOwnKey script.now.key) }
{
    match script.key() {
        Some(key) => {
            let _text = key.as_str();
            let key = key.copy(alloc)?;
            Ok(Some(key))
        }
        None => Ok(None),
    }
}

// What the desk knows of an agent from its script.
fn who_of(alloc: Global, script: &AgentScript) -> Result<Who, AllocError>
    ensures who { IfOk result (λ who. caller_by who ≡ who_of script.now) }
    ensures own { OnOk result (IsOwnKey script.now.key) }
{
    let key = key_of(alloc, script)?;
    let grant = script.grant();
    Ok(Who { key, grant })
}

/// What the desk knows of the agents of scripts, in their order.
pub fn agents_of(alloc: Global, scripts: &[AgentScript]) -> Result<Vec<Who>, AllocError>
    ensures agents { IfOk result (λ agents. map caller_by agents.items ≡ map who_of scripts.now) }
    ensures keys { OnOk result (All (λ s. IsOwnKey s.key) scripts.now) }
{
    let mut agents = Vec::new(alloc);
    for script in scripts {
        agents.push(who_of(alloc, script)?)?;
    }
    Ok(agents)
}
