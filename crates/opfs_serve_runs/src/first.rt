//! The agents of a conversation.

ghost use Rattle.std.specs.Prelude.{◌≡◌, ◌≤◌, All, true, length, IfOk};
ghost use Rattle.opfs_script.specs.Answers.{Answers};
ghost use Rattle.opfs_script.specs.Limits.{is_origin_key};
ghost use Rattle.opfs_script.specs.Lines.{heard_agents};
ghost use Rattle.opfs_serving.specs.Served.{HasNoScripts};

use opfs_script::{AgentScript, Script, ScriptRefusal, read_agents};
use std::alloc::Global;

// Each agent's key, if there is one, is an origin's.
fn know_keys(agents: &[AgentScript])
    ensures { All (λ a. is_origin_key a.key ≡ true) agents.now }
{
    for agent in agents {
        let _key = agent.key();
    }
}

/// The agents that the first line of a conversation names, 1 to 64, each without steps.
pub fn first_agents(alloc: Global, line: &[u8]) -> Result<Script, ScriptRefusal>
    ensures read { Answers result (heard_agents line.now) }
    ensures alone { IfOk result (λ script. HasNoScripts script) }
    ensures few { IfOk result (λ script. length script ≤ 64) }
{
    let script = read_agents(alloc, line)?;
    let agents = script.agents();
    know_keys(agents);
    Ok(script)
}
